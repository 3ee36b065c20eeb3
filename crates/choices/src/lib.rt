// Ch and Maj of words in n shares, with one AND each.
#![tactic(auto)]

ghost use Rattle.std.specs.Prelude.{◌≡◌, [], ◌∷◌, ◌+◌, ◌≤◌, length};
ghost use Rattle.rules.specs.Sha1.{blended, chosen};
ghost use Rattle.rules.specs.Counts.{and_draws};
ghost use Rattle.masked_words.specs.Words.{Masked};

use rules::LARGEST;

// d XOR (u AND v).
fn blend(
    n: usize,
    u: &[u32],
    v: &[u32],
    d: &[u32],
    f: &mut [u32],
    words: &[u32],
    at: usize,
) -> usize
    requires { Masked n (u.now ∷ v.now ∷ d.now ∷ f.old ∷ []) × (at + and_draws n ≤ length words.now) }
    ensures { (blended u.now v.now d.now words.now at
        ≡ (f.new, result))
        × (result ≡ at + and_draws n) }
{
    let mut y0 = [0u32; LARGEST];
    let y = &mut y0[0..n];
    let p = adder::and_at(u, v, y, words, at);
    shares::xor_each(d, y, f);
    p
}

// Ch = d XOR (b AND (c XOR d)).
pub fn choose(
    n: usize,
    b: &[u32],
    c: &[u32],
    d: &[u32],
    f: &mut [u32],
    words: &[u32],
    at: usize,
) -> usize
    requires { Masked n (b.now ∷ c.now ∷ d.now ∷ f.old ∷ []) × (at + and_draws n ≤ length words.now) }
    ensures { (chosen 0 b.now c.now d.now words.now at
        ≡ (f.new, result))
        × (result ≡ at + and_draws n) }
{
    let mut v0 = [0u32; LARGEST];
    let v = &mut v0[0..n];
    shares::xor_each(c, d, v);
    blend(n, b, v, d, f, words, at)
}

// Maj = d XOR ((b XOR d) AND (c XOR d)).
pub fn majority(
    n: usize,
    b: &[u32],
    c: &[u32],
    d: &[u32],
    f: &mut [u32],
    words: &[u32],
    at: usize,
) -> usize
    requires { Masked n (b.now ∷ c.now ∷ d.now ∷ f.old ∷ []) × (at + and_draws n ≤ length words.now) }
    ensures { (chosen 2 b.now c.now d.now words.now at
        ≡ (f.new, result))
        × (result ≡ at + and_draws n) }
{
    let mut u0 = [0u32; LARGEST];
    let mut v0 = [0u32; LARGEST];
    let u = &mut u0[0..n];
    let v = &mut v0[0..n];
    shares::xor_each(b, d, u);
    shares::xor_each(c, d, v);
    blend(n, u, v, d, f, words, at)
}
