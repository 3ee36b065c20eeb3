// The function f and the constant K of each quarter of SHA-1's rounds, on words of n shares.
#![tactic(auto)]

ghost use Rattle.std.specs.Prelude.{◌≡◌, [], ◌∷◌, ◌+◌, ◌*◌, ◌≤◌, ◌<◌, length};
ghost use Rattle.rules.specs.Numbers.{largest};
ghost use Rattle.rules.specs.Standard.{K};
ghost use Rattle.rules.specs.Sha1.{word, public, chosen};
ghost use Rattle.rules.specs.Counts.{and_draws, quarter_ands};
ghost use Rattle.masked_words.specs.Words.{Masked, turned};

use choices::{choose, majority};
use masked_words::{parity, public, turned_word};
use rules::CHAIN_WORDS;

// The function of quarter q: Ch, Parity, Maj, Parity.
fn quarter(
    n: usize,
    q: usize,
    b: &[u32],
    c: &[u32],
    d: &[u32],
    f: &mut [u32],
    words: &[u32],
    at: usize,
) -> usize
    requires { (q < 4) × Masked n (b.now ∷ c.now ∷ d.now ∷ f.old ∷ [])
        × (at + quarter_ands q * and_draws n ≤ length words.now) }
    ensures { (chosen q b.now c.now d.now words.now at
        ≡ (f.new, result))
        × (result ≡ at + quarter_ands q * and_draws n) }
{
    if q == 0 {
        return choose(n, b, c, d, f, words, at);
    }
    if q == 2 {
        return majority(n, b, c, d, f, words, at);
    }
    parity(n, b, c, d, f);
    at
}

// The function of quarter q, of the words b, c and d of the state s, which begins at word r.
pub fn quarter_of(
    n: usize,
    q: usize,
    r: usize,
    s: &[u32],
    f: &mut [u32],
    words: &[u32],
    at: usize,
) -> usize
    requires { (q < 4) × (r < 5) × (n ≤ largest) × (length s.now ≡ 5 * n) × (length f.old ≡ n)
        × (at + quarter_ands q * and_draws n ≤ length words.now) }
    ensures { (let t = turned n r s.now in
        chosen q (word n 1 t) (word n 2 t) (word n 3 t) words.now at ≡ (f.new, result))
        × (result ≡ at + quarter_ands q * and_draws n) }
{
    quarter(
        n,
        q,
        turned_word(s, n, CHAIN_WORDS, r, 1),
        turned_word(s, n, CHAIN_WORDS, r, 2),
        turned_word(s, n, CHAIN_WORDS, r, 3),
        f,
        words,
        at,
    )
}

// The constants of the quarters.
const CONSTANTS: [u32; 4] = [0x5a827999, 0x6ed9eba1, 0x8f1bbcdc, 0xca62c1d6];

fn constant(q: usize) -> u32
    requires { q < 4 }
    ensures { result ≡ K q }
{
    CONSTANTS[q]
}

// z becomes the constant of quarter q, in shares.
pub fn constant_of(n: usize, q: usize, z: &mut [u32])
    requires { (q < 4) × (0 < n) × (length z.old ≡ n) }
    ensures { z.new ≡ public n (K q) }
{
    public(n, constant(q), z);
}
