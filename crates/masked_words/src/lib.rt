// Words in n shares each, one after the other: share i of word w stands at place w·n + i.
// Taking one of them, a ring of them, and what SHA-1 does with whole words.
#![tactic(auto)]

ghost use Rattle.std.specs.Prelude.{◌≡◌, [], ◌∷◌, ◌+◌, ◌*◌, ◌%◌, ◌≤◌, ◌<◌, length};
ghost use Rattle.std.specs.Int.Bits.{bit_xor};
ghost use Rattle.std.proofs.lemmas.List.Edits.{sets};
ghost use Rattle.rules.specs.Shares.{each, add};
ghost use Rattle.rules.specs.Sha1.{word, public, rotl, rotated};
ghost use Rattle.rules.specs.Counts.{and_draws};
ghost use Rattle.masked_words.specs.Words.{Masked, turned};

// ---- places

// Word w of several.
pub fn word(s: &[u32], n: usize, w: usize) -> &[u32]
    requires { w * n + n ≤ length s.now }
    ensures { (result.now ≡ word n w s.now) × (length result.now ≡ n) }
{
    let a = w * n;
    let e = a + n;
    &s[a..e]
}

// x becomes word w of m.
pub fn put_word(n: usize, m: usize, w: usize, x: &[u32], s: &mut [u32])
    requires { (w < m) × (length x.now ≡ n) × (length s.old ≡ m * n) }
    ensures { s.new ≡ sets s.old (w * n) x.now }
{
    shares::put(x, s, w * n);
}

// ---- a ring of m words, from word r on

// The place of word i.
fn turned_place(m: usize, r: usize, i: usize) -> usize
    requires { (r < m) × (i < m) }
    ensures { result ≡ (r + i) % m }
{
    let left = m - r;
    if i < left {
        return r + i;
    }
    i - left
}

// Word i.
pub fn turned_word(s: &[u32], n: usize, m: usize, r: usize, i: usize) -> &[u32]
    requires { (r < m) × (i < m) × (length s.now ≡ m * n) }
    ensures { (result.now ≡ word n i (turned n r s.now)) × (length result.now ≡ n) }
{
    word(s, n, turned_place(m, r, i))
}

// x becomes word i.
pub fn put_turned(n: usize, m: usize, r: usize, i: usize, x: &[u32], s: &mut [u32])
    requires { (r < m) × (i < m) × (length x.now ≡ n) × (length s.old ≡ m * n) }
    ensures { turned n r s.new ≡ sets (turned n r s.old) (i * n) x.now }
{
    put_word(n, m, turned_place(m, r, i), x, s);
}

// ---- one word

// A public value: (v, 0, .., 0).
pub fn public(n: usize, v: u32, z: &mut [u32])
    requires { (0 < n) × (length z.old ≡ n) }
    ensures { z.new ≡ public n v }
{
    z.fill(0);
    z[0] = v;
}

// The rotation of one share to the left.
pub fn rotate_share(x: u32, r: u32) -> u32
    requires { (0 < r) × (r < 32) }
    ensures { result ≡ rotl 32 r x }
{
    (x << r) ^ (x >> (32 - r))
}

// The rotation, share by share.
pub fn rotate(r: u32, x: &[u32], z: &mut [u32])
    requires { (0 < r) × (r < 32) × (length z.old ≡ length x.now) }
    ensures { z.new ≡ rotated 32 r x.now }
{
    for (i, v) in x.iter().enumerate() {
        z[i] = rotate_share(*v, r);
    }
}

// ---- two words and three

// x becomes x + y.
pub fn add_in(n: usize, x: &mut [u32], y: &[u32], words: &[u32], at: usize) -> usize
    requires { Masked n (x.old ∷ y.now ∷ []) × (at + 32 * and_draws n ≤ length words.now) }
    ensures { (add 32 x.old y.now words.now at ≡ (x.new, result))
        × (result ≡ at + 32 * and_draws n) }
{
    adder::add_in(x, y, words, at)
}

// The parity of three words: b XOR c XOR d.
pub fn parity(n: usize, b: &[u32], c: &[u32], d: &[u32], f: &mut [u32])
    requires { Masked n (b.now ∷ c.now ∷ d.now ∷ f.old ∷ []) }
    ensures { f.new ≡ each bit_xor (each bit_xor b.now c.now) d.now }
{
    for i in 0..n {
        f[i] = b[i] ^ c[i] ^ d[i];
    }
}
