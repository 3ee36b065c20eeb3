// Sums of words in n shares: that of a round, and those that make the new chain.
#![tactic(auto)]

ghost use Rattle.std.specs.Prelude.{◌≡◌, [], ◌∷◌, ◌+◌, ◌*◌, ◌≤◌, length, drop};
ghost use Rattle.rules.specs.Numbers.{largest};
ghost use Rattle.rules.specs.Shares.{add};
ghost use Rattle.rules.specs.Sha1.{word, summed, sums};
ghost use Rattle.rules.specs.Counts.{and_draws};
ghost use Rattle.masked_words.specs.Words.{Sized, Masked, firsts};
ghost use Rattle.sums.specs.Three.{three};

use masked_words::{add_in, word};

// t becomes t + a, + b, + c.
pub fn three_in(
    n: usize,
    t: &mut [u32],
    a: &[u32],
    b: &[u32],
    c: &[u32],
    words: &[u32],
    at: usize,
) -> usize
    requires { Masked n (t.old ∷ a.now ∷ b.now ∷ c.now ∷ []) × (at + 96 * and_draws n ≤ length words.now) }
    ensures { (three (add 32) t.old a.now b.now c.now
        words.now at ≡ (t.new, result))
        × (result ≡ at + 96 * and_draws n) }
{
    let p = add_in(n, t, a, words, at);
    let q = add_in(n, t, b, words, p);
    add_in(n, t, c, words, q)
}

// t becomes t + f, + e, + k, + w.
pub fn sum_in(
    n: usize,
    t: &mut [u32],
    f: &[u32],
    e: &[u32],
    k: &[u32],
    w: &[u32],
    words: &[u32],
    at: usize,
) -> usize
    requires { Masked n (t.old ∷ f.now ∷ e.now ∷ k.now ∷ w.now ∷ [])
        × (at + 128 * and_draws n ≤ length words.now) }
    ensures { (summed (add 32) t.old f.now e.now k.now
        w.now words.now at ≡ (t.new, result))
        × (result ≡ at + 128 * and_draws n) }
{
    let p = three_in(n, t, f, e, k, words, at);
    add_in(n, t, w, words, p)
}

// Word i of the chain z, the old value, becomes its sum with word i of the state s.
fn sum_at(n: usize, i: usize, s: &[u32], z: &mut [u32], words: &[u32], at: usize) -> usize
    requires { (n ≤ largest) × (i * n + n ≤ length s.now) × (i * n + n ≤ length z.old)
        × (at + 32 * and_draws n ≤ length words.now) }
    ensures { (add 32 (word n i z.old) (word n i s.now) words.now at
        ≡ (word n i z.new, result))
        × (firsts n i z.new ≡ firsts n i z.old)
        × (drop ((i + 1) * n) z.new ≡ drop ((i + 1) * n) z.old)
        × (result ≡ at + 32 * and_draws n) }
{
    let y = word(s, n, i);
    let a = i * n;
    let e = a + n;
    let x = &mut z[a..e];
    add_in(n, x, y, words, at)
}

// The chain z, of so many words, becomes the new one: its words, the old values, and those of the state s after the
// rounds, added.
pub fn sums_at(n: usize, count: usize, s: &[u32], z: &mut [u32], words: &[u32], at: usize) -> usize
    requires { (n ≤ largest) × Sized (count * n) (s.now ∷ z.old ∷ [])
        × (at + count * (32 * and_draws n) ≤ length words.now) }
    ensures { (sums (add 32) n z.old s.now count 0 [] words.now at
        ≡ (z.new, result))
        × (result ≡ at + count * (32 * and_draws n)) }
{
    let mut p = at;
    for i in 0..count {
        p = sum_at(n, i, s, z, words, p);
    }
    p
}
