// The schedule of masked SHA-256: sixty-four words of n shares, added up before the first round.
#![tactic(auto)]

ghost use Rattle.std.specs.Prelude.{◌≡◌, [], ◌∷◌, ◌+◌, ◌*◌, ◌≤◌, ◌<◌, length};
ghost use Rattle.rules.specs.Numbers.{largest};
ghost use Rattle.rules.specs.Shares.{add};
ghost use Rattle.rules.specs.Sha1.{word};
ghost use Rattle.rules.specs.Sha256.{σ0, σ1, following, schedule};
ghost use Rattle.rules.specs.Counts.{and_draws};
ghost use Rattle.masked_words.specs.Words.{Masked, firsts};
ghost use Rattle.sums.specs.Three.{three};

use masked_words::{put_word, word};
use rules::{BLOCK_WORDS, LARGEST, SHA256_ROUNDS};
use sigmas::lower;
use sums::three_in;

// z becomes σ1(a) + b, + σ0(c), + d.
fn sum_of(
    n: usize,
    a: &[u32],
    b: &[u32],
    c: &[u32],
    d: &[u32],
    z: &mut [u32],
    words: &[u32],
    at: usize,
) -> usize
    requires { Masked n (a.now ∷ b.now ∷ c.now ∷ d.now ∷ z.old ∷ []) × (at + 96 * and_draws n ≤ length words.now) }
    ensures { (three (add 32) (σ1 32 a.now) b.now (σ0 32 c.now)
        d.now words.now at ≡ (z.new, result))
        × (result ≡ at + 96 * and_draws n) }
{
    let mut y0 = [0u32; LARGEST];
    let y = &mut y0[0..n];
    lower(17, 19, 10, a, z);
    lower(7, 18, 3, c, y);
    three_in(n, z, b, y, d, words, at)
}

// z becomes the word that follows the first t words of u, of those 2, 7, 15 and 16 before it.
fn following_at(n: usize, t: usize, u: &[u32], z: &mut [u32], words: &[u32], at: usize) -> usize
    requires { (16 ≤ t) × (t < 64) × (n ≤ largest) × (length u.now ≡ 64 * n) × (length z.old ≡ n)
        × (at + 96 * and_draws n ≤ length words.now) }
    ensures { (following 32 (add 32) n (firsts n t u.now) words.now at
        ≡ (z.new, result))
        × (result ≡ at + 96 * and_draws n) × (length z.new ≡ n) }
{
    sum_of(
        n,
        word(u, n, t - 2),
        word(u, n, t - 7),
        word(u, n, t - 15),
        word(u, n, t - 16),
        z,
        words,
        at,
    )
}

// Word t of u becomes the word that follows those before it.
fn extend_at(n: usize, t: usize, u: &mut [u32], words: &[u32], at: usize) -> usize
    requires { (16 ≤ t) × (t < 64) × (n ≤ largest) × (length u.old ≡ 64 * n)
        × (at + 96 * and_draws n ≤ length words.now) }
    ensures { (following 32 (add 32) n (firsts n t u.old) words.now at
        ≡ (word n t u.new, result))
        × (firsts n t u.new ≡ firsts n t u.old)
        × (result ≡ at + 96 * and_draws n) }
{
    let mut z0 = [0u32; LARGEST];
    let z = &mut z0[0..n];
    let p = following_at(n, t, u, z, words, at);
    put_word(n, SHA256_ROUNDS, t, z, u);
    p
}

// u, which begins with a block, becomes its whole schedule.
pub fn schedule_at(n: usize, u: &mut [u32], words: &[u32], at: usize) -> usize
    requires { (n ≤ largest) × (length u.old ≡ 64 * n) × (at + 48 * (96 * and_draws n) ≤ length words.now) }
    ensures { (schedule 32 (add 32) n 48 (firsts n 16 u.old) words.now at
        ≡ (u.new, result))
        × (result ≡ at + 48 * (96 * and_draws n)) }
{
    let mut p = at;
    for t in BLOCK_WORDS..SHA256_ROUNDS {
        p = extend_at(n, t, u, words, p);
    }
    p
}
