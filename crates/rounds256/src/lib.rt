// The sixty-four rounds of masked SHA-256, on a state of eight words in n shares each.
#![tactic(auto)]

ghost use Rattle.std.specs.Prelude.{◌≡◌, [], ◌∷◌, ◌+◌, ◌*◌, ◌%◌, ◌≤◌, ◌<◌, length};
ghost use Rattle.rules.specs.Numbers.{largest};
ghost use Rattle.rules.specs.Shares.{add};
ghost use Rattle.rules.specs.Standard256.{K};
ghost use Rattle.rules.specs.Sha1.{word, public, chosen, summed, rounds};
ghost use Rattle.rules.specs.Sha256.{Σ0, Σ1, temps, moved, round};
ghost use Rattle.rules.specs.Counts.{and_draws};
ghost use Rattle.masked_words.specs.Words.{Masked, turned};
ghost use Rattle.rounds256.specs.Ends.{ends};

use choices::{choose, majority};
use masked_words::{add_in, public, put_turned, turned_word, word};
use rules::{LARGEST, SHA256_CHAIN_WORDS, SHA256_ROUNDS};
use sigmas::upper;
use sums::sum_in;

// The constants of the rounds.
const CONSTANTS: [u32; 64] = [
    0x428a2f98, 0x71374491, 0xb5c0fbcf, 0xe9b5dba5, 0x3956c25b, 0x59f111f1, 0x923f82a4, 0xab1c5ed5,
    0xd807aa98, 0x12835b01, 0x243185be, 0x550c7dc3, 0x72be5d74, 0x80deb1fe, 0x9bdc06a7, 0xc19bf174,
    0xe49b69c1, 0xefbe4786, 0x0fc19dc6, 0x240ca1cc, 0x2de92c6f, 0x4a7484aa, 0x5cb0a9dc, 0x76f988da,
    0x983e5152, 0xa831c66d, 0xb00327c8, 0xbf597fc7, 0xc6e00bf3, 0xd5a79147, 0x06ca6351, 0x14292967,
    0x27b70a85, 0x2e1b2138, 0x4d2c6dfc, 0x53380d13, 0x650a7354, 0x766a0abb, 0x81c2c92e, 0x92722c85,
    0xa2bfe8a1, 0xa81a664b, 0xc24b8b70, 0xc76c51a3, 0xd192e819, 0xd6990624, 0xf40e3585, 0x106aa070,
    0x19a4c116, 0x1e376c08, 0x2748774c, 0x34b0bcb5, 0x391c0cb3, 0x4ed8aa4a, 0x5b9cca4f, 0x682e6ff3,
    0x748f82ee, 0x78a5636f, 0x84c87814, 0x8cc70208, 0x90befffa, 0xa4506ceb, 0xbef9a3f7, 0xc67178f2,
];

fn constant(t: usize) -> u32
    requires { t < 64 }
    ensures { result ≡ K t }
{
    CONSTANTS[t]
}

// ---- the sums of a round; the state s is a ring of eight words, which begins at word r

// f becomes Ch of e, f and g.
fn choice_of(n: usize, r: usize, s: &[u32], f: &mut [u32], words: &[u32], at: usize) -> usize
    requires { (r < 8) × (n ≤ largest) × (length s.now ≡ 8 * n) × (length f.old ≡ n)
        × (at + and_draws n ≤ length words.now) }
    ensures { (let u = turned n r s.now in
        chosen 0 (word n 4 u) (word n 5 u) (word n 6 u) words.now at ≡ (f.new, result))
        × (result ≡ at + and_draws n) }
{
    choose(
        n,
        turned_word(s, n, SHA256_CHAIN_WORDS, r, 4),
        turned_word(s, n, SHA256_CHAIN_WORDS, r, 5),
        turned_word(s, n, SHA256_CHAIN_WORDS, r, 6),
        f,
        words,
        at,
    )
}

// f becomes Maj of a, b and c.
fn majority_of(n: usize, r: usize, s: &[u32], f: &mut [u32], words: &[u32], at: usize) -> usize
    requires { (r < 8) × (n ≤ largest) × (length s.now ≡ 8 * n) × (length f.old ≡ n)
        × (at + and_draws n ≤ length words.now) }
    ensures { (let u = turned n r s.now in
        chosen 2 (word n 0 u) (word n 1 u) (word n 2 u) words.now at ≡ (f.new, result))
        × (result ≡ at + and_draws n) }
{
    majority(
        n,
        turned_word(s, n, SHA256_CHAIN_WORDS, r, 0),
        turned_word(s, n, SHA256_CHAIN_WORDS, r, 1),
        turned_word(s, n, SHA256_CHAIN_WORDS, r, 2),
        f,
        words,
        at,
    )
}

// z becomes h + Σ1(e), + f, + K of round t, + w.
fn first_sum(
    n: usize,
    t: usize,
    h: &[u32],
    e: &[u32],
    f: &[u32],
    w: &[u32],
    z: &mut [u32],
    words: &[u32],
    at: usize,
) -> usize
    requires { (t < 64) × (0 < n) × Masked n (h.now ∷ e.now ∷ f.now ∷ w.now ∷ z.old ∷ [])
        × (at + 128 * and_draws n ≤ length words.now) }
    ensures { (summed (add 32) h.now (Σ1 32 e.now) f.now (public n (K t))
        w.now words.now at ≡ (z.new, result))
        × (result ≡ at + 128 * and_draws n) }
{
    let mut x0 = [0u32; LARGEST];
    let mut k0 = [0u32; LARGEST];
    let x = &mut x0[0..n];
    let k = &mut k0[0..n];
    upper(6, 11, 25, e, x);
    public(n, constant(t), k);
    shares::copy(h, z);
    sum_in(n, z, x, f, k, w, words, at)
}

// x becomes T1, of the state and the choice f.
fn first_of(
    n: usize,
    t: usize,
    r: usize,
    f: &[u32],
    w: &[u32],
    s: &[u32],
    x: &mut [u32],
    words: &[u32],
    at: usize,
) -> usize
    requires { (t < 64) × (r < 8) × (0 < n) × Masked n (f.now ∷ w.now ∷ x.old ∷ []) × (length s.now ≡ 8 * n)
        × (at + 128 * and_draws n ≤ length words.now) }
    ensures { (let u = turned n r s.now in
        summed (add 32) (word n 7 u) (Σ1 32 (word n 4 u)) f.now (public n (K t))
        w.now words.now at ≡ (x.new, result))
        × (result ≡ at + 128 * and_draws n) }
{
    let h = turned_word(s, n, SHA256_CHAIN_WORDS, r, 7);
    let e = turned_word(s, n, SHA256_CHAIN_WORDS, r, 4);
    first_sum(n, t, h, e, f, w, x, words, at)
}

// y becomes T2 = Σ0(a) + g, of the state and the majority g.
fn second_of(
    n: usize,
    r: usize,
    g: &[u32],
    s: &[u32],
    y: &mut [u32],
    words: &[u32],
    at: usize,
) -> usize
    requires { (r < 8) × Masked n (g.now ∷ y.old ∷ []) × (length s.now ≡ 8 * n)
        × (at + 32 * and_draws n ≤ length words.now) }
    ensures { (add 32 (Σ0 32 (word n 0 (turned n r s.now))) g.now words.now at
        ≡ (y.new, result))
        × (result ≡ at + 32 * and_draws n) }
{
    upper(2, 13, 22, turned_word(s, n, SHA256_CHAIN_WORDS, r, 0), y);
    add_in(n, y, g, words, at)
}

// f becomes Ch, and then g becomes Maj.
fn choices_at(
    n: usize,
    r: usize,
    s: &[u32],
    f: &mut [u32],
    g: &mut [u32],
    words: &[u32],
    at: usize,
) -> usize
    requires { (r < 8) × Masked n (f.old ∷ g.old ∷ []) × (length s.now ≡ 8 * n)
        × (at + 2 * and_draws n ≤ length words.now) }
    ensures { (let u = turned n r s.now in
        (chosen 0 (word n 4 u) (word n 5 u) (word n 6 u) words.now at ≡ (f.new, at + and_draws n))
        × (chosen 2 (word n 0 u) (word n 1 u) (word n 2 u) words.now (at + and_draws n) ≡ (g.new, result)))
        × (result ≡ at + 2 * and_draws n) }
{
    let p = choice_of(n, r, s, f, words, at);
    majority_of(n, r, s, g, words, p)
}

// x becomes T1, and then y becomes T2, of the state, the choice f and the majority g.
fn sums_of(
    n: usize,
    t: usize,
    r: usize,
    f: &[u32],
    g: &[u32],
    w: &[u32],
    s: &[u32],
    x: &mut [u32],
    y: &mut [u32],
    words: &[u32],
    at: usize,
) -> usize
    requires { (t < 64) × (r < 8) × (0 < n) × Masked n (f.now ∷ g.now ∷ w.now ∷ x.old ∷ y.old ∷ [])
        × (length s.now ≡ 8 * n) × (at + 160 * and_draws n ≤ length words.now) }
    ensures { (let u = turned n r s.now in
        (summed (add 32) (word n 7 u) (Σ1 32 (word n 4 u)) f.now (public n (K t)) w.now
        words.now at ≡ (x.new, at + 128 * and_draws n))
        × (add 32 (Σ0 32 (word n 0 u)) g.now words.now (at + 128 * and_draws n)
        ≡ (y.new, result)))
        × (result ≡ at + 160 * and_draws n) }
{
    let p = first_of(n, t, r, f, w, s, x, words, at);
    second_of(n, r, g, s, y, words, p)
}

// x becomes T1 and y becomes T2.
fn temps_at(
    n: usize,
    t: usize,
    r: usize,
    w: &[u32],
    s: &[u32],
    x: &mut [u32],
    y: &mut [u32],
    words: &[u32],
    at: usize,
) -> usize
    requires { (t < 64) × (r < 8) × (0 < n) × Masked n (w.now ∷ x.old ∷ y.old ∷ []) × (length s.now ≡ 8 * n)
        × (at + 162 * and_draws n ≤ length words.now) }
    ensures { (temps 32 (add 32) n t w.now (turned n r s.now) words.now at
        ≡ ((x.new, y.new), result))
        × (result ≡ at + 162 * and_draws n) }
{
    let mut f0 = [0u32; LARGEST];
    let mut g0 = [0u32; LARGEST];
    let f = &mut f0[0..n];
    let g = &mut g0[0..n];
    let p = choices_at(n, r, s, f, g, words, at);
    sums_of(n, t, r, f, g, w, s, x, y, words, p)
}

// ---- a round

// x and y, which are T1 and T2, become T1 + T2 and d + T1; the latter is drawn for first.
fn ends_at(
    n: usize,
    r: usize,
    s: &[u32],
    x: &mut [u32],
    y: &mut [u32],
    words: &[u32],
    at: usize,
) -> usize
    requires { (r < 8) × Masked n (x.old ∷ y.old ∷ []) × (length s.now ≡ 8 * n)
        × (at + 64 * and_draws n ≤ length words.now) }
    ensures { (ends (add 32) (word n 3 (turned n r s.now)) x.old y.old
        words.now at ≡ ((x.new, y.new), result))
        × (result ≡ at + 64 * and_draws n) }
{
    let mut u0 = [0u32; LARGEST];
    let u = &mut u0[0..n];
    shares::copy(turned_word(s, n, SHA256_CHAIN_WORDS, r, 3), u);
    let p = add_in(n, u, x, words, at);
    let q = add_in(n, x, y, words, p);
    shares::copy(u, y);
    q
}

// The words a to h become t, a, b, c, u, e, f, g, and none is moved: u goes over d and t over h, where the ring begins
// from now on.
fn move_on(n: usize, r: usize, t: &[u32], u: &[u32], s: &mut [u32])
    requires { (r < 8) × Masked n (t.now ∷ u.now ∷ []) × (length s.old ≡ 8 * n) }
    ensures { turned n ((r + 7) % 8) s.new
        ≡ moved n t.now u.now (turned n r s.old) }
{
    put_turned(n, SHA256_CHAIN_WORDS, r, 3, u, s);
    put_turned(n, SHA256_CHAIN_WORDS, r, 7, t, s);
}

// Round t, with the schedule's word w.
fn round_at(
    n: usize,
    t: usize,
    r: usize,
    w: &[u32],
    s: &mut [u32],
    words: &[u32],
    at: usize,
) -> usize
    requires { (t < 64) × (r < 8) × (0 < n) × Masked n (w.now ∷ []) × (length s.old ≡ 8 * n)
        × (at + 226 * and_draws n ≤ length words.now) }
    ensures { (round 32 (add 32) n t w.now (turned n r s.old) words.now at
        ≡ (turned n ((r + 7) % 8) s.new, result))
        × (result ≡ at + 226 * and_draws n) }
{
    let mut x0 = [0u32; LARGEST];
    let mut y0 = [0u32; LARGEST];
    let x = &mut x0[0..n];
    let y = &mut y0[0..n];
    let p = temps_at(n, t, r, w, s, x, y, words, at);
    let q = ends_at(n, r, s, x, y, words, p);
    move_on(n, r, x, y, s);
    q
}

// The sixty-four rounds, over the schedule u. The state begins one word lower in each; after all at word 0 again.
pub fn rounds_at(n: usize, u: &[u32], s: &mut [u32], words: &[u32], at: usize) -> usize
    requires { (0 < n) × (n ≤ largest) × (length u.now ≡ 64 * n) × (length s.old ≡ 8 * n)
        × (at + 64 * (226 * and_draws n) ≤ length words.now) }
    ensures { (rounds (round 32 (add 32) n) n u.now 64 0 s.old words.now at
        ≡ (s.new, result))
        × (result ≡ at + 64 * (226 * and_draws n)) }
{
    let mut p = at;
    for t in 0..SHA256_ROUNDS {
        let w = word(u, n, t);
        p = round_at(
            n,
            t,
            (SHA256_ROUNDS - t) % SHA256_CHAIN_WORDS,
            w,
            s,
            words,
            p,
        );
    }
    p
}
