// The eighty rounds of masked SHA-1, on a state of five words in n shares each.
#![tactic(auto)]

ghost use Rattle.std.specs.Prelude.{◌≡◌, [], ◌∷◌, ◌+◌, ◌-◌, ◌*◌, ◌/◌, ◌%◌, ◌≤◌, ◌<◌, length};
ghost use Rattle.rules.specs.Numbers.{largest};
ghost use Rattle.rules.specs.Shares.{add};
ghost use Rattle.rules.specs.Standard.{K};
ghost use Rattle.rules.specs.Sha1.{word, public, summed, temp, moved, round, rounds, schedule};
ghost use Rattle.rules.specs.Counts.{and_draws, quarter_ands, rounds_ands};
ghost use Rattle.masked_words.specs.Words.{Masked, turned};
ghost use Rattle.schedule.specs.Window.{slid};

use masked_words::{put_turned, rotate, turned_word};
use quarters::{constant_of, quarter_of};
use rules::{BLOCK_WORDS, CHAIN_WORDS, LARGEST, ROUNDS};
use schedule::slide;
use sums::sum_in;

// How many rounds there are to a quarter.
const QUARTER: usize = 20;

// ---- the sum of a round

// t becomes t + f, + e of the state s, + K of quarter q, + w.
fn sum_of(
    n: usize,
    q: usize,
    r: usize,
    t: &mut [u32],
    f: &[u32],
    s: &[u32],
    w: &[u32],
    words: &[u32],
    at: usize,
) -> usize
    requires { (q < 4) × (r < 5) × (0 < n) × Masked n (t.old ∷ f.now ∷ w.now ∷ []) × (length s.now ≡ 5 * n)
        × (at + 128 * and_draws n ≤ length words.now) }
    ensures { (summed (add 32) t.old f.now (word n 4 (turned n r s.now))
        (public n (K q)) w.now words.now at ≡ (t.new, result))
        × (result ≡ at + 128 * and_draws n) }
{
    let mut k0 = [0u32; LARGEST];
    let k = &mut k0[0..n];
    constant_of(n, q, k);
    sum_in(
        n,
        t,
        f,
        turned_word(s, n, CHAIN_WORDS, r, 4),
        k,
        w,
        words,
        at,
    )
}

// t becomes ROTL5(a) + f, + e, + K, + W.
fn temp_at(
    n: usize,
    q: usize,
    r: usize,
    w: &[u32],
    s: &[u32],
    t: &mut [u32],
    words: &[u32],
    at: usize,
) -> usize
    requires { (q < 4) × (r < 5) × (0 < n) × Masked n (w.now ∷ t.old ∷ []) × (length s.now ≡ 5 * n)
        × (at + (quarter_ands q * and_draws n + 128 * and_draws n) ≤ length words.now) }
    ensures { (temp 32 (add 32) n q w.now (turned n r s.now) words.now at
        ≡ (t.new, result))
        × (result ≡ at + (quarter_ands q * and_draws n + 128 * and_draws n)) }
{
    let mut f0 = [0u32; LARGEST];
    let f = &mut f0[0..n];
    rotate(5, turned_word(s, n, CHAIN_WORDS, r, 0), t);
    let p = quarter_of(n, q, r, s, f, words, at);
    sum_of(n, q, r, t, f, s, w, words, p)
}

// ---- a round: the state is a ring of five words, which begins at word r

// a, b, c, d, e become t, a, ROTL30(b), c, d, and none is moved: t goes over e, and there the ring begins from now on.
fn move_on(n: usize, r: usize, t: &[u32], s: &mut [u32])
    requires { (r < 5) × Masked n (t.now ∷ []) × (length s.old ≡ 5 * n) }
    ensures { turned n ((r + 4) % 5) s.new
        ≡ moved 32 n t.now (turned n r s.old) }
{
    let mut b0 = [0u32; LARGEST];
    let b = &mut b0[0..n];
    rotate(30, turned_word(s, n, CHAIN_WORDS, r, 1), b);
    put_turned(n, CHAIN_WORDS, r, 1, b, s);
    put_turned(n, CHAIN_WORDS, r, 4, t, s);
}

// One round of quarter q, with the schedule's word w.
fn round_at(
    n: usize,
    q: usize,
    r: usize,
    w: &[u32],
    s: &mut [u32],
    words: &[u32],
    at: usize,
) -> usize
    requires { (q < 4) × (r < 5) × (0 < n) × Masked n (w.now ∷ []) × (length s.old ≡ 5 * n)
        × (at + (quarter_ands q * and_draws n + 128 * and_draws n) ≤ length words.now) }
    ensures { (round 32 (add 32) n q w.now (turned n r s.old) words.now at
        ≡ (turned n ((r + 4) % 5) s.new, result))
        × (result ≡ at + (quarter_ands q * and_draws n + 128 * and_draws n)) }
{
    let mut t0 = [0u32; LARGEST];
    let t = &mut t0[0..n];
    let p = temp_at(n, q, r, w, s, t, words, at);
    move_on(n, r, t, s);
    p
}

// Round t, with the first word of the window u, which then slides on. The state begins one word lower in each round.
fn round_of(n: usize, t: usize, u: &mut [u32], s: &mut [u32], words: &[u32], at: usize) -> usize
    requires { (t < 80) × (0 < n) × (n ≤ largest) × (length u.old ≡ 16 * n) × (length s.old ≡ 5 * n)
        × (at + (quarter_ands (t / 20) * and_draws n + 128 * and_draws n) ≤ length words.now) }
    ensures { (round 32 (add 32) n (t / 20) (word n 0 (turned n (t % 16) u.old))
        (turned n ((80 - t) % 5) s.old) words.now at
        ≡ (turned n (((80 - t) % 5 + 4) % 5) s.new, result))
        × (result ≡ at + (quarter_ands (t / 20) * and_draws n + 128 * and_draws n))
        × (turned n ((t + 1) % 16) u.new ≡ slid 32 n t (turned n (t % 16) u.old)) }
{
    let w = turned_word(u, n, BLOCK_WORDS, t % BLOCK_WORDS, 0);
    let p = round_at(n, t / QUARTER, (ROUNDS - t) % CHAIN_WORDS, w, s, words, at);
    slide(n, t, u);
    p
}

// The eighty rounds, over the schedule of a block: u is the block, and then the window that slides over the schedule.
// After all the state begins at word 0 again.
pub fn rounds_at(n: usize, u: &mut [u32], s: &mut [u32], words: &[u32], at: usize) -> usize
    requires { (0 < n) × (n ≤ largest) × (length u.old ≡ 16 * n) × (length s.old ≡ 5 * n)
        × (at + rounds_ands 32 80 0 * and_draws n ≤ length words.now) }
    ensures { (rounds (λ t. round 32 (add 32) n (t / 20)) n (schedule 32 n 64 u.old) 80 0
        s.old
        words.now at
        ≡ (s.new, result))
        × (result ≡ at + rounds_ands 32 80 0 * and_draws n) }
{
    let mut p = at;
    for t in 0..ROUNDS {
        p = round_of(n, t, u, s, words, p);
    }
    p
}
