// Addition of 1, 2 or 4 shares, each in a word of its own: the compiler keeps them in registers, and never two in one.
// One code for the three counts; what stands past the first n words of a `Few` is not looked at.
#![tactic(auto)]

ghost use Rattle.std.specs.Prelude.{◌≡◌, true, ℕ, ◌+◌, ◌-◌, ◌*◌, ◌≤◌, ◌<◌, length, replicate};
ghost use Rattle.std.specs.Int.Bits.{bit_xor, bit_and};
ghost use Rattle.words.specs.Word.{double};
ghost use Rattle.width.specs.Width.{bits};
ghost use Rattle.rules.specs.Shares.{each, double_xor, carries, add};
ghost use Rattle.rules.specs.Counts.{and_draws, add_draws};
ghost use Rattle.few.specs.Shares.{IsFew, firsts, ran, Crosses, first_row, other_rows};

use supply::draw_at;
use veil::held;
use width::{BITS, Word};

// The turns of the carry loop: one less than the width.
pub const TURNS: usize = BITS - 1;

#[derive(Clone, Copy)]
pub struct Few {
    pub s0: Word,
    pub s1: Word,
    pub s2: Word,
    pub s3: Word,
}

// Shares that were made, and the place after the words drawn.
#[derive(Clone, Copy)]
pub struct Run {
    pub shares: Few,
    pub at: usize,
}

// Shares i and j after their pair's word, and the place after it.
#[derive(Clone, Copy)]
struct Pair {
    i: Word,
    j: Word,
    at: usize,
}

// Whether n is such a count.
pub fn is_few(n: usize) -> bool
    ensures { (result ≡ true → IsFew n) × (IsFew n → result ≡ true) }
{
    if n == 1 {
        return true;
    }
    if n == 2 {
        return true;
    }
    n == 4
}

// ---- from slices and back

fn load(x: &[Word]) -> Few
    requires { IsFew (length x.now) }
    ensures { firsts (length x.now) result ≡ x.now }
{
    let n = x.len();
    if n == 1 {
        return Few {
            s0: x[0],
            s1: 0,
            s2: 0,
            s3: 0,
        };
    }
    if n == 2 {
        return Few {
            s0: x[0],
            s1: x[1],
            s2: 0,
            s3: 0,
        };
    }
    Few {
        s0: x[0],
        s1: x[1],
        s2: x[2],
        s3: x[3],
    }
}

fn store(x: Few, z: &mut [Word])
    requires { IsFew (length z.old) }
    ensures { z.new ≡ firsts (length z.old) x }
{
    let n = z.len();
    z[0] = x.s0;
    if n == 1 {
        return;
    }
    z[1] = x.s1;
    if n == 2 {
        return;
    }
    z[2] = x.s2;
    z[3] = x.s3;
}

// ---- by shares

fn xor(x: Few, y: Few) -> Few
    ensures { (n : ℕ) → firsts n result ≡ each bit_xor (firsts n x) (firsts n y) }
{
    Few {
        s0: x.s0 ^ y.s0,
        s1: x.s1 ^ y.s1,
        s2: x.s2 ^ y.s2,
        s3: x.s3 ^ y.s3,
    }
}

fn double_xor(x: Few, y: Few) -> Few
    ensures { (n : ℕ) → firsts n result ≡ each (double_xor bits) (firsts n x) (firsts n y) }
{
    Few {
        s0: (x.s0 ^ y.s0) << 1,
        s1: (x.s1 ^ y.s1) << 1,
        s2: (x.s2 ^ y.s2) << 1,
        s3: (x.s3 ^ y.s3) << 1,
    }
}

// ---- AND, row by row

// Share j of the AND, zj, gets (s ⊕ (xi ∧ yj)) ⊕ (xj ∧ yi), in this order.
pub fn crossed(zj: Word, s: Word, xi: Word, yj: Word, xj: Word, yi: Word, words: &[Word]) -> Word
    ensures { result ≡ bit_xor zj (bit_xor (bit_xor s (bit_and xi yj)) (bit_and xj yi)) }
{
    zj ^ held(held(s ^ (xi & yj), words) ^ (xj & yi), words)
}

// One draw of the AND, for the pair i < j.
fn cross_pair(
    zi: Word,
    zj: Word,
    xi: Word,
    yi: Word,
    xj: Word,
    yj: Word,
    words: &[Word],
    at: usize,
) -> Pair
    requires { at < length words.now }
    ensures { Crosses words.now at zi zj xi yi xj yj result }
{
    let s = draw_at(words, at);
    Pair {
        i: zi ^ s.word,
        j: crossed(zj, s.word, xi, yj, xj, yi, words),
        at: s.at,
    }
}

// The diagonal of the AND of two shares, and their pair.
fn row_of_two(x: Few, y: Few, words: &[Word], at: usize) -> Run
    requires { at < length words.now }
    ensures { (first_row 2 x y words.now at ≡ ran 2 result) × (result.at ≡ at + 1) }
{
    let p = cross_pair(x.s0 & y.s0, x.s1 & y.s1, x.s0, y.s0, x.s1, y.s1, words, at);
    Run {
        shares: Few {
            s0: p.i,
            s1: p.j,
            s2: 0,
            s3: 0,
        },
        at: p.at,
    }
}

// The diagonal of the AND of four shares, and the pairs (0, 1), (0, 2), (0, 3).
fn row_of_four(x: Few, y: Few, words: &[Word], at: usize) -> Run
    requires { at + 3 ≤ length words.now }
    ensures { (first_row 4 x y words.now at ≡ ran 4 result) × (result.at ≡ at + 3) }
{
    let p = cross_pair(x.s0 & y.s0, x.s1 & y.s1, x.s0, y.s0, x.s1, y.s1, words, at);
    let q = cross_pair(p.i, x.s2 & y.s2, x.s0, y.s0, x.s2, y.s2, words, p.at);
    let r = cross_pair(q.i, x.s3 & y.s3, x.s0, y.s0, x.s3, y.s3, words, q.at);
    Run {
        shares: Few {
            s0: r.i,
            s1: p.j,
            s2: q.j,
            s3: r.j,
        },
        at: r.at,
    }
}

// The diagonal of the AND, and the pairs of share 0.
fn first_row(n: usize, x: Few, y: Few, words: &[Word], at: usize) -> Run
    requires { IsFew n × (at + (n - 1) ≤ length words.now) }
    ensures { (first_row n x y words.now at ≡ ran n result) × (result.at ≡ at + (n - 1)) }
{
    if n == 1 {
        return Run {
            shares: Few {
                s0: x.s0 & y.s0,
                s1: 0,
                s2: 0,
                s3: 0,
            },
            at: at,
        };
    }
    if n == 2 {
        return row_of_two(x, y, words, at);
    }
    row_of_four(x, y, words, at)
}

// The other pairs of the AND of four shares: (1, 2), (1, 3), (2, 3).
fn rows_of_four(x: Few, y: Few, z: Run, words: &[Word]) -> Run
    requires { z.at + 3 ≤ length words.now }
    ensures { (other_rows 4 x y z.shares words.now z.at ≡ ran 4 result) × (result.at ≡ z.at + 3) }
{
    let t = z.shares;
    let p = cross_pair(t.s1, t.s2, x.s1, y.s1, x.s2, y.s2, words, z.at);
    let q = cross_pair(p.i, t.s3, x.s1, y.s1, x.s3, y.s3, words, p.at);
    let r = cross_pair(p.j, q.j, x.s2, y.s2, x.s3, y.s3, words, q.at);
    Run {
        shares: Few {
            s0: t.s0,
            s1: q.i,
            s2: r.i,
            s3: r.j,
        },
        at: r.at,
    }
}

// The pairs without share 0: one and two shares have none.
fn other_rows(n: usize, x: Few, y: Few, z: Run, words: &[Word]) -> Run
    requires { IsFew n × (z.at + and_draws (n - 1) ≤ length words.now) }
    ensures { (other_rows n x y z.shares words.now z.at ≡ ran n result)
        × (result.at ≡ z.at + and_draws (n - 1)) }
{
    if n < 3 {
        return z;
    }
    rows_of_four(x, y, z, words)
}

// ---- the carry loop

// 2((s ⊕ (xi ∧ yj)) ⊕ (xj ∧ yi)), in this order. Doubling and the inner `held` are one instruction together.
fn crossed_double(s: Word, xi: Word, yj: Word, xj: Word, yi: Word, words: &[Word]) -> Word
    ensures { result ≡ double bits (bit_xor (bit_xor s (bit_and xi yj)) (bit_and xj yi)) }
{
    held(held((s ^ (xi & yj)) << 1, words) ^ ((xj & yi) << 1), words)
}

// One round of two shares. Each waits for the one before, so it is the longest chain of steps that counts: six here,
// with the doubling done inside, where the rows and a doubling after them have eight.
fn carry_two(a: Few, w: Few, u: Run, words: &[Word]) -> Run
    requires { u.at < length words.now }
    ensures { (carries bits (firsts 2 a) (firsts 2 w) 1 (firsts 2 u.shares) words.now u.at
        ≡ ran 2 result) × (result.at ≡ u.at + 1) }
{
    let x = u.shares;
    let s = draw_at(words, u.at);
    let t = crossed_double(s.word, x.s0, a.s1, x.s1, a.s0, words);
    Run {
        shares: Few {
            s0: ((x.s0 & a.s0) ^ s.word ^ w.s0) << 1,
            s1: (((x.s1 & a.s1) ^ w.s1) << 1) ^ t,
            s2: 0,
            s3: 0,
        },
        at: s.at,
    }
}

// One round of the carry loop: u = 2(AND(u, a) ⊕ w). The AND's two parts stand here, and not in a function of their
// own, which the compiler would call in every round.
fn carry_round(n: usize, a: Few, w: Few, u: Run, words: &[Word]) -> Run
    requires { IsFew n × (u.at + and_draws n ≤ length words.now) }
    ensures { (carries bits (firsts n a) (firsts n w) 1 (firsts n u.shares) words.now u.at
        ≡ ran n result) × (result.at ≡ u.at + and_draws n) }
{
    if n == 2 {
        return carry_two(a, w, u, words);
    }
    let z = first_row(n, u.shares, a, words, u.at);
    let t = other_rows(n, u.shares, a, z, words);
    Run {
        shares: double_xor(t.shares, w),
        at: t.at,
    }
}

// The carry loop, k − 1 rounds from zeros.
fn carry(n: usize, a: Few, w: Run, words: &[Word]) -> Run
    requires { IsFew n × (w.at + (bits - 1) * and_draws n ≤ length words.now) }
    ensures { (carries bits (firsts n a) (firsts n w.shares) (bits - 1) (replicate n 0) words.now
        w.at ≡ ran n result) × (result.at ≡ w.at + (bits - 1) * and_draws n) }
{
    let t = w.shares;
    let mut u = Run {
        shares: Few {
            s0: 0,
            s1: 0,
            s2: 0,
            s3: 0,
        },
        at: w.at,
    };
    for _ in 0..TURNS {
        u = carry_round(n, a, t, u, words);
    }
    u
}

// ---- addition

fn sum(n: usize, x: Few, y: Few, words: &[Word], at: usize) -> Run
    requires { IsFew n × (at + add_draws bits n ≤ length words.now) }
    ensures { (add bits (firsts n x) (firsts n y) words.now at ≡ ran n result)
        × (result.at ≡ at + add_draws bits n) }
{
    let z = first_row(n, x, y, words, at);
    let w = other_rows(n, x, y, z, words);
    let a = xor(x, y);
    let u = carry(n, a, w, words);
    Run {
        shares: xor(a, u.shares),
        at: u.at,
    }
}

// x becomes x + y, from the word at `at` on; the place after.
pub fn add_in(x: &mut [Word], y: &[Word], words: &[Word], at: usize) -> usize
    requires { IsFew (length x.old) × (length y.now ≡ length x.old)
        × (at + add_draws bits (length x.old) ≤ length words.now) }
    ensures { (add bits x.old y.now words.now at ≡ (x.new, result))
        × (result ≡ at + add_draws bits (length x.old)) }
{
    let n = x.len();
    let z = sum(n, load(x), load(y), words, at);
    store(z.shares, x);
    z.at
}
