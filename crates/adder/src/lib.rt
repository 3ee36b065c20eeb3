// AND and addition of shares, by loops over slices: the reference, for any count. The form of an addition is chosen
// here: few shares by words of their own (crate `few`), eight by the same loops with a constant count, which the
// compiler unrolls, any other by the reference. Each function is proved to be its rule, word for word of the supply.
#![tactic(auto)]

ghost use Rattle.std.specs.Prelude.{◌≡◌, ◌+◌, ◌-◌, ◌*◌, ◌≤◌, ◌<◌, length};
ghost use Rattle.std.specs.Int.Bits.{bit_and};
ghost use Rattle.rules.specs.Numbers.{largest};
ghost use Rattle.rules.specs.Shares.{each, pass, along, cross, and, double_xor, carries, add};
ghost use Rattle.rules.specs.Counts.{and_draws, add_draws};
ghost use Rattle.width.specs.Width.{bits};

use few::{TURNS, crossed, is_few};
use rules::LARGEST;
use shares::{copy, xor_each};
use supply::draw_at;
use width::Word;

// The share count that has a form with a constant count.
const EIGHT: usize = 8;

// By shares: zi = xi AND yi, the diagonal of the masked AND.
fn and_each(n: usize, x: &[Word], y: &[Word], z: &mut [Word])
    requires { (length x.now ≡ n) × (length y.now ≡ n) × (length z.old ≡ n) }
    ensures { z.new ≡ each bit_and x.now y.now }
{
    for i in 0..n {
        z[i] = x[i] & y[i];
    }
}

// By shares: zi = 2(xi XOR yi).
fn double_xor_each(n: usize, x: &[Word], y: &[Word], z: &mut [Word])
    requires { (length x.now ≡ n) × (length y.now ≡ n) × (length z.old ≡ n) }
    ensures { z.new ≡ each (double_xor bits) x.now y.now }
{
    for i in 0..n {
        z[i] = (x[i] ^ y[i]) << 1;
    }
}

// One draw of the AND: the word s comes in for the pair i < j.
fn cross_at(i: usize, j: usize, s: Word, x: &[Word], y: &[Word], z: &mut [Word], words: &[Word])
    requires { (i < length x.now) × (j < length x.now)
        × (length y.now ≡ length x.now) × (length z.old ≡ length x.now) }
    ensures { z.new ≡ cross x.now y.now i j s z.old }
{
    z[i] = z[i] ^ s;
    z[j] = crossed(z[j], s, x[i], y[j], x[j], y[i], words);
}

// The pairs (i, i+1), (i, i+2), .. of the AND of n shares.
fn and_row(
    n: usize,
    i: usize,
    x: &[Word],
    y: &[Word],
    z: &mut [Word],
    words: &[Word],
    at: usize,
) -> usize
    requires { (i < n) × (length x.now ≡ n) × (length y.now ≡ n) × (length z.old ≡ n)
        × (at + (n - (i + 1)) ≤ length words.now) }
    ensures { (pass (cross x.now y.now) (along (n - (i + 1)) i (i + 1)) z.old
        words.now at ≡ (z.new, result)) × (result ≡ at + (n - (i + 1))) }
{
    let mut p = at;
    for j in i + 1..n {
        let s = draw_at(words, p);
        cross_at(i, j, s.word, x, y, z, words);
        p = s.at;
    }
    p
}

// AND of n shares. The count is handed down all the way, so that one constant at the top is seen by every loop.
fn and_of(n: usize, x: &[Word], y: &[Word], z: &mut [Word], words: &[Word], at: usize) -> usize
    requires { (length x.now ≡ n) × (length y.now ≡ n) × (length z.old ≡ n)
        × (at + and_draws n ≤ length words.now) }
    ensures { (and x.now y.now words.now at ≡ (z.new, result))
        × (result ≡ at + and_draws n) }
{
    and_each(n, x, y, z);
    let mut p = at;
    for i in 0..n {
        p = and_row(n, i, x, y, z, words, p);
    }
    p
}

// AND, from the word at `at` on; the place after.
pub fn and_at(x: &[Word], y: &[Word], z: &mut [Word], words: &[Word], at: usize) -> usize
    requires { (length y.now ≡ length x.now) × (length z.old ≡ length x.now)
        × (at + and_draws (length x.now) ≤ length words.now) }
    ensures { (and x.now y.now words.now at ≡ (z.new, result))
        × (result ≡ at + and_draws (length x.now)) }
{
    and_of(x.len(), x, y, z, words, at)
}

// One round of the carry loop, of n shares: u = 2(AND(u, a) ⊕ w).
fn carry_round(n: usize, a: &[Word], w: &[Word], u: &mut [Word], words: &[Word], at: usize) -> usize
    requires { (length a.now ≡ n) × (length w.now ≡ n) × (length u.old ≡ n) × (n ≤ largest)
        × (at + and_draws n ≤ length words.now) }
    ensures { (carries bits a.now w.now 1 u.old words.now at
        ≡ (u.new, result)) × (result ≡ at + and_draws n) }
{
    let mut t0: [Word; LARGEST] = [0; LARGEST];
    let t = &mut t0[0..n];
    let p = and_of(n, u, a, t, words, at);
    double_xor_each(n, t, w, u);
    p
}

// The carry loop, k − 1 rounds.
fn carry_at(n: usize, a: &[Word], w: &[Word], u: &mut [Word], words: &[Word], at: usize) -> usize
    requires { (length a.now ≡ n) × (length w.now ≡ n) × (length u.old ≡ n) × (n ≤ largest)
        × (at + (bits - 1) * and_draws n ≤ length words.now) }
    ensures { (carries bits a.now w.now (bits - 1) u.old words.now at
        ≡ (u.new, result)) × (result ≡ at + (bits - 1) * and_draws n) }
{
    let mut p = at;
    for _ in 0..TURNS {
        p = carry_round(n, a, w, u, words, p);
    }
    p
}

// x becomes x + y, n shares.
fn add_of(n: usize, x: &mut [Word], y: &[Word], words: &[Word], at: usize) -> usize
    requires { (length x.old ≡ n) × (length y.now ≡ n) × (n ≤ largest)
        × (at + add_draws bits n ≤ length words.now) }
    ensures { (add bits x.old y.now words.now at ≡ (x.new, result))
        × (result ≡ at + add_draws bits n) }
{
    let mut w0: [Word; LARGEST] = [0; LARGEST];
    let mut a0: [Word; LARGEST] = [0; LARGEST];
    let mut u0: [Word; LARGEST] = [0; LARGEST];
    let w = &mut w0[0..n];
    let a = &mut a0[0..n];
    let u = &mut u0[0..n];
    let p = and_of(n, x, y, w, words, at);
    xor_each(x, y, a);
    let q = carry_at(n, a, w, u, words, p);
    xor_each(a, u, x);
    q
}

// The same of eight.
fn add_eight(x: &mut [Word], y: &[Word], words: &[Word], at: usize) -> usize
    requires { (length x.old ≡ 8) × (length y.now ≡ 8) × (at + add_draws bits 8 ≤ length words.now) }
    ensures { (add bits x.old y.now words.now at ≡ (x.new, result))
        × (result ≡ at + add_draws bits 8) }
{
    let mut w: [Word; EIGHT] = [0; EIGHT];
    let mut a: [Word; EIGHT] = [0; EIGHT];
    let mut u: [Word; EIGHT] = [0; EIGHT];
    let p = and_of(EIGHT, x, y, &mut w, words, at);
    xor_each(x, y, &mut a);
    let q = carry_at(EIGHT, &a, &w, &mut u, words, p);
    xor_each(&a, &u, x);
    q
}

// x becomes x + y, from the word at `at` on; the place after. Every sum of shares in the library is this one.
pub fn add_in(x: &mut [Word], y: &[Word], words: &[Word], at: usize) -> usize
    requires { (length y.now ≡ length x.old) × (length x.old ≤ largest)
        × (at + add_draws bits (length x.old) ≤ length words.now) }
    ensures { (add bits x.old y.now words.now at ≡ (x.new, result))
        × (result ≡ at + add_draws bits (length x.old)) }
{
    let n = x.len();
    if is_few(n) {
        return few::add_in(x, y, words, at);
    }
    if n == EIGHT {
        return add_eight(x, y, words, at);
    }
    add_of(n, x, y, words, at)
}

// The same, into z.
pub fn add_at(x: &[Word], y: &[Word], z: &mut [Word], words: &[Word], at: usize) -> usize
    requires { (length y.now ≡ length x.now) × (length z.old ≡ length x.now) × (length x.now ≤ largest)
        × (at + add_draws bits (length x.now) ≤ length words.now) }
    ensures { (add bits x.now y.now words.now at ≡ (z.new, result))
        × (result ≡ at + add_draws bits (length x.now)) }
{
    copy(x, z);
    add_in(z, y, words, at)
}
