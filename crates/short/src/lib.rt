// The short conversion: Boolean to arithmetic without a carry loop.
// Each function is proved to be its rule, word for word of the supply.
#![tactic(auto)]

ghost use Rattle.std.specs.Prelude.{◌≡◌, [], ◌∷◌, ◌++◌, map, ◌+◌, ◌-◌, ◌*◌, ◌≤◌, ◌<◌, length, take, drop};
ghost use Rattle.words.specs.Word.{plus};
ghost use Rattle.rules.specs.Goubin.{psi};
ghost use Rattle.rules.specs.Shares.{each, refresh_last};
ghost use Rattle.rules.specs.Short.{psis, summed, short_of, to_arith_short};
ghost use Rattle.rules.specs.Counts.{short_draws};
ghost use Rattle.width.specs.Width.{bits};
ghost use Rattle.short.specs.Steps.{Many, ready, lists, two_lists};

use shares::{copy, refresh_last};
use veil::{held, places};
use width::{Word, minus, plus};

// Room for a step: at most eight shares, and a zero share.
const ROOM: usize = 9;

// ---- the entries of b

// Ψ at r: (x ⊕ r) − r.
fn psi(x: Word, r: Word) -> Word
    ensures { result ≡ psi bits x r }
{
    minus(x ^ r, r)
}

// b becomes the Ψ of x at each r.
fn psi_each(x: Word, r: &[Word], b: &mut [Word])
    requires { length b.old ≡ length r.now }
    ensures { b.new ≡ map (psi bits x) r.now }
{
    for i in places(r.len()) {
        b[i] = psi(x, r[i]);
    }
}

// b of the shares a. Share 1 is held, so that its mask and that of a later share are never taken together first.
fn psi_shares(a: &[Word], b: &mut [Word], words: &[Word])
    requires { (length a.now ≡ length b.old + 1) × (0 < length b.old) }
    ensures { b.new ≡ psis bits a.now }
{
    let n = b.len();
    let share = held(a[0], words);
    let later = &a[1..n + 1];
    psi_each(share, later, b);
    if n % 2 == 0 {
        b[0] = b[0] ^ share;
    }
}

// ---- both lists of a step

// a becomes x and a zero share, refreshed.
fn spread(x: &[Word], a: &mut [Word], words: &[Word], at: usize) -> usize
    requires { (length a.old ≡ length x.now + 1) × (at + length x.now ≤ length words.now) }
    ensures { (refresh_last (x.now ++ (0 ∷ [])) words.now at ≡ (a.new, result))
        × (result ≡ at + length x.now) }
{
    let n = x.len();
    let front = &mut a[0..n];
    copy(x, front);
    a[n] = 0;
    refresh_last(a, words, at)
}

// A list refreshed, and its last entry XORed into the one before; what stands in the last place is not looked at again.
fn refresh_joined(l: &mut [Word], words: &[Word], at: usize) -> usize
    requires { (1 < length l.old) × (at + (length l.old - 1) ≤ length words.now) }
    ensures { let m = length l.old - 1 in
        (ready l.old words.now at ≡ (take m l.new, result)) × (result ≡ at + m) }
{
    let last = l.len() - 1;
    let p = refresh_last(l, words, at);
    l[last - 1] = l[last - 1] ^ l[last];
    p
}

// From the shares a: the later ones, in their place, and b.
fn both_lists(a: &mut [Word], b: &mut [Word], words: &[Word], at: usize) -> usize
    requires { (length a.old ≡ length b.old + 1) × (1 < length b.old)
        × (at + 2 * (length b.old - 1) ≤ length words.now) }
    ensures { let m = length b.old - 1 in
        (lists bits a.old words.now at
        ≡ ((take m (drop 1 a.new), take m b.new), result))
        × (result ≡ at + 2 * m) }
{
    psi_shares(a, b, words);
    let n = b.len();
    let later = &mut a[1..n + 1];
    let p = refresh_joined(later, words, at);
    refresh_joined(b, words, p)
}

// Both lists of the shares z: the later shares from place 1 of a on, and b in the place of z.
fn two_lists(z: &mut [Word], a: &mut [Word], words: &[Word], at: usize) -> usize
    requires { (length a.old ≡ length z.old + 1) × (1 < length z.old)
        × (at + (3 * length z.old - 2) ≤ length words.now) }
    ensures { let m = length z.old - 1 in
        (two_lists bits z.old words.now at
        ≡ ((take m (drop 1 a.new), take m z.new), result))
        × (result ≡ at + (3 * length z.old - 2)) }
{
    let p = spread(z, a, words, at);
    both_lists(a, z, words, p)
}

// ---- the sum of both, converted

// y becomes x + y, by places.
fn add_each(x: &[Word], y: &mut [Word])
    requires { length y.old ≡ length x.now }
    ensures { y.new ≡ each (plus bits) x.now y.old }
{
    for i in places(x.len()) {
        y[i] = plus(x[i], y[i]);
    }
}

// z, which has the second list and one place more, becomes the sum: all places but the last, and the last of each.
fn sum_lists(first: &[Word], z: &mut [Word])
    requires { (0 < length first.now) × (length z.old ≡ length first.now + 1) }
    ensures { z.new
        ≡ summed bits first.now (take (length first.now) z.old) }
{
    let last = first.len() - 1;
    let places = &first[0..last];
    let sums = &mut z[0..last];
    add_each(places, sums);
    z[last + 1] = z[last];
    z[last] = first[last];
}

// n shares, in place: one stays. This function and the next call each other.
#[cycle(convert_convert_lists)]
fn convert(n: usize, z: &mut [Word], words: &[Word], at: usize) -> usize
    requires { (n ≤ 8) × (length z.old ≡ n) × (at + short_draws n ≤ length words.now) }
    ensures { (short_of bits n z.old words.now at ≡ (z.new, result))
        × (result ≡ at + short_draws n) }
{
    if n <= 1 {
        return at;
    }
    convert_lists(n, z, words, at)
}

// More go by two lists of n − 1.
#[cycle(convert_convert_lists)]
fn convert_lists(n: usize, z: &mut [Word], words: &[Word], at: usize) -> usize
    requires { Many n × (length z.old ≡ n) × (at + short_draws n ≤ length words.now) }
    ensures { (short_of bits n z.old words.now at ≡ (z.new, result))
        × (result ≡ at + short_draws n) }
{
    let mut room: [Word; ROOM] = [0; ROOM];
    let a = &mut room[0..n + 1];
    let p = two_lists(z, a, words, at);
    let first = &mut a[1..n];
    let second = &mut z[0..n - 1];
    let q = convert(n - 1, first, words, p);
    let r = convert(n - 1, second, words, q);
    sum_lists(first, z);
    r
}

// Boolean to arithmetic, from the word at `at` on; the place after.
pub fn to_arith_short(x: &[Word], a: &mut [Word], words: &[Word], at: usize) -> usize
    requires { (length x.now ≤ 8) × (length a.old ≡ length x.now)
        × (at + short_draws (length x.now) ≤ length words.now) }
    ensures { to_arith_short bits x.now words.now at ≡ (a.new, result) }
{
    copy(x, a);
    convert(x.len(), a, words, at)
}
