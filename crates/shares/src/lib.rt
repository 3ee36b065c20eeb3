// Shares of a word: copying, opening, splitting, refresh and expand. n is the length of the slices.
// Each function is proved to be its rule, word for word of the supply.
#![tactic(auto)]

ghost use Rattle.std.specs.Prelude.{◌≡◌, ◌+◌, ◌-◌, ◌*◌, ◌≤◌, ◌<◌, length};
ghost use Rattle.std.specs.Int.Bits.{bit_xor};
ghost use Rattle.std.proofs.lemmas.List.Edits.{sets};
ghost use Rattle.rules.specs.Supply.{opened, opened_sum, next, split};
ghost use Rattle.rules.specs.Numbers.{largest};
ghost use Rattle.rules.specs.Shares.{each, pass, along, mix, refresh_last, refresh, expand};
ghost use Rattle.rules.specs.Counts.{refresh_draws};
ghost use Rattle.width.specs.Width.{bits};

use supply::draw_at;
use veil::places;
use width::{Word, plus};

// y becomes x.
pub fn copy(x: &[Word], y: &mut [Word])
    requires { length y.old ≡ length x.now }
    ensures { y.new ≡ x.now }
{
    for i in places(x.len()) {
        y[i] = x[i];
    }
}

// x is stored into z from place `at` on.
pub fn put(x: &[Word], z: &mut [Word], at: usize)
    requires { at + length x.now ≤ length z.old }
    ensures { z.new ≡ sets z.old at x.now }
{
    for i in places(x.len()) {
        z[at + i] = x[i];
    }
}

// By shares: zi = xi XOR yi.
pub fn xor_each(x: &[Word], y: &[Word], z: &mut [Word])
    requires { (length y.now ≡ length x.now) × (length z.old ≡ length x.now) }
    ensures { z.new ≡ each bit_xor x.now y.now }
{
    for i in 0..x.len() {
        z[i] = x[i] ^ y[i];
    }
}

// The XOR of all shares.
pub fn open_xor(x: &[Word]) -> Word
    ensures { result ≡ opened x.now }
{
    x.iter().rev().fold(0, |r, share| share ^ r)
}

// The sum of all shares modulo 2^bits.
pub fn open_sum(a: &[Word]) -> Word
    ensures { result ≡ opened_sum bits a.now }
{
    a.iter().rev().fold(0, |r, share| plus(*share, r))
}

// One draw of the refresh: the word goes into shares i and j.
fn mix_at(i: usize, j: usize, word: Word, z: &mut [Word])
    requires { (i < length z.old) × (j < length z.old) }
    ensures { z.new ≡ mix i j word z.old }
{
    z[i] = z[i] ^ word;
    z[j] = z[j] ^ word;
}

// Refresh by pairs with the last share, in place, from the word at `at` on; the place after.
pub fn refresh_last(y: &mut [Word], words: &[Word], at: usize) -> usize
    requires { (0 < length y.old) × (at + (length y.old - 1) ≤ length words.now) }
    ensures { (refresh_last y.old words.now at ≡ (y.new, result))
        × (result ≡ at + (length y.old - 1)) }
{
    let last = y.len() - 1;
    let mut p = at;
    for i in 0..last {
        let s = draw_at(words, p);
        mix_at(i, last, s.word, y);
        p = s.at;
    }
    p
}

// The pairs (i, i+1), (i, i+2), .. of the refresh of n shares.
fn refresh_row(n: usize, i: usize, y: &mut [Word], words: &[Word], at: usize) -> usize
    requires { (i < n) × (length y.old ≡ n) × (at + (n - (i + 1)) ≤ length words.now) }
    ensures { (pass mix (along (n - (i + 1)) i (i + 1)) y.old words.now at
        ≡ (y.new, result)) × (result ≡ at + (n - (i + 1))) }
{
    let mut p = at;
    for j in i + 1..n {
        let s = draw_at(words, p);
        mix_at(i, j, s.word, y);
        p = s.at;
    }
    p
}

// Refresh of n shares by all pairs, in place, from the word at `at` on; the place after.
pub fn refresh_at(n: usize, y: &mut [Word], words: &[Word], at: usize) -> usize
    requires { (length y.old ≡ n) × (at + refresh_draws n ≤ length words.now) }
    ensures { (refresh y.old words.now at ≡ (y.new, result))
        × (result ≡ at + refresh_draws n) }
{
    let mut p = at;
    for i in 0..n {
        p = refresh_row(n, i, y, words, p);
    }
    p
}

// Expand, n to 2n, from the word at `at` on; the place after.
pub fn expand_at(x: &[Word], y: &mut [Word], words: &[Word], at: usize) -> usize
    requires { (length x.now ≤ largest) × (length y.old ≡ length x.now * 2)
        × (at + length x.now ≤ length words.now) }
    ensures { (expand x.now words.now at ≡ (y.new, result))
        × (result ≡ at + length x.now) }
{
    let mut p = at;
    for i in 0..x.len() {
        let s = draw_at(words, p);
        y[i * 2] = x[i] ^ s.word;
        y[i * 2 + 1] = s.word;
        p = s.at;
    }
    p
}

// z becomes the next words, from the one at `at` on; the place after.
pub fn draw_each(z: &mut [Word], words: &[Word], at: usize) -> usize
    requires { at + length z.old ≤ length words.now }
    ensures { (next (length z.old) words.now at ≡ (z.new, result))
        × (result ≡ at + length z.old) }
{
    let mut p = at;
    for i in 0..z.len() {
        let s = draw_at(words, p);
        z[i] = s.word;
        p = s.at;
    }
    p
}

// The shares of a value, from the word at `at` on; the place after.
pub fn split_at(value: Word, shares: &mut [Word], words: &[Word], at: usize) -> usize
    requires { (0 < length shares.old) × (at + (length shares.old - 1) ≤ length words.now) }
    ensures { (split (length shares.old) value words.now at ≡ (shares.new, result))
        × (result ≡ at + (length shares.old - 1)) }
{
    let last = shares.len() - 1;
    let masks = &mut shares[0..last];
    let p = draw_each(masks, words, at);
    let mask = open_xor(masks);
    shares[last] = value ^ mask;
    p
}
