// The calls on shares, each with its whole outcome: it asks how many words it draws, makes its tests, and then calls
// the layer below. `flamivorse` exports them.
#![tactic(auto)]

ghost use Rattle.std.specs.Prelude.{◌≡◌};
ghost use Rattle.rules.specs.Refusals.{answer_of, opened_of};
ghost use Rattle.rules.specs.Calls.{split_call, open_xor_call, open_sum_call};
ghost use Rattle.rules.specs.Calls.{refresh_call, expand_call, and_call, add_call, a2b_call, b2a_call, b2a_short_call};

use counts::{
    a2b_words, add_words, and_words, b2a_words, expand_words, refresh_words, short_words,
    split_words,
};
use numbers::{one_input, opening, short_input, splitting, two_inputs, widening};
use rules::Refusal;

// A value into n shares: the next n − 1 words, and the value XOR all of them.
pub fn split(n: usize, value: u32, shares: &mut [u32], words: &[u32]) -> Result<usize, Refusal>
    ensures { split_call n value shares.old words.now ≡ (answer_of result, shares.new) }
{
    let need = split_words(n)?;
    splitting(n, shares.len(), need, words.len())?;
    Ok(shares::split_at(value, shares, words, 0))
}

// The XOR of n shares.
pub fn open_xor(n: usize, shares: &[u32]) -> Result<u32, Refusal>
    ensures { open_xor_call n shares.now ≡ opened_of result }
{
    opening(n, shares.len())?;
    Ok(shares::open_xor(shares))
}

// The sum of n shares modulo 2^32.
pub fn open_sum(n: usize, shares: &[u32]) -> Result<u32, Refusal>
    ensures { open_sum_call 32 n shares.now ≡ opened_of result }
{
    opening(n, shares.len())?;
    Ok(shares::open_sum(shares))
}

// Fresh shares y of what x opens to.
pub fn refresh(n: usize, x: &[u32], y: &mut [u32], words: &[u32]) -> Result<usize, Refusal>
    ensures { refresh_call n x.now y.old words.now ≡ (answer_of result, y.new) }
{
    let need = refresh_words(n)?;
    one_input(n, x.len(), y.len(), need, words.len())?;
    shares::copy(x, y);
    Ok(shares::refresh_at(n, y, words, 0))
}

// 2n shares y of what the n shares x open to.
pub fn expand(n: usize, x: &[u32], y: &mut [u32], words: &[u32]) -> Result<usize, Refusal>
    ensures { expand_call n x.now y.old words.now ≡ (answer_of result, y.new) }
{
    let need = expand_words(n)?;
    widening(n, x.len(), y.len(), need, words.len())?;
    Ok(shares::expand_at(x, y, words, 0))
}

// Shares z of x AND y.
pub fn and(n: usize, x: &[u32], y: &[u32], z: &mut [u32], words: &[u32]) -> Result<usize, Refusal>
    ensures { and_call n x.now y.now z.old words.now ≡ (answer_of result, z.new) }
{
    let need = and_words(n)?;
    two_inputs(n, x.len(), y.len(), z.len(), need, words.len())?;
    Ok(adder::and_at(x, y, z, words, 0))
}

// Shares z of x + y modulo 2^32.
pub fn add(n: usize, x: &[u32], y: &[u32], z: &mut [u32], words: &[u32]) -> Result<usize, Refusal>
    ensures { add_call 32 n x.now y.now z.old words.now ≡ (answer_of result, z.new) }
{
    let need = add_words(n)?;
    two_inputs(n, x.len(), y.len(), z.len(), need, words.len())?;
    Ok(adder::add_at(x, y, z, words, 0))
}

// Boolean shares x of what the arithmetic shares a add up to.
pub fn a2b(n: usize, a: &[u32], x: &mut [u32], words: &[u32]) -> Result<usize, Refusal>
    ensures { a2b_call 32 n a.now x.old words.now ≡ (answer_of result, x.new) }
{
    let need = a2b_words(n)?;
    one_input(n, a.len(), x.len(), need, words.len())?;
    Ok(convert::to_bool(a, x, words, 0))
}

// Arithmetic shares a of what the Boolean shares x open to.
pub fn b2a(n: usize, x: &[u32], a: &mut [u32], words: &[u32]) -> Result<usize, Refusal>
    ensures { b2a_call 32 n x.now a.old words.now ≡ (answer_of result, a.new) }
{
    let need = b2a_words(n)?;
    one_input(n, x.len(), a.len(), need, words.len())?;
    Ok(convert::to_arith(x, a, words, 0))
}

// The same by the short conversion, which draws fewer words.
pub fn b2a_short(n: usize, x: &[u32], a: &mut [u32], words: &[u32]) -> Result<usize, Refusal>
    ensures { b2a_short_call 32 n x.now a.old words.now ≡ (answer_of result, a.new) }
{
    let need = short_words(n)?;
    short_input(n, x.len(), a.len(), need, words.len())?;
    Ok(short::to_arith_short(x, a, words, 0))
}
