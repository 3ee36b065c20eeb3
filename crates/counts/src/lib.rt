// The queries: how many words a call draws, or why it is refused. And what a state counts.
// No query has a precondition.
#![tactic(auto, unfolding(rules::specs::Numbers::allowed, rules::specs::Numbers::first, rules::specs::Numbers::test,))]

ghost use Rattle.std.specs.Prelude.{◌≡◌, true, [], ◌∷◌, ◌+◌, ◌-◌, ◌*◌, ◌≤◌, ◌<◌, ◌^◌, leb, OnOk};
ghost use Rattle.width.specs.Width.{bits};
ghost use Rattle.rules.specs.Numbers.{largest, longest_key, longest_message, power, allowed, test};
ghost use Rattle.rules.specs.Refusals.{number, answer_of, code_of};
ghost use Rattle.rules.specs.Standard.{SHA1 as sha1_standard};
ghost use Rattle.rules.specs.Counts.{refresh_draws, and_draws, add_draws, to_bool_draws, to_arith_draws, short_draws};
ghost use Rattle.rules.specs.Counts.{compressions, key_draws, hmac_draws, start_draws, state_draws, hash_of};
ghost use Rattle.rules.specs.Calls.{query};
ghost use Rattle.rules.specs.Stream.{is_fit, feed_words, finish_words};
ghost use Rattle.counts.specs.Queries.{ands_of};

use numbers::{is_allowed, is_power, require};
use rules::{
    Algorithm, BLOCK_BYTES, BLOCK_WORDS, LENGTH_BYTES, LONGEST_MESSAGE, Refusal, State, WORD_BYTES,
};
use text_numbers::{fitness, growth, key_fitness};
use width::BITS;

// W(n), from n = 0 on: what arithmetic to Boolean draws.
const TO_BOOL: [usize; 17] = [
    0, 0, 34, 134, 264, 496, 758, 1082, 1432, 1928, 2450, 3034, 3650, 4360, 5102, 5902, 6720,
];

// How many ANDs a compression of SHA-1 makes, and one of SHA-256.
const SHA1_ANDS: usize = 10440;

const SHA256_ANDS: usize = 19328;

// The test of a share count: where it is passed, it is 1 to 16.
fn counted(n: usize) -> Result<(), Refusal>
    ensures number { test 1 (allowed n) ≡ number result }
    ensures bounds { OnOk result ((0 < n) × (n ≤ largest)) }
{
    require(is_allowed(n), Refusal::WrongCount)
}

// How many pairs n shares have: n(n − 1)/2.
fn pairs(n: usize) -> usize
    requires { (0 < n) × (n ≤ largest) }
    ensures { (result ≡ and_draws n) × (result ≤ 120) }
{
    n * (n - 1) / 2
}

fn to_bool(n: usize) -> usize
    requires { n ≤ largest }
    ensures { (result ≡ to_bool_draws (add_draws bits) n) × (result ≤ 6720) }
{
    TO_BOOL[n]
}

// Splitting: n − 1.
pub fn split_words(n: usize) -> Result<usize, Refusal>
    ensures { query (test 1 (allowed n) ∷ []) (n - 1) ≡ answer_of result }
{
    counted(n)?;
    Ok(n - 1)
}

// Expand: n.
pub fn expand_words(n: usize) -> Result<usize, Refusal>
    ensures { query (test 1 (allowed n) ∷ []) n ≡ answer_of result }
{
    counted(n)?;
    Ok(n)
}

// AND: n(n − 1)/2.
pub fn and_words(n: usize) -> Result<usize, Refusal>
    ensures { query (test 1 (allowed n) ∷ []) (and_draws n) ≡ answer_of result }
{
    counted(n)?;
    Ok(pairs(n))
}

// Refresh: the AND's pairs.
pub fn refresh_words(n: usize) -> Result<usize, Refusal>
    ensures { query (test 1 (allowed n) ∷ []) (refresh_draws n) ≡ answer_of result }
{
    and_words(n)
}

// Addition: an AND for each bit.
pub fn add_words(n: usize) -> Result<usize, Refusal>
    ensures { query (test 1 (allowed n) ∷ []) (add_draws bits n) ≡ answer_of result }
{
    counted(n)?;
    Ok(BITS * pairs(n))
}

// Arithmetic to Boolean: W(n).
pub fn a2b_words(n: usize) -> Result<usize, Refusal>
    ensures { query (test 1 (allowed n) ∷ []) (to_bool_draws (add_draws bits) n) ≡ answer_of result }
{
    counted(n)?;
    Ok(to_bool(n))
}

// Boolean to arithmetic: n − 1 + W(n) + 16n(n − 1) + n(n − 1)/2.
pub fn b2a_words(n: usize) -> Result<usize, Refusal>
    ensures { query (test 1 (allowed n) ∷ []) (to_arith_draws (add_draws bits) refresh_draws n) ≡ answer_of result }
{
    counted(n)?;
    let each = pairs(n);
    Ok(n - 1 + to_bool(n) + BITS * each + each)
}

// The short conversion: V(n).
pub fn short_words(n: usize) -> Result<usize, Refusal>
    ensures { query (test 1 (power n) ∷ []) (short_draws n) ≡ answer_of result }
{
    match n {
        1 => Ok(0),
        2 => Ok(4),
        4 => Ok(40),
        8 => Ok(868),
        _ => Err(Refusal::WrongCount),
    }
}

// The ANDs of a compression.
fn compress_ands(algorithm: Algorithm) -> usize
    ensures { (result ≡ ands_of (code_of algorithm)) × (result ≤ 19328) }
{
    match algorithm {
        Algorithm::Sha1 => SHA1_ANDS,
        Algorithm::Sha256 => SHA256_ANDS,
    }
}

// What one compression draws, 5,220n(n − 1) or 9,664n(n − 1) words: so many of them.
fn compressions_words(algorithm: Algorithm, count: usize, n: usize) -> usize
    requires { (count ≤ 1028) × (allowed n ≡ true) }
    ensures { (result ≡ count * (hash_of 32 (code_of algorithm)).draws n) × (result < 2 ^ 32) }
{
    count * (compress_ands(algorithm) * pairs(n))
}

// One compression.
pub fn compress_words(algorithm: Algorithm, n: usize) -> Result<usize, Refusal>
    ensures { query (test 1 (allowed n) ∷ []) ((hash_of 32 (code_of algorithm)).draws n) ≡ answer_of result }
{
    counted(n)?;
    Ok(compressions_words(algorithm, 1, n))
}

// HMAC of a message of so many bytes: its blocks with their padding, both key blocks, and the digest block.
pub fn hmac_words(algorithm: Algorithm, n: usize, message: usize) -> Result<usize, Refusal>
    ensures { query (test 1 (allowed n) ∷ test 4 (leb message longest_message) ∷ [])
        (hmac_draws (hash_of 32 (code_of algorithm)) n message) ≡ answer_of result }
{
    counted(n)?;
    require(message <= LONGEST_MESSAGE, Refusal::TooLong)?;
    let count = (message + LENGTH_BYTES) / BLOCK_BYTES + 4;
    Ok(compressions_words(algorithm, count, n))
}

// ---- keys and streaming

// Both key blocks.
pub fn start_words(algorithm: Algorithm, n: usize) -> Result<usize, Refusal>
    ensures { query (test 1 (allowed n) ∷ []) (start_draws (hash_of 32 (code_of algorithm)) n) ≡ answer_of result }
{
    counted(n)?;
    Ok(compressions_words(algorithm, 2, n))
}

// The words of a key of so many bytes, n − 1 for each; where it is over one block, then the compressions that hash it.
fn key_draws(algorithm: Algorithm, n: usize, key: usize) -> usize
    requires { (allowed n ≡ true) × (key ≤ longest_key) }
    ensures { result ≡ key_draws (hash_of 32 (code_of algorithm)) n key }
{
    if key <= BLOCK_BYTES {
        return BLOCK_WORDS * (n - 1);
    }
    let words = key.div_ceil(WORD_BYTES);
    let blocks = (key + LENGTH_BYTES) / BLOCK_BYTES + 1;
    words * (n - 1) + compressions_words(algorithm, blocks, n)
}

// Splitting a key of so many bytes.
pub fn key_words(algorithm: Algorithm, n: usize, key: usize) -> Result<usize, Refusal>
    ensures { query (test 1 (allowed n) ∷ test 4 (leb key longest_key) ∷ [])
        (key_draws (hash_of 32 (code_of algorithm)) n key) ≡ answer_of result }
{
    key_fitness(n, key)?;
    Ok(key_draws(algorithm, n, key))
}

// The count that a state carries once so many bytes were fed: start's words, and those of the blocks that they filled.
pub fn state_words(algorithm: Algorithm, n: usize, bytes: usize) -> usize
    requires { (0 < n) × (n ≤ largest) × (bytes ≤ longest_message) }
    ensures { result ≡ state_draws (hash_of 32 (code_of algorithm)) n bytes }
{
    compressions_words(algorithm, 2 + bytes / BLOCK_BYTES, n)
}

// A state that feed and finish take, by its counts, its mark and its hash.
#[tactic(auto, unfolding(rules::specs::Numbers::allowed, rules::specs::Stream::fit))]
fn is_fit(algorithm: Algorithm, state: &State) -> bool
    ensures { result ≡ is_fit (hash_of 32 (code_of algorithm)) state.now }
{
    if !is_allowed(state.n) || LONGEST_MESSAGE < state.bytes {
        return false;
    }
    let drawn = state_words(algorithm, state.n, state.bytes);
    state.finished == 0 && state.hash == algorithm as u32 && state.drawn == drawn
}

// The blocks that a piece of so many bytes fills.
pub fn feed_words(algorithm: Algorithm, state: &State, piece: usize) -> Result<usize, Refusal>
    ensures { feed_words (hash_of 32 (code_of algorithm)) state.now piece ≡ answer_of result }
{
    growth(is_fit(algorithm, state), state.bytes, piece)?;
    let filled = (state.bytes % BLOCK_BYTES + piece) / BLOCK_BYTES;
    Ok(compressions_words(algorithm, filled, state.n))
}

// The last blocks of the message, and the digest block.
pub fn finish_words(algorithm: Algorithm, state: &State) -> Result<usize, Refusal>
    ensures { finish_words (hash_of 32 (code_of algorithm)) state.now ≡ answer_of result }
{
    fitness(is_fit(algorithm, state))?;
    let last = (state.bytes % BLOCK_BYTES + LENGTH_BYTES) / BLOCK_BYTES + 2;
    Ok(compressions_words(algorithm, last, state.n))
}
