// The tests of each kind of call on keys, messages and states, in order, by their lengths.
// No function here has a precondition.
#![tactic(auto, unfolding(rules::specs::Numbers::first, rules::specs::Numbers::test,))]

ghost use Rattle.std.specs.Prelude.{◌≡◌, [], ◌∷◌, ◌+◌, ◌*◌, eqb, leb};
ghost use Rattle.rules.specs.Numbers.{longest_key, longest_message, allowed, test, first};
ghost use Rattle.rules.specs.Refusals.{number, code_of};
ghost use Rattle.rules.specs.Hash.{digest_bytes};
ghost use Rattle.rules.specs.Counts.{standard_of};

use numbers::{is_allowed, is_times, require};
use rules::{
    Algorithm, BLOCK_WORDS, CHAIN_WORDS, LONGEST_KEY, LONGEST_MESSAGE, Refusal, SHA256_CHAIN_WORDS,
    WORD_BYTES,
};

// Whether a message that has so many bytes may have so many more, a sum that need not fit into a usize.
fn may_grow(bytes: usize, piece: usize) -> bool
    ensures { result ≡ leb (bytes + piece) longest_message }
{
    bytes.saturating_add(piece) <= LONGEST_MESSAGE
}

// The bytes of a tag.
pub fn tag_size(algorithm: Algorithm) -> usize
    ensures { result ≡ digest_bytes (standard_of 32 (code_of algorithm)) }
{
    match algorithm {
        Algorithm::Sha1 => CHAIN_WORDS * WORD_BYTES,
        Algorithm::Sha256 => SHA256_CHAIN_WORDS * WORD_BYTES,
    }
}

// A key that is not too long.
pub fn key_fitness(n: usize, key: usize) -> Result<(), Refusal>
    ensures { first (test 1 (allowed n) ∷ test 4 (leb key longest_key) ∷ []) ≡ number result }
{
    require(is_allowed(n), Refusal::WrongCount)?;
    require(key <= LONGEST_KEY, Refusal::TooLong)
}

// A key split into a block of 16n shares.
pub fn key_splitting(
    n: usize,
    output: usize,
    key: usize,
    need: usize,
    have: usize,
) -> Result<(), Refusal>
    ensures { first (test 1 (allowed n) ∷ test 3 (eqb output (16 * n)) ∷ test 4 (leb key longest_key)
        ∷ test 5 (leb need have) ∷ []) ≡ number result }
{
    require(is_allowed(n), Refusal::WrongCount)?;
    require(is_times(output, BLOCK_WORDS, n), Refusal::WrongOutput)?;
    require(key <= LONGEST_KEY, Refusal::TooLong)?;
    require(need <= have, Refusal::TooFewWords)
}

// A block of 16n shares compressed.
pub fn compressing(n: usize, block: usize, need: usize, have: usize) -> Result<(), Refusal>
    ensures { first (test 1 (allowed n) ∷ test 2 (eqb block (16 * n)) ∷ test 5 (leb need have) ∷ []) ≡ number result }
{
    require(is_allowed(n), Refusal::WrongCount)?;
    require(is_times(block, BLOCK_WORDS, n), Refusal::WrongInput)?;
    require(need <= have, Refusal::TooFewWords)
}

// A message tagged under a key of 16n shares.
pub fn tagging(
    algorithm: Algorithm,
    n: usize,
    key: usize,
    tag: usize,
    message: usize,
    need: usize,
    have: usize,
) -> Result<(), Refusal>
    ensures { first (test 1 (allowed n) ∷ test 2 (eqb key (16 * n))
        ∷ test 3 (eqb tag (digest_bytes (standard_of 32 (code_of algorithm))))
        ∷ test 4 (leb message longest_message) ∷ test 5 (leb need have) ∷ []) ≡ number result }
{
    require(is_allowed(n), Refusal::WrongCount)?;
    require(is_times(key, BLOCK_WORDS, n), Refusal::WrongInput)?;
    require(tag == tag_size(algorithm), Refusal::WrongOutput)?;
    require(message <= LONGEST_MESSAGE, Refusal::TooLong)?;
    require(need <= have, Refusal::TooFewWords)
}

// A state that feed and finish take.
pub fn fitness(fits: bool) -> Result<(), Refusal>
    ensures { first (test 6 fits ∷ []) ≡ number result }
{
    require(fits, Refusal::NotFit)
}

// Such a state, and a piece that does not pass the limit with what was fed before.
pub fn growth(fits: bool, bytes: usize, piece: usize) -> Result<(), Refusal>
    ensures { first (test 6 fits ∷ test 4 (leb (bytes + piece) longest_message) ∷ []) ≡ number result }
{
    require(fits, Refusal::NotFit)?;
    require(may_grow(bytes, piece), Refusal::TooLong)
}
