// The calls over a hash, by its code: a key split, one compression, a tag in one call and in pieces. Each takes any
// arguments and says its whole outcome. 0 is SHA-1's code, and every other SHA-256's, under a mark of its own.
#![tactic(auto)]

ghost use Rattle.std.specs.Prelude.{◌≡◌, [], ◌∷◌, ◌*◌, eqb, length, OnErr};
ghost use Rattle.rules.specs.Numbers.{allowed, test};
ghost use Rattle.rules.specs.Refusals.{answer_of};
ghost use Rattle.rules.specs.Hmac.{chain_room};
ghost use Rattle.rules.specs.Counts.{standard_of, hash_of};
ghost use Rattle.rules.specs.Calls.{call, split_key_call, compress_call, hmac_call};
ghost use Rattle.rules.specs.Stream.{start, streamed, start_call, feed_call, finish_call};
ghost use Rattle.rules.specs.Outcome.{Whole};
ghost use Rattle.hash.specs.Hash.{hash};

use counts::{compress_words, feed_words, finish_words, hmac_words, key_words, start_words};
use numbers::require;
use rules::{Algorithm, Answer, Refusal, State, Streamed};
use text_numbers::{compressing, key_splitting, tag_size, tagging};

// A key into shares. A key that is too long draws nothing, and is refused after an output of another length.
pub fn split_key(
    code: u32,
    n: usize,
    key: &[u8],
    shares: &mut [u32],
    words: &[u32],
) -> Result<usize, Refusal>
    ensures { split_key_call (hash_of 32 code) n key.now shares.old words.now ≡ (answer_of result, shares.new) }
{
    let algorithm = Algorithm::from(code);
    let need = key_words(algorithm, n, key.len()).unwrap_or(0);
    key_splitting(n, shares.len(), key.len(), need, words.len())?;
    Ok(keys::split_key(algorithm, n, key, shares, words, 0))
}

// One compression of a block into a chain record, which has the hash's length by its type.
pub fn compress(
    code: u32,
    n: usize,
    chain: &mut [u32],
    block: &[u32],
    words: &[u32],
) -> Result<usize, Refusal>
    requires { length chain.old ≡ chain_room (standard_of 32 code) }
    ensures { compress_call (hash_of 32 code) n chain.old block.now words.now ≡ (answer_of result, chain.new) }
{
    let algorithm = Algorithm::from(code);
    let need = compress_words(algorithm, n)?;
    compressing(n, block.len(), need, words.len())?;
    Ok(hash::compress_record(algorithm, n, chain, block, words, 0))
}

// The tag of a message under a key in shares. A message that is too long draws nothing, and is refused after a key or a
// tag of another length.
pub fn tag(
    code: u32,
    n: usize,
    key: &[u32],
    message: &[u8],
    tag: &mut [u8],
    words: &[u32],
) -> Result<usize, Refusal>
    ensures { hmac_call (hash_of 32 code) n key.now message.now tag.old words.now ≡ (answer_of result, tag.new) }
{
    let algorithm = Algorithm::from(code);
    let need = hmac_words(algorithm, n, message.len()).unwrap_or(0);
    tagging(
        algorithm,
        n,
        key.len(),
        tag.len(),
        message.len(),
        need,
        words.len(),
    )?;
    Ok(hmac::hmac_tag(algorithm, n, key, message, tag, words, 0))
}

// ---- streaming

// What a call on a state hands back.
fn streamed(outcome: Result<usize, Refusal>, state: State) -> Streamed
    ensures { result ≡ streamed (answer_of outcome) state }
{
    let answer = Answer::from(outcome);
    Streamed {
        number: answer.number,
        drawn: answer.drawn,
        state,
    }
}

// The state that a message starts from, in the place of another.
fn started(
    algorithm: Algorithm,
    state: &mut State,
    n: usize,
    key: &[u32],
    words: &[u32],
) -> Result<usize, Refusal>
    ensures { call (test 1 (allowed n) ∷ test 2 (eqb (length key.now) (16 * n)) ∷ []) (start (hash algorithm) n key.now)
        state.old words.now ≡ (answer_of result, state.new) }
{
    let need = start_words(algorithm, n)?;
    compressing(n, key.len(), need, words.len())?;
    let made = stream::start_at(algorithm, n, key, words, 0);
    *state = made.state;
    Ok(made.at)
}

// The state that a message starts from, under a key in shares; zeros where it is refused.
pub fn start(code: u32, n: usize, key: &[u32], words: &[u32]) -> Streamed
    ensures { start_call (hash_of 32 code) n key.now words.now ≡ result }
{
    let mut state = states::zeros();
    match started(Algorithm::from(code), &mut state, n, key, words) {
        Ok(drawn) => {
            state.hash = code;
            streamed(Ok(drawn), state)
        }
        Err(refusal) => streamed(Err(refusal), state),
    }
}

// A piece fed to a state, which a refusal leaves as it was.
fn fed(
    algorithm: Algorithm,
    state: &mut State,
    piece: &[u8],
    words: &[u32],
) -> Result<usize, Refusal>
    requires { Whole state.old }
    ensures outcome { feed_call (hash algorithm) state.old piece.now words.now ≡ streamed (answer_of result) state.new }
    ensures left { OnErr result (state.new ≡ state.old) }
{
    let need = feed_words(algorithm, state, piece.len())?;
    require(need <= words.len(), Refusal::TooFewWords)?;
    Ok(feed::feed_at(algorithm, state, piece, words, 0))
}

// A state with one more piece of the message.
pub fn feed(code: u32, state: State, piece: &[u8], words: &[u32]) -> Streamed
    ensures { feed_call (hash_of 32 code) state piece.now words.now ≡ result }
{
    if state.hash != code {
        return streamed(Err(Refusal::NotFit), state);
    }
    let algorithm = Algorithm::from(code);
    let mut next = state;
    next.hash = algorithm.into();
    let outcome = fed(algorithm, &mut next, piece, words);
    let Ok(drawn) = outcome else {
        return streamed(outcome, state);
    };
    next.hash = code;
    streamed(Ok(drawn), next)
}

// The tag of what was fed to a state, which is closed then; a refusal leaves it as it was.
fn finished(
    algorithm: Algorithm,
    state: &mut State,
    tag: &mut [u8],
    words: &[u32],
) -> Result<usize, Refusal>
    requires { Whole state.old }
    ensures { finish_call (hash algorithm) state.old tag.old words.now
        ≡ (streamed (answer_of result) state.new, tag.new) }
{
    let need = finish_words(algorithm, state)?;
    require(tag.len() == tag_size(algorithm), Refusal::WrongOutput)?;
    require(need <= words.len(), Refusal::TooFewWords)?;
    let drawn = stream::finish_at(algorithm, state, tag, words, 0);
    states::close(state);
    Ok(drawn)
}

// The tag of what was fed to a state.
pub fn finish(code: u32, state: State, tag: &mut [u8], words: &[u32]) -> Streamed
    ensures { finish_call (hash_of 32 code) state tag.old words.now ≡ (result, tag.new) }
{
    if state.hash != code {
        let refused = Err(Refusal::NotFit);
        return streamed(refused, state);
    }
    let algorithm = Algorithm::from(code);
    let mut last = state;
    last.hash = algorithm.into();
    let outcome = finished(algorithm, &mut last, tag, words);
    last.hash = code;
    streamed(outcome, last)
}
