// A tag while the message comes in pieces: start and finish, each proved to be its rule, by the steps of `hmac`.
#![tactic(auto)]

ghost use Rattle.std.specs.Prelude.{◌≡◌, ◌+◌, ◌*◌, ◌≤◌, ◌<◌, length};
ghost use Rattle.rules.specs.Numbers.{largest, longest_message};
ghost use Rattle.rules.specs.Hash.{digest_bytes};
ghost use Rattle.rules.specs.Counts.{start_draws, finish_draws};
ghost use Rattle.rules.specs.Stream.{start, finish};
ghost use Rattle.hash.specs.Hash.{hash, standard};

use hmac::{INNER, OUTER};
use rules::{Algorithm, BLOCK, BLOCK_BYTES, BLOCK_WORDS, State};
use states::{Moved, state_of, waiting};

// The inner key block, then the outer one, from the word at `at` on.
pub fn start_at(algorithm: Algorithm, n: usize, key: &[u32], words: &[u32], at: usize) -> Moved
    requires { (0 < n) × (n ≤ largest) × (length key.now ≡ 16 * n)
        × (at + start_draws (hash algorithm) n ≤ length words.now) }
    ensures { start (hash algorithm) n key.now words.now at ≡ (result.state, result.at) }
{
    let end = BLOCK_WORDS * n;
    let mut block0 = [0u32; BLOCK];
    let block = &mut block0[0..end];
    let inner = hmac::key_step(algorithm, n, INNER, key, block, words, at);
    let outer = hmac::key_step(algorithm, n, OUTER, key, block, words, inner.at);
    Moved {
        state: state_of(
            algorithm,
            n,
            0,
            inner.chain,
            outer.chain,
            [0u8; BLOCK_BYTES],
        ),
        at: outer.at,
    }
}

// The rest of the message with its padding, then the digest block, from the word at `at` on: the tag, and the place
// after.
pub fn finish_at(
    algorithm: Algorithm,
    state: &State,
    tag: &mut [u8],
    words: &[u32],
    at: usize,
) -> usize
    requires { (0 < state.now.n) × (state.now.n ≤ largest) × (state.now.bytes ≤ longest_message)
        × (length tag.old ≡ digest_bytes (standard algorithm))
        × (at + finish_draws (hash algorithm) state.now.n state.now.bytes ≤ length words.now) }
    ensures { (finish (hash algorithm) state.now words.now at ≡ (tag.new, result))
        × (result ≡ at + finish_draws (hash algorithm) state.now.n state.now.bytes) }
{
    let n = state.n;
    let tail = waiting(&state.tail, state.bytes);
    let before = (state.bytes / BLOCK_BYTES + 1) * BLOCK_BYTES;
    let end = BLOCK_WORDS * n;
    let mut block0 = [0u32; BLOCK];
    let block = &mut block0[0..end];
    let inner = hmac::text_step(algorithm, n, state.inner, before, tail, block, words, at);
    let last = hmac::digest_step(
        algorithm,
        n,
        inner.chain,
        state.outer,
        block,
        words,
        inner.at,
    );
    tags::tag_bytes(algorithm.into(), n, last.chain, tag);
    last.at
}
