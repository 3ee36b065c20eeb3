// States: made anew, of zeros, after their tag was handed out; and which of their bytes wait.
#![tactic(auto)]

ghost use Rattle.std.specs.Prelude.{◌≡◌, ◌%◌, ◌≤◌, ◌<◌, length, take};
ghost use Rattle.rules.specs.Numbers.{largest, longest_message};
ghost use Rattle.rules.specs.Refusals.{code_of};
ghost use Rattle.rules.specs.Hash.{filled};
ghost use Rattle.rules.specs.Hmac.{used};
ghost use Rattle.rules.specs.Counts.{state_draws};
ghost use Rattle.rules.specs.Stream.{state_room, state_of_zeros, closed};
ghost use Rattle.hash.specs.Hash.{hash, standard};

use counts::state_words;
use rules::{Algorithm, BLOCK_BYTES, SHA256_CHAIN, Sha256Chain, State};

// A state made anew, of a tail that has 0 in its unfilled bytes.
pub fn state_of(
    algorithm: Algorithm,
    n: usize,
    bytes: usize,
    inner: Sha256Chain,
    outer: Sha256Chain,
    tail: [u8; BLOCK_BYTES],
) -> State
    requires { (0 < n) × (n ≤ largest) × (bytes ≤ longest_message) }
    ensures { result ≡ record {
      n = n;
      bytes = bytes;
      drawn = state_draws (hash algorithm) n bytes;
      finished = 0;
      hash = code_of algorithm;
      inner = record { shares = filled state_room (used (standard algorithm) n inner.shares) };
      outer = record { shares = filled state_room (used (standard algorithm) n outer.shares) };
      tail = tail;
    } }
{
    State {
        n,
        bytes,
        drawn: state_words(algorithm, n, bytes),
        finished: 0,
        hash: algorithm as u32,
        inner: hash::cleared(algorithm, n, inner),
        outer: hash::cleared(algorithm, n, outer),
        tail,
    }
}

// A state of zeros, which a refused start hands back.
pub fn zeros() -> State
    ensures { result ≡ state_of_zeros }
{
    let none = Sha256Chain {
        shares: [0u32; SHA256_CHAIN],
    };
    State {
        n: 0,
        bytes: 0,
        drawn: 0,
        finished: 0,
        hash: 0,
        inner: none,
        outer: none,
        tail: [0u8; BLOCK_BYTES],
    }
}

// A state's tag was handed out.
pub fn close(state: &mut State)
    ensures { state.new ≡ closed state.old }
{
    state.finished = 1;
}

// The bytes of a tail that wait, of the block that is not yet full, where so many bytes were fed.
pub fn waiting(tail: &[u8], bytes: usize) -> &[u8]
    requires { length tail.now ≡ 64 }
    ensures { (result.now ≡ take (bytes % 64) tail.now) × (length result.now ≡ bytes % 64) }
{
    let end = bytes % BLOCK_BYTES;
    &tail[0..end]
}

// A state, and the place after the words that went into it.
#[derive(Clone, Copy)]
pub struct Moved {
    pub state: State,
    pub at: usize,
}
