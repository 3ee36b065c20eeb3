// A piece of a message fed to a state: its full blocks into the inner chain, the rest into the tail.
#![tactic(auto)]

ghost use Rattle.std.specs.Prelude.{◌≡◌, ◌++◌, ◌+◌, ◌*◌, ◌/◌, ◌≤◌, ◌<◌, length, get_or, take, drop};
ghost use Rattle.rules.specs.Numbers.{largest, longest_message};
ghost use Rattle.rules.specs.Hash.{words_of, filled};
ghost use Rattle.rules.specs.Sha1.{publics};
ghost use Rattle.rules.specs.Hmac.{used};
ghost use Rattle.rules.specs.Counts.{feed_draws};
ghost use Rattle.rules.specs.Stream.{full_blocks, feed};
ghost use Rattle.hash.specs.Hash.{hash, standard};
ghost use Rattle.padding.specs.Whole.{Hashable};

use hash::Stepped;
use rules::{Algorithm, BLOCK, BLOCK_BYTES, BLOCK_WORDS, Sha256Chain, State};
use states::{state_of, waiting};

// Byte i of the bytes that wait and then the piece.
fn byte_of(tail: &[u8], piece: &[u8], i: usize) -> u8
    requires { i < length tail.now + length piece.now }
    ensures { result ≡ get_or (tail.now ++ piece.now) i 0 }
{
    let m = tail.len();
    if i < m {
        return tail[i];
    }
    piece[i - m]
}

// z becomes the bytes that wait and then the piece, from byte p on.
fn gather(tail: &[u8], piece: &[u8], p: usize, z: &mut [u8])
    requires { p + length z.old ≤ length tail.now + length piece.now }
    ensures { z.new
        ≡ take (length z.old) (drop p (tail.now ++ piece.now)) }
{
    for (i, b) in z.iter_mut().enumerate() {
        *b = byte_of(tail, piece, p + i);
    }
}

// Block j of the bytes that wait and then the piece into a chain, from the word at `at` on. `block` is room for one.
fn full_block(
    algorithm: Algorithm,
    n: usize,
    chain: Sha256Chain,
    tail: &[u8],
    piece: &[u8],
    j: usize,
    block: &mut [u32],
    words: &[u32],
    at: usize,
) -> Stepped
    requires { (0 < n) × (n ≤ largest) × (64 * j + 64 ≤ length tail.now + length piece.now)
        × (length block.old ≡ 16 * n) × (at + (hash algorithm).draws n ≤ length words.now) }
    ensures { ((hash algorithm).compress n (used (standard algorithm) n chain.shares)
        (publics n (words_of 4 16 (drop (64 * j) (tail.now ++ piece.now)))) words.now at
        ≡ (used (standard algorithm) n result.chain.shares, result.at))
        × (result.at ≡ at + (hash algorithm).draws n) }
{
    let mut bytes = [0u8; BLOCK_BYTES];
    gather(tail, piece, BLOCK_BYTES * j, &mut bytes);
    hmac::public_block(n, 0, &bytes, 0, block);
    hash::compress(algorithm, n, chain, block, words, at)
}

// Every full block of the bytes that wait and then the piece into a chain, in order, from the word at `at` on.
fn full_blocks(
    algorithm: Algorithm,
    n: usize,
    chain: Sha256Chain,
    tail: &[u8],
    piece: &[u8],
    words: &[u32],
    at: usize,
) -> Stepped
    requires { (0 < n) × (n ≤ largest) × Hashable (length tail.now + length piece.now)
        × (at + (length tail.now + length piece.now) / 64 * (hash algorithm).draws n ≤ length words.now) }
    ensures { (full_blocks (hash algorithm) n ((length tail.now + length piece.now) / 64)
        (tail.now ++ piece.now) (used (standard algorithm) n chain.shares) words.now at
        ≡ (used (standard algorithm) n result.chain.shares, result.at))
        × (result.at ≡ at + (length tail.now + length piece.now) / 64 * (hash algorithm).draws n) }
{
    let end = BLOCK_WORDS * n;
    let mut block0 = [0u32; BLOCK];
    let block = &mut block0[0..end];
    let count = (tail.len() + piece.len()) / BLOCK_BYTES;
    let mut c = chain;
    let mut p = at;
    for j in 0..count {
        let next = full_block(algorithm, n, c, tail, piece, j, block, words, p);
        c = next.chain;
        p = next.at;
    }
    Stepped { chain: c, at: p }
}

// The bytes after the last full block of those that wait and then the piece, in front of zeros.
fn rest_of(tail: &[u8], piece: &[u8]) -> [u8; BLOCK_BYTES]
    requires { Hashable (length tail.now + length piece.now) }
    ensures { result ≡ filled 64 (drop ((length tail.now + length piece.now) / 64 * 64)
        (tail.now ++ piece.now)) }
{
    let count = tail.len() + piece.len();
    let left = count % BLOCK_BYTES;
    let mut rest = [0u8; BLOCK_BYTES];
    let front = &mut rest[0..left];
    gather(tail, piece, count - left, front);
    rest
}

// A piece fed to a state, from the word at `at` on; the place after.
pub fn feed_at(
    algorithm: Algorithm,
    state: &mut State,
    piece: &[u8],
    words: &[u32],
    at: usize,
) -> usize
    requires { (0 < state.old.n) × (state.old.n ≤ largest) × (state.old.bytes + length piece.now ≤ longest_message)
        × (at + feed_draws (hash algorithm) state.old.n state.old.bytes (length piece.now) ≤ length words.now) }
    ensures { (feed (hash algorithm) state.old piece.now words.now at ≡ (state.new, result))
        × (result ≡ at + feed_draws (hash algorithm) state.old.n state.old.bytes (length piece.now)) }
{
    let tail = waiting(&state.tail, state.bytes);
    let made = full_blocks(algorithm, state.n, state.inner, tail, piece, words, at);
    let rest = rest_of(tail, piece);
    let bytes = state.bytes + piece.len();
    *state = state_of(algorithm, state.n, bytes, made.chain, state.outer, rest);
    made.at
}
