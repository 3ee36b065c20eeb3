// The calls that users make, as the archive exports them. Each takes any arguments at all and says its whole outcome:
// the answer and every lent buffer afterwards.
#![tactic(auto)]

ghost use Rattle.std.specs.Prelude.{◌≡◌};
ghost use Rattle.rules.specs.Calls.{b2a_two, a2b_two, b2a_record_call, a2b_record_call, split_call};
ghost use Rattle.rules.specs.Calls.{open_xor_call, open_sum_call};
ghost use Rattle.rules.specs.Calls.{refresh_call, expand_call, and_call, add_call, a2b_call, b2a_call, b2a_short_call};
ghost use Rattle.rules.specs.Calls.{split_words, refresh_words, expand_words, and_words, add_words};
ghost use Rattle.rules.specs.Calls.{a2b_words, b2a_words, b2a_short_words};
ghost use Rattle.rules.specs.Calls.{split_key_call, compress_call, hmac_call};
ghost use Rattle.rules.specs.Calls.{split_key_words, compress_words, hmac_words, same_tag};
ghost use Rattle.rules.specs.Stream.{start_call, feed_call, finish_call, start_words, feed_words, finish_words};
ghost use Rattle.rules.specs.Counts.{sha1, sha256};

use counts::{
    a2b_words, add_words, and_words, b2a_words, compress_words, expand_words, feed_words,
    finish_words, hmac_words, key_words, refresh_words, short_words, split_words, start_words,
};
use numbers::number;
use rules::{
    Algorithm, Answer, Chain, Compressed, Opened, Sha256Chain, Sha256Compressed, State, Streamed,
};

// ---- two shares

// Boolean to arithmetic, two shares: from x1 and r with x = x1 ⊕ r, and a fresh word g, the share x − r.
#[unsafe(no_mangle)]
pub extern "C" fn flamivorse_b2a_2(x1: u32, r: u32, g: u32) -> u32
    ensures { result ≡ b2a_two 32 x1 r }
{
    goubin::b2a(x1, r, g)
}

// Arithmetic to Boolean, two shares: from a and r with x = a + r, and a fresh word g, the share x ⊕ r.
#[unsafe(no_mangle)]
pub extern "C" fn flamivorse_a2b_2(a: u32, r: u32, g: u32) -> u32
    ensures { result ≡ a2b_two 32 a r }
{
    goubin::a2b(a, r, g)
}

// Boolean to arithmetic with its 7 steps written down; the last is the answer.
#[unsafe(no_mangle)]
pub extern "C" fn flamivorse_b2a_2_record(x1: u32, r: u32, g: u32, entries: &mut [u32]) -> u32
    ensures { b2a_record_call 32 x1 r g entries.old ≡ (result, entries.new) }
{
    number(goubin::b2a_record(x1, r, g, entries))
}

// Arithmetic to Boolean with its 165 steps written down; the last is the answer.
#[unsafe(no_mangle)]
pub extern "C" fn flamivorse_a2b_2_record(a: u32, r: u32, g: u32, entries: &mut [u32]) -> u32
    ensures { a2b_record_call 32 a r g entries.old ≡ (result, entries.new) }
{
    number(goubin::a2b_record(a, r, g, entries))
}

// ---- n shares

// A value into n shares: the next n − 1 words, and the value XOR all of them.
#[unsafe(no_mangle)]
pub extern "C" fn flamivorse_split(
    n: usize,
    value: u32,
    shares: &mut [u32],
    words: &[u32],
) -> Answer
    ensures { split_call n value shares.old words.now ≡ (result, shares.new) }
{
    share_calls::split(n, value, shares, words).into()
}

// The XOR of n shares.
#[unsafe(no_mangle)]
pub extern "C" fn flamivorse_open_xor(n: usize, shares: &[u32]) -> Opened
    ensures { open_xor_call n shares.now ≡ result }
{
    share_calls::open_xor(n, shares).into()
}

// The sum of n shares modulo 2^32.
#[unsafe(no_mangle)]
pub extern "C" fn flamivorse_open_sum(n: usize, shares: &[u32]) -> Opened
    ensures { open_sum_call 32 n shares.now ≡ result }
{
    share_calls::open_sum(n, shares).into()
}

// Fresh shares y of what x opens to.
#[unsafe(no_mangle)]
pub extern "C" fn flamivorse_refresh(n: usize, x: &[u32], y: &mut [u32], words: &[u32]) -> Answer
    ensures { refresh_call n x.now y.old words.now ≡ (result, y.new) }
{
    share_calls::refresh(n, x, y, words).into()
}

// 2n shares y of what the n shares x open to.
#[unsafe(no_mangle)]
pub extern "C" fn flamivorse_expand(n: usize, x: &[u32], y: &mut [u32], words: &[u32]) -> Answer
    ensures { expand_call n x.now y.old words.now ≡ (result, y.new) }
{
    share_calls::expand(n, x, y, words).into()
}

// Shares z of x AND y.
#[unsafe(no_mangle)]
pub extern "C" fn flamivorse_and(
    n: usize,
    x: &[u32],
    y: &[u32],
    z: &mut [u32],
    words: &[u32],
) -> Answer
    ensures { and_call n x.now y.now z.old words.now ≡ (result, z.new) }
{
    share_calls::and(n, x, y, z, words).into()
}

// Shares z of x + y modulo 2^32.
#[unsafe(no_mangle)]
pub extern "C" fn flamivorse_add(
    n: usize,
    x: &[u32],
    y: &[u32],
    z: &mut [u32],
    words: &[u32],
) -> Answer
    ensures { add_call 32 n x.now y.now z.old words.now ≡ (result, z.new) }
{
    share_calls::add(n, x, y, z, words).into()
}

// Boolean shares x of what the arithmetic shares a add up to.
#[unsafe(no_mangle)]
pub extern "C" fn flamivorse_a2b(n: usize, a: &[u32], x: &mut [u32], words: &[u32]) -> Answer
    ensures { a2b_call 32 n a.now x.old words.now ≡ (result, x.new) }
{
    share_calls::a2b(n, a, x, words).into()
}

// Arithmetic shares a of what the Boolean shares x open to.
#[unsafe(no_mangle)]
pub extern "C" fn flamivorse_b2a(n: usize, x: &[u32], a: &mut [u32], words: &[u32]) -> Answer
    ensures { b2a_call 32 n x.now a.old words.now ≡ (result, a.new) }
{
    share_calls::b2a(n, x, a, words).into()
}

// The same by the short conversion, which draws fewer words.
#[unsafe(no_mangle)]
pub extern "C" fn flamivorse_b2a_short(n: usize, x: &[u32], a: &mut [u32], words: &[u32]) -> Answer
    ensures { b2a_short_call 32 n x.now a.old words.now ≡ (result, a.new) }
{
    share_calls::b2a_short(n, x, a, words).into()
}

// ---- SHA-1 and HMAC

// A key of at most 1,024 bytes into shares: 16n words. One over 64 bytes is hashed by SHA-1, in shares.
#[unsafe(no_mangle)]
pub extern "C" fn flamivorse_split_key(
    n: usize,
    key: &[u8],
    shares: &mut [u32],
    words: &[u32],
) -> Answer
    ensures { split_key_call (sha1 32) n key.now shares.old words.now
        ≡ (result, shares.new) }
{
    calls::split_key(Algorithm::Sha1 as u32, n, key, shares, words).into()
}

// One compression of a block of 16n words in shares into a chain.
#[unsafe(no_mangle)]
pub extern "C" fn flamivorse_sha1_compress(
    n: usize,
    chain: Chain,
    block: &[u32],
    words: &[u32],
) -> Compressed
    ensures { compress_call (sha1 32) n chain.shares block.now words.now
        ≡ (record { number = result.number; drawn = result.drawn }, result.chain.shares) }
{
    let mut all = chain.shares;
    let made = Answer::from(calls::compress(Algorithm::Sha1 as u32, n, &mut all, block, words));
    Compressed {
        number: made.number,
        drawn: made.drawn,
        chain: Chain { shares: all },
    }
}

// The tag of a message under a key in shares.
#[unsafe(no_mangle)]
pub extern "C" fn flamivorse_hmac_sha1(
    n: usize,
    key: &[u32],
    message: &[u8],
    tag: &mut [u8],
    words: &[u32],
) -> Answer
    ensures { hmac_call (sha1 32) n key.now message.now tag.old
        words.now
        ≡ (result, tag.new) }
{
    calls::tag(Algorithm::Sha1 as u32, n, key, message, tag, words).into()
}

// The state that a message starts from, under a key in shares.
#[unsafe(no_mangle)]
pub extern "C" fn flamivorse_hmac_sha1_start(n: usize, key: &[u32], words: &[u32]) -> Streamed
    ensures { start_call (sha1 32) n key.now words.now ≡ result }
{
    calls::start(Algorithm::Sha1 as u32, n, key, words)
}

// A state with one more piece of the message.
#[unsafe(no_mangle)]
pub extern "C" fn flamivorse_hmac_sha1_feed(state: State, piece: &[u8], words: &[u32]) -> Streamed
    ensures { feed_call (sha1 32) state piece.now words.now ≡ result }
{
    calls::feed(Algorithm::Sha1 as u32, state, piece, words)
}

// The tag of what was fed to a state.
#[unsafe(no_mangle)]
pub extern "C" fn flamivorse_hmac_sha1_finish(
    state: State,
    tag: &mut [u8],
    words: &[u32],
) -> Streamed
    ensures { finish_call (sha1 32) state tag.old words.now ≡ (result, tag.new) }
{
    calls::finish(Algorithm::Sha1 as u32, state, tag, words)
}

// ---- SHA-256 and HMAC

// A key of at most 1,024 bytes into shares: 16n words. One over 64 bytes is hashed by SHA-256, in shares.
#[unsafe(no_mangle)]
pub extern "C" fn flamivorse_sha256_split_key(
    n: usize,
    key: &[u8],
    shares: &mut [u32],
    words: &[u32],
) -> Answer
    ensures { split_key_call (sha256 32) n key.now shares.old words.now
        ≡ (result, shares.new) }
{
    calls::split_key(Algorithm::Sha256 as u32, n, key, shares, words).into()
}

// One compression of a block of 16n words in shares into a chain.
#[unsafe(no_mangle)]
pub extern "C" fn flamivorse_sha256_compress(
    n: usize,
    chain: Sha256Chain,
    block: &[u32],
    words: &[u32],
) -> Sha256Compressed
    ensures { compress_call (sha256 32) n chain.shares block.now words.now
        ≡ (record { number = result.number; drawn = result.drawn }, result.chain.shares) }
{
    let mut all = chain.shares;
    let made = Answer::from(calls::compress(Algorithm::Sha256 as u32, n, &mut all, block, words));
    Sha256Compressed {
        number: made.number,
        drawn: made.drawn,
        chain: Sha256Chain { shares: all },
    }
}

// The tag of a message under a key in shares.
#[unsafe(no_mangle)]
pub extern "C" fn flamivorse_hmac_sha256(
    n: usize,
    key: &[u32],
    message: &[u8],
    tag: &mut [u8],
    words: &[u32],
) -> Answer
    ensures { hmac_call (sha256 32) n key.now message.now tag.old
        words.now
        ≡ (result, tag.new) }
{
    calls::tag(Algorithm::Sha256 as u32, n, key, message, tag, words).into()
}

// The state that a message starts from, under a key in shares.
#[unsafe(no_mangle)]
pub extern "C" fn flamivorse_hmac_sha256_start(n: usize, key: &[u32], words: &[u32]) -> Streamed
    ensures { start_call (sha256 32) n key.now words.now ≡ result }
{
    calls::start(Algorithm::Sha256 as u32, n, key, words)
}

// A state with one more piece of the message.
#[unsafe(no_mangle)]
pub extern "C" fn flamivorse_hmac_sha256_feed(state: State, piece: &[u8], words: &[u32]) -> Streamed
    ensures { feed_call (sha256 32) state piece.now words.now ≡ result }
{
    calls::feed(Algorithm::Sha256 as u32, state, piece, words)
}

// The tag of what was fed to a state.
#[unsafe(no_mangle)]
pub extern "C" fn flamivorse_hmac_sha256_finish(
    state: State,
    tag: &mut [u8],
    words: &[u32],
) -> Streamed
    ensures { finish_call (sha256 32) state tag.old words.now ≡ (result, tag.new) }
{
    calls::finish(Algorithm::Sha256 as u32, state, tag, words)
}

// ---- comparing tags

// 1 where two tags, or any two texts, have the same length and the same bytes, else 0.
#[unsafe(no_mangle)]
pub extern "C" fn flamivorse_same_tag(a: &[u8], b: &[u8]) -> u32
    ensures { same_tag a.now b.now ≡ result }
{
    compare::same_tag(a, b)
}

// ---- how many words a call will draw

#[unsafe(no_mangle)]
pub extern "C" fn flamivorse_split_words(n: usize) -> Answer
    ensures { split_words n ≡ result }
{
    split_words(n).into()
}

#[unsafe(no_mangle)]
pub extern "C" fn flamivorse_refresh_words(n: usize) -> Answer
    ensures { refresh_words n ≡ result }
{
    refresh_words(n).into()
}

#[unsafe(no_mangle)]
pub extern "C" fn flamivorse_expand_words(n: usize) -> Answer
    ensures { expand_words n ≡ result }
{
    expand_words(n).into()
}

#[unsafe(no_mangle)]
pub extern "C" fn flamivorse_and_words(n: usize) -> Answer
    ensures { and_words n ≡ result }
{
    and_words(n).into()
}

#[unsafe(no_mangle)]
pub extern "C" fn flamivorse_add_words(n: usize) -> Answer
    ensures { add_words 32 n ≡ result }
{
    add_words(n).into()
}

#[unsafe(no_mangle)]
pub extern "C" fn flamivorse_a2b_words(n: usize) -> Answer
    ensures { a2b_words 32 n ≡ result }
{
    a2b_words(n).into()
}

#[unsafe(no_mangle)]
pub extern "C" fn flamivorse_b2a_words(n: usize) -> Answer
    ensures { b2a_words 32 n ≡ result }
{
    b2a_words(n).into()
}

#[unsafe(no_mangle)]
pub extern "C" fn flamivorse_b2a_short_words(n: usize) -> Answer
    ensures { b2a_short_words n ≡ result }
{
    short_words(n).into()
}

#[unsafe(no_mangle)]
pub extern "C" fn flamivorse_split_key_words(n: usize, length: usize) -> Answer
    ensures { split_key_words (sha1 32) n length ≡ result }
{
    key_words(Algorithm::Sha1, n, length).into()
}

#[unsafe(no_mangle)]
pub extern "C" fn flamivorse_sha1_compress_words(n: usize) -> Answer
    ensures { compress_words (sha1 32) n ≡ result }
{
    compress_words(Algorithm::Sha1, n).into()
}

#[unsafe(no_mangle)]
pub extern "C" fn flamivorse_hmac_sha1_words(n: usize, length: usize) -> Answer
    ensures { hmac_words (sha1 32) n length ≡ result }
{
    hmac_words(Algorithm::Sha1, n, length).into()
}

#[unsafe(no_mangle)]
pub extern "C" fn flamivorse_hmac_sha1_start_words(n: usize) -> Answer
    ensures { start_words (sha1 32) n ≡ result }
{
    start_words(Algorithm::Sha1, n).into()
}

#[unsafe(no_mangle)]
pub extern "C" fn flamivorse_hmac_sha1_feed_words(state: State, length: usize) -> Answer
    ensures { feed_words (sha1 32) state length ≡ result }
{
    feed_words(Algorithm::Sha1, &state, length).into()
}

#[unsafe(no_mangle)]
pub extern "C" fn flamivorse_hmac_sha1_finish_words(state: State) -> Answer
    ensures { finish_words (sha1 32) state ≡ result }
{
    finish_words(Algorithm::Sha1, &state).into()
}

#[unsafe(no_mangle)]
pub extern "C" fn flamivorse_sha256_split_key_words(n: usize, length: usize) -> Answer
    ensures { split_key_words (sha256 32) n length ≡ result }
{
    key_words(Algorithm::Sha256, n, length).into()
}

#[unsafe(no_mangle)]
pub extern "C" fn flamivorse_sha256_compress_words(n: usize) -> Answer
    ensures { compress_words (sha256 32) n ≡ result }
{
    compress_words(Algorithm::Sha256, n).into()
}

#[unsafe(no_mangle)]
pub extern "C" fn flamivorse_hmac_sha256_words(n: usize, length: usize) -> Answer
    ensures { hmac_words (sha256 32) n length ≡ result }
{
    hmac_words(Algorithm::Sha256, n, length).into()
}

#[unsafe(no_mangle)]
pub extern "C" fn flamivorse_hmac_sha256_start_words(n: usize) -> Answer
    ensures { start_words (sha256 32) n ≡ result }
{
    start_words(Algorithm::Sha256, n).into()
}

#[unsafe(no_mangle)]
pub extern "C" fn flamivorse_hmac_sha256_feed_words(state: State, length: usize) -> Answer
    ensures { feed_words (sha256 32) state length ≡ result }
{
    feed_words(Algorithm::Sha256, &state, length).into()
}

#[unsafe(no_mangle)]
pub extern "C" fn flamivorse_hmac_sha256_finish_words(state: State) -> Answer
    ensures { finish_words (sha256 32) state ≡ result }
{
    finish_words(Algorithm::Sha256, &state).into()
}
