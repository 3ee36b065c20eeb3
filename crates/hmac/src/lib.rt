// Masked HMAC: the key blocks, the message, the digest block, and the tag. Each function is proved to be its rule, over
// the hash of crate `hash`.
#![tactic(auto)]

ghost use Rattle.std.specs.Prelude.{◌≡◌, ◌++◌, ◌+◌, ◌-◌, ◌*◌, ◌%◌, ◌≤◌, ◌<◌, length, take, drop, replicate};
ghost use Rattle.rules.specs.Numbers.{largest};
ghost use Rattle.rules.specs.Hash.{chain_words, digest_bytes, ending};
ghost use Rattle.rules.specs.Sha1.{publics};
ghost use Rattle.rules.specs.Hmac.{used, marked, blocks, digest_padding, hmac_shares, hmac_tag};
ghost use Rattle.rules.specs.Counts.{hmac_draws};
ghost use Rattle.rules.specs.Standard.{SHA1};
ghost use Rattle.hash.specs.Hash.{hash, standard};
ghost use Rattle.padding.specs.Whole.{Hashable, blocks_in};
ghost use Rattle.hmac.specs.Halves.{inner_hash, outer_hash};

use hash::{Stepped, chain_end, mark, publish};
use padding::{block_words, blocks_in};
use rules::{Algorithm, BLOCK, BLOCK_BYTES, BLOCK_WORDS, Sha256Chain};

// The byte 0x36, and the byte 0x5c, in every byte of a word.
pub const INNER: u32 = 0x36363636;

pub const OUTER: u32 = 0x5c5c5c5c;

// The key block: z becomes the key with a constant in share 1 of each word.
fn key_block(n: usize, c: u32, key: &[u32], z: &mut [u32])
    requires { (0 < n) × (length key.now ≡ 16 * n) × (length z.old ≡ 16 * n) }
    ensures { z.new ≡ marked n (replicate 16 c) key.now }
{
    shares::copy(key, z);
    mark(n, &[c; BLOCK_WORDS], z);
}

// The key, marked with a constant, into the chain that starts a hash, from the word at `at` on. `block` is room for
// one.
pub fn key_step(
    algorithm: Algorithm,
    n: usize,
    c: u32,
    key: &[u32],
    block: &mut [u32],
    words: &[u32],
    at: usize,
) -> Stepped
    requires { (0 < n) × (n ≤ largest) × (length key.now ≡ 16 * n) × (length block.old ≡ 16 * n)
        × (at + (hash algorithm).draws n ≤ length words.now) }
    ensures { ((hash algorithm).compress n (publics n (standard algorithm).start)
        (marked n (replicate 16 c) key.now) words.now at
        ≡ (used (standard algorithm) n result.chain.shares, result.at))
        × (result.at ≡ at + (hash algorithm).draws n) }
{
    key_block(n, c, key, block);
    hash::compress(algorithm, n, hash::start(algorithm, n), block, words, at)
}

// Block j of a text after `before` bytes, with its padding, as public words in shares.
pub fn public_block(n: usize, before: usize, text: &[u8], j: usize, z: &mut [u32])
    requires { (0 < n) × (before % 64 ≡ 0) × Hashable (before + length text.now)
        × (j < blocks_in (length text.now)) × (length z.old ≡ 16 * n) }
    ensures { z.new ≡ publics n
        (take 16 (drop (16 * j) (ending (SHA1 32) before text.now))) }
{
    let mut values = [0u32; BLOCK_WORDS];
    block_words(before, text, j, &mut values);
    publish(n, &values, z);
}

// A text after `before` bytes, with its padding, into a chain, block by block from the word at `at` on. `block` is
// room for one.
pub fn text_step(
    algorithm: Algorithm,
    n: usize,
    chain: Sha256Chain,
    before: usize,
    text: &[u8],
    block: &mut [u32],
    words: &[u32],
    at: usize,
) -> Stepped
    requires { (0 < n) × (n ≤ largest) × (before % 64 ≡ 0) × Hashable (before + length text.now)
        × (length block.old ≡ 16 * n) × (at + blocks_in (length text.now) * (hash algorithm).draws n ≤ length
        words.now) }
    ensures { (blocks (hash algorithm) n (blocks_in (length text.now))
        (publics n (ending (standard algorithm) before text.now)) (used (standard algorithm) n chain.shares)
        words.now at
        ≡ (used (standard algorithm) n result.chain.shares, result.at))
        × (result.at ≡ at + blocks_in (length text.now) * (hash algorithm).draws n) }
{
    let count = blocks_in(text.len());
    let mut c = chain;
    let mut p = at;
    for j in 0..count {
        public_block(n, before, text, j, block);
        let next = hash::compress(algorithm, n, c, block, words, p);
        c = next.chain;
        p = next.at;
    }
    Stepped { chain: c, at: p }
}

// The padding of the digest block, as public words.
fn digest_padding(algorithm: Algorithm, n: usize, z: &mut [u32])
    requires { (0 < n) × (length z.old ≡ (16 - chain_words (standard algorithm)) * n) }
    ensures { z.new ≡ publics n (digest_padding (standard algorithm)) }
{
    match algorithm {
        Algorithm::Sha1 => publish(n, &[0x80000000, 0, 0, 0, 0, 0, 0, 0, 0, 0, 672], z),
        Algorithm::Sha256 => publish(n, &[0x80000000, 0, 0, 0, 0, 0, 0, 768], z),
    }
}

// The digest block: the inner digest in shares, and its padding.
fn digest_block(algorithm: Algorithm, n: usize, inner: &[u32], z: &mut [u32])
    requires { (0 < n) × (length inner.now ≡ chain_words (standard algorithm) * n) × (length inner.now ≤ 8 * n)
        × (length z.old ≡ 16 * n) }
    ensures { z.new ≡ inner.now ++ publics n (digest_padding (standard algorithm)) }
{
    let m = inner.len();
    let end = z.len();
    let front = &mut z[0..m];
    shares::copy(inner, front);
    let rest = &mut z[m..end];
    digest_padding(algorithm, n, rest);
}

// The digest block of the inner chain into the outer chain, from the word at `at` on. `block` is room for one.
pub fn digest_step(
    algorithm: Algorithm,
    n: usize,
    inner: Sha256Chain,
    outer: Sha256Chain,
    block: &mut [u32],
    words: &[u32],
    at: usize,
) -> Stepped
    requires { (0 < n) × (n ≤ largest) × (length block.old ≡ 16 * n)
        × (at + (hash algorithm).draws n ≤ length words.now) }
    ensures { ((hash algorithm).compress n (used (standard algorithm) n outer.shares)
        (used (standard algorithm) n inner.shares ++ publics n (digest_padding (standard algorithm))) words.now at
        ≡ (used (standard algorithm) n result.chain.shares, result.at))
        × (result.at ≡ at + (hash algorithm).draws n) }
{
    let m = chain_end(algorithm, n);
    let all = inner.shares;
    let digest = &all[0..m];
    digest_block(algorithm, n, digest, block);
    hash::compress(algorithm, n, outer, block, words, at)
}

// The inner key block, then a message, from the word at `at` on. `block` is room for one.
fn inner_step(
    algorithm: Algorithm,
    n: usize,
    key: &[u32],
    text: &[u8],
    block: &mut [u32],
    words: &[u32],
    at: usize,
) -> Stepped
    requires { (0 < n) × (n ≤ largest) × (length key.now ≡ 16 * n) × Hashable (64 + length text.now)
        × (length block.old ≡ 16 * n)
        × (at + (hash algorithm).draws n + blocks_in (length text.now) * (hash algorithm).draws n ≤ length words.now) }
    ensures { (inner_hash (hash algorithm) n key.now text.now words.now at
        ≡ (used (standard algorithm) n result.chain.shares, result.at))
        × (result.at ≡ at + (hash algorithm).draws n + blocks_in (length text.now) * (hash algorithm).draws n) }
{
    let start = key_step(algorithm, n, INNER, key, block, words, at);
    text_step(
        algorithm,
        n,
        start.chain,
        BLOCK_BYTES,
        text,
        block,
        words,
        start.at,
    )
}

// The outer key block, then the digest block of the inner chain, from the word at `at` on. `block` is room for one.
fn outer_step(
    algorithm: Algorithm,
    n: usize,
    key: &[u32],
    inner: Sha256Chain,
    block: &mut [u32],
    words: &[u32],
    at: usize,
) -> Stepped
    requires { (0 < n) × (n ≤ largest) × (length key.now ≡ 16 * n) × (length block.old ≡ 16 * n)
        × (at + (hash algorithm).draws n + (hash algorithm).draws n ≤ length words.now) }
    ensures { (outer_hash (hash algorithm) n key.now (used (standard algorithm) n inner.shares)
        words.now at
        ≡ (used (standard algorithm) n result.chain.shares, result.at))
        × (result.at ≡ at + (hash algorithm).draws n + (hash algorithm).draws n) }
{
    let outer = key_step(algorithm, n, OUTER, key, block, words, at);
    digest_step(algorithm, n, inner, outer.chain, block, words, outer.at)
}

// HMAC of a message under a key in shares, from the word at `at` on: the tag, in shares, and the place after. `block`
// is room for one.
fn hmac_shares(
    algorithm: Algorithm,
    n: usize,
    key: &[u32],
    text: &[u8],
    block: &mut [u32],
    words: &[u32],
    at: usize,
) -> Stepped
    requires { (0 < n) × (n ≤ largest) × (length key.now ≡ 16 * n) × Hashable (64 + length text.now)
        × (length block.old ≡ 16 * n) × (at + hmac_draws (hash algorithm) n (length text.now) ≤ length words.now) }
    ensures { (hmac_shares (hash algorithm) n key.now text.now words.now at
        ≡ (used (standard algorithm) n result.chain.shares, result.at))
        × (result.at ≡ at + hmac_draws (hash algorithm) n (length text.now)) }
{
    let inner = inner_step(algorithm, n, key, text, block, words, at);
    outer_step(algorithm, n, key, inner.chain, block, words, inner.at)
}

// HMAC of a message under a key in shares, from the word at `at` on: the tag, opened, and the place after.
pub fn hmac_tag(
    algorithm: Algorithm,
    n: usize,
    key: &[u32],
    text: &[u8],
    tag: &mut [u8],
    words: &[u32],
    at: usize,
) -> usize
    requires { (0 < n) × (n ≤ largest) × (length key.now ≡ 16 * n) × Hashable (64 + length text.now)
        × (length tag.old ≡ digest_bytes (standard algorithm))
        × (at + hmac_draws (hash algorithm) n (length text.now) ≤ length words.now) }
    ensures { hmac_tag (hash algorithm) n key.now text.now words.now at
        ≡ (tag.new, result) }
{
    let end = BLOCK_WORDS * n;
    let mut block0 = [0u32; BLOCK];
    let block = &mut block0[0..end];
    let last = hmac_shares(algorithm, n, key, text, block, words, at);
    tags::tag_bytes(algorithm.into(), n, last.chain, tag);
    last.at
}
