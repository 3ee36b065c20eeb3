// Keys in shares: a key of at most one block, and a longer one, which is hashed in shares.
#![tactic(auto)]

ghost use Rattle.std.specs.Prelude.{◌≡◌, ◌+◌, ◌-◌, ◌*◌, ◌/◌, ◌≤◌, ◌<◌, length, take, drop};
ghost use Rattle.rules.specs.Numbers.{largest, longest_key};
ghost use Rattle.rules.specs.Hash.{filled};
ghost use Rattle.rules.specs.Sha1.{publics};
ghost use Rattle.rules.specs.Hmac.{used, splits, blocks, key_words, hash_key, split_key};
ghost use Rattle.rules.specs.Counts.{key_draws};
ghost use Rattle.rules.specs.Standard.{SHA1};
ghost use Rattle.hash.specs.Hash.{hash, standard};
ghost use Rattle.padding.specs.Whole.{blocks_in};
ghost use Rattle.key_words.specs.Held.{held};
ghost use Rattle.keys.specs.Padded.{padded};

use hash::{Stepped, chain_end, mark};
use key_words::{held_block, last_shares};
use padding::{blocks_in, padding_words};
use rules::{Algorithm, BLOCK_BYTES, BLOCK_WORDS, KEY, Sha256Chain, WORD_BYTES};

// A key of at most one block into shares, from the word at `at` on; the place after.
fn short_key(n: usize, key: &[u8], shares: &mut [u32], words: &[u32], at: usize) -> usize
    requires { (0 < n) × (n ≤ largest) × (length shares.old ≡ 16 * n) × (at + 16 * (n - 1) ≤ length words.now) }
    ensures { splits n (key_words (SHA1 32) 16 key.now) words.now at
        ≡ (shares.new, result) }
{
    let mut lasts = [0u32; BLOCK_WORDS];
    let p = last_shares(n, key, &mut lasts, words, at);
    held_block(n, &lasts, 0, shares, words, at);
    p
}

// ---- a longer key

// z becomes block j of a key of so many bytes, with its padding.
fn padded_block(
    n: usize,
    bytes: usize,
    lasts: &[u32],
    j: usize,
    z: &mut [u32],
    words: &[u32],
    at: usize,
)
    requires { (0 < n) × (bytes ≤ longest_key) × (j < blocks_in bytes) × (length z.old ≡ 16 * n)
        × (at + length lasts.now * (n - 1) ≤ length words.now) }
    ensures { z.new
        ≡ take (16 * n) (drop (j * (16 * n)) (padded n bytes (held n lasts.now words.now at))) }
{
    held_block(n, lasts, j, z, words, at);
    let mut values = [0u32; BLOCK_WORDS];
    padding_words(bytes, j, &mut values);
    mark(n, &values, z);
}

// The key of so many bytes, hashed from the word at p on. Its words were split from the word at `at` on. `block` is
// room
// for one.
fn hash_key(
    algorithm: Algorithm,
    n: usize,
    bytes: usize,
    lasts: &[u32],
    block: &mut [u32],
    words: &[u32],
    at: usize,
    p: usize,
) -> Stepped
    requires { (0 < n) × (n ≤ largest) × (bytes ≤ longest_key) × (length block.old ≡ 16 * n)
        × (at + length lasts.now * (n - 1) ≤ length words.now)
        × (p + blocks_in bytes * (hash algorithm).draws n ≤ length words.now) }
    ensures { blocks (hash algorithm) n (blocks_in bytes)
        (padded n bytes (held n lasts.now words.now at))
        (publics n (standard algorithm).start) words.now p
        ≡ (used (standard algorithm) n result.chain.shares, result.at) }
{
    let count = blocks_in(bytes);
    let mut c = hash::start(algorithm, n);
    let mut q = p;
    for j in 0..count {
        padded_block(n, bytes, lasts, j, block, words, at);
        let next = hash::compress(algorithm, n, c, block, words, q);
        c = next.chain;
        q = next.at;
    }
    Stepped { chain: c, at: q }
}

// The digest's words, then zero shares.
fn digest_block(algorithm: Algorithm, n: usize, chain: Sha256Chain, z: &mut [u32])
    requires { (n ≤ largest) × (length z.old ≡ 16 * n) }
    ensures { z.new ≡ filled (16 * n) (used (standard algorithm) n chain.shares) }
{
    let m = chain_end(algorithm, n);
    let all = chain.shares;
    let digest = &all[0..m];
    z.fill(0);
    let front = &mut z[0..m];
    shares::copy(digest, front);
}

// The key's words split, then hashed, from the word at `at` on. `lasts` is room for the last shares, `block` for a
// block.
fn key_digest(
    algorithm: Algorithm,
    n: usize,
    key: &[u8],
    lasts: &mut [u32],
    block: &mut [u32],
    words: &[u32],
    at: usize,
) -> Stepped
    requires { (0 < n) × (n ≤ largest) × (64 < length key.now) × (length key.now ≤ longest_key)
        × (length lasts.old ≡ (length key.now + 3) / 4) × (length block.old ≡ 16 * n)
        × (at + key_draws (hash algorithm) n (length key.now) ≤ length words.now) }
    ensures { hash_key (hash algorithm) n key.now words.now at
        ≡ (filled (16 * n) (used (standard algorithm) n result.chain.shares), result.at) }
{
    let p = last_shares(n, key, lasts, words, at);
    hash_key(algorithm, n, key.len(), lasts, block, words, at, p)
}

// A key over one block into shares, from the word at `at` on; the place after. Until the digest stands there, `shares`
// is
// room for a block.
fn long_key(
    algorithm: Algorithm,
    n: usize,
    key: &[u8],
    shares: &mut [u32],
    words: &[u32],
    at: usize,
) -> usize
    requires { (0 < n) × (n ≤ largest) × (64 < length key.now) × (length key.now ≤ longest_key)
        × (length shares.old ≡ 16 * n) × (at + key_draws (hash algorithm) n (length key.now) ≤ length words.now) }
    ensures { hash_key (hash algorithm) n key.now words.now at ≡ (shares.new, result) }
{
    let count = (key.len() + (WORD_BYTES - 1)) / WORD_BYTES;
    let mut all = [0u32; KEY];
    let lasts = &mut all[0..count];
    let made = key_digest(algorithm, n, key, lasts, shares, words, at);
    digest_block(algorithm, n, made.chain, shares);
    made.at
}

// A key into shares, from the word at `at` on; the place after.
pub fn split_key(
    algorithm: Algorithm,
    n: usize,
    key: &[u8],
    shares: &mut [u32],
    words: &[u32],
    at: usize,
) -> usize
    requires { (0 < n) × (n ≤ largest) × (length key.now ≤ longest_key) × (length shares.old ≡ 16 * n)
        × (at + key_draws (hash algorithm) n (length key.now) ≤ length words.now) }
    ensures { split_key (hash algorithm) n key.now words.now at ≡ (shares.new, result) }
{
    if BLOCK_BYTES < key.len() {
        return long_key(algorithm, n, key, shares, words, at);
    }
    short_key(n, key, shares, words, at)
}
