// The hashes that HMAC is over: how many words a chain has, the one that starts a hash, and the
// compression. The one crate that says which there are.
#![tactic(auto)]

ghost use Rattle.std.specs.Prelude.{◌≡◌, ◌++◌, ◌+◌, ◌-◌, ◌*◌, ◌≤◌, ◌<◌, length, get_or, set, take, replicate};
ghost use Rattle.std.specs.Int.Bits.{bit_xor};
ghost use Rattle.rules.specs.Numbers.{largest};
ghost use Rattle.rules.specs.Hash.{chain_words, filled};
ghost use Rattle.rules.specs.Sha1.{publics};
ghost use Rattle.rules.specs.Hmac.{chain_room, used, marked};
ghost use Rattle.rules.specs.Calls.{compressed};
ghost use Rattle.rules.specs.Stream.{state_room};
ghost use Rattle.hash.specs.Hash.{hash, standard};

use rules::{
    Algorithm, BLOCK, BLOCK_WORDS, CHAIN_WORDS, SHA256_CHAIN, SHA256_CHAIN_WORDS, Sha256Chain,
};

// ---- public words

// A constant goes into share 1 of word w.
fn mark_at(n: usize, w: usize, v: u32, z: &mut [u32])
    requires { w * n < length z.old }
    ensures { z.new ≡ set z.old (w * n) (bit_xor (get_or z.old (w * n) 0) v) }
{
    let p = w * n;
    z[p] = z[p] ^ v;
}

// Constants go into share 1, one for each word.
pub fn mark(n: usize, values: &[u32], z: &mut [u32])
    requires { (0 < n) × (length z.old ≡ length values.now * n) }
    ensures { z.new ≡ marked n values.now z.old }
{
    for (w, v) in values.iter().enumerate() {
        mark_at(n, w, *v, z);
    }
}

// Public words into shares: z becomes (v, 0, …, 0) for each word v.
pub fn publish(n: usize, values: &[u32], z: &mut [u32])
    requires { (0 < n) × (length z.old ≡ length values.now * n) }
    ensures { z.new ≡ publics n values.now }
{
    z.fill(0);
    mark(n, values, z);
}

// ---- what the hashes differ in

// The words of a chain.
pub fn chain_words(algorithm: Algorithm) -> usize
    ensures { (result ≡ chain_words (standard algorithm)) × (result ≤ 8) }
{
    match algorithm {
        Algorithm::Sha1 => CHAIN_WORDS,
        Algorithm::Sha256 => SHA256_CHAIN_WORDS,
    }
}

// The places of a chain that are used.
pub fn chain_end(algorithm: Algorithm, n: usize) -> usize
    requires { n ≤ largest }
    ensures { (result ≡ chain_words (standard algorithm) * n) × (result ≤ 8 * n) }
{
    chain_words(algorithm) * n
}

// The starting chains.
const SHA1_START: [u32; CHAIN_WORDS] = [0x67452301, 0xefcdab89, 0x98badcfe, 0x10325476, 0xc3d2e1f0];

const SHA256_START: [u32; SHA256_CHAIN_WORDS] = [
    0x6a09e667, 0xbb67ae85, 0x3c6ef372, 0xa54ff53a, 0x510e527f, 0x9b05688c, 0x1f83d9ab, 0x5be0cd19,
];

// The one of a hash, as public words.
fn start_in(algorithm: Algorithm, n: usize, z: &mut [u32])
    requires { (0 < n) × (length z.old ≡ chain_words (standard algorithm) * n) }
    ensures { z.new ≡ publics n (standard algorithm).start }
{
    match algorithm {
        Algorithm::Sha1 => publish(n, &SHA1_START, z),
        Algorithm::Sha256 => publish(n, &SHA256_START, z),
    }
}

// The chain z becomes the one after a block of 16n words, which is used up, from the word at `at` on.
fn compress_at(
    algorithm: Algorithm,
    n: usize,
    block: &mut [u32],
    z: &mut [u32],
    words: &[u32],
    at: usize,
) -> usize
    requires { (0 < n) × (n ≤ largest) × (length block.old ≡ 16 * n)
        × (length z.old ≡ chain_words (standard algorithm) * n)
        × (at + (hash algorithm).draws n ≤ length words.now) }
    ensures { ((hash algorithm).compress n z.old block.old words.now at
        ≡ (z.new, result))
        × (length z.new ≡ chain_words (standard algorithm) * n) × (result ≡ at + (hash algorithm).draws n) }
{
    match algorithm {
        Algorithm::Sha1 => masked_sha1::compress_at(n, block, z, words, at),
        Algorithm::Sha256 => sha256::compress_at(n, block, z, words, at),
    }
}

// ---- chains as a state keeps them

// A chain, and the place after the words that went into it.
#[derive(Clone, Copy)]
pub struct Stepped {
    pub chain: Sha256Chain,
    pub at: usize,
}

// The chain that starts a hash.
pub fn start(algorithm: Algorithm, n: usize) -> Sha256Chain
    requires { (0 < n) × (n ≤ largest) }
    ensures { used (standard algorithm) n result.shares ≡ publics n (standard algorithm).start }
{
    let end = chain_end(algorithm, n);
    let mut all = [0u32; SHA256_CHAIN];
    let front = &mut all[0..end];
    start_in(algorithm, n, front);
    Sha256Chain { shares: all }
}

// One compression, of a block of 16n words into a chain, from the word at `at` on. The block is used up.
pub fn compress(
    algorithm: Algorithm,
    n: usize,
    chain: Sha256Chain,
    block: &mut [u32],
    words: &[u32],
    at: usize,
) -> Stepped
    requires { (0 < n) × (n ≤ largest) × (length block.old ≡ 16 * n)
        × (at + (hash algorithm).draws n ≤ length words.now) }
    ensures { ((hash algorithm).compress n (used (standard algorithm) n chain.shares) block.old
        words.now at ≡ (used (standard algorithm) n result.chain.shares, result.at))
        × (result.at ≡ at + (hash algorithm).draws n) }
{
    let end = chain_end(algorithm, n);
    let mut all = chain.shares;
    let z = &mut all[0..end];
    let p = compress_at(algorithm, n, block, z, words, at);
    Stepped {
        chain: Sha256Chain { shares: all },
        at: p,
    }
}

// 0 from the place `end` on.
fn clear_rest(end: usize, chain: &mut [u32])
    requires { end ≤ length chain.old }
    ensures { chain.new ≡ take end chain.old
        ++ replicate (length chain.old - end) 0 }
{
    let room = chain.len();
    let rest = &mut chain[end..room];
    rest.fill(0);
}

// A chain with 0 in its unused words.
pub fn cleared(algorithm: Algorithm, n: usize, chain: Sha256Chain) -> Sha256Chain
    requires { n ≤ largest }
    ensures { result ≡ record { shares = filled state_room (used (standard algorithm) n chain.shares) } }
{
    let end = chain_end(algorithm, n);
    let mut all = chain.shares;
    clear_rest(end, &mut all);
    Sha256Chain { shares: all }
}

// ---- a chain record of any hash, lent

// The record becomes the one after a block, which is used up, with 0 in its unused words, from the word at `at` on.
fn compress_in(
    algorithm: Algorithm,
    n: usize,
    chain: &mut [u32],
    block: &mut [u32],
    words: &[u32],
    at: usize,
) -> usize
    requires { (0 < n) × (n ≤ largest) × (length block.old ≡ 16 * n)
        × (length chain.old ≡ chain_room (standard algorithm))
        × (at + (hash algorithm).draws n ≤ length words.now) }
    ensures { compressed (hash algorithm) n chain.old block.old words.now at
        ≡ (chain.new, result) }
{
    let end = chain_end(algorithm, n);
    clear_rest(end, chain);
    let z = &mut chain[0..end];
    compress_at(algorithm, n, block, z, words, at)
}

// The same of a block that stays as it is.
pub fn compress_record(
    algorithm: Algorithm,
    n: usize,
    chain: &mut [u32],
    block: &[u32],
    words: &[u32],
    at: usize,
) -> usize
    requires { (0 < n) × (n ≤ largest) × (length block.now ≡ 16 * n)
        × (length chain.old ≡ chain_room (standard algorithm))
        × (at + (hash algorithm).draws n ≤ length words.now) }
    ensures { compressed (hash algorithm) n chain.old block.now words.now at
        ≡ (chain.new, result) }
{
    let m = BLOCK_WORDS * n;
    let mut u0 = [0u32; BLOCK];
    let u = &mut u0[0..m];
    shares::copy(block, u);
    compress_in(algorithm, n, chain, u, words, at)
}
