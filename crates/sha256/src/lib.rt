// The compression of masked SHA-256: a block of sixteen words into a chain of eight, all in n shares.
#![tactic(auto)]

ghost use Rattle.std.specs.Prelude.{◌≡◌, ◌+◌, ◌*◌, ◌≤◌, ◌<◌, length};
ghost use Rattle.rules.specs.Numbers.{largest};
ghost use Rattle.rules.specs.Shares.{add};
ghost use Rattle.rules.specs.Sha256.{schedule, compress};
ghost use Rattle.rules.specs.Counts.{and_draws, compress256_ands};

use rounds256::rounds_at;
use rules::{LARGEST, SHA256_CHAIN, SHA256_CHAIN_WORDS, SHA256_ROUNDS};
use schedule256::schedule_at;
use sums::sums_at;

// Room for the schedule at the largest share count.
const SCHEDULE: usize = SHA256_ROUNDS * LARGEST;

// u becomes the schedule of a block.
fn scheduled(n: usize, block: &[u32], u: &mut [u32], words: &[u32], at: usize) -> usize
    requires { (n ≤ largest) × (length block.now ≡ 16 * n) × (length u.old ≡ 64 * n)
        × (at + 48 * (96 * and_draws n) ≤ length words.now) }
    ensures { (schedule 32 (add 32) n 48 block.now words.now at ≡ (u.new, result))
        × (result ≡ at + 48 * (96 * and_draws n)) }
{
    shares::put(block, u, 0);
    schedule_at(n, u, words, at)
}

// The chain z becomes the one after a block.
pub fn compress_at(n: usize, block: &[u32], z: &mut [u32], words: &[u32], at: usize) -> usize
    requires { (0 < n) × (n ≤ largest) × (length block.now ≡ 16 * n) × (length z.old ≡ 8 * n)
        × (at + compress256_ands 32 * and_draws n ≤ length words.now) }
    ensures { (compress 32 (add 32) n z.old block.now words.now at
        ≡ (z.new, result))
        × (length z.new ≡ 8 * n) × (result ≡ at + compress256_ands 32 * and_draws n) }
{
    let m = z.len();
    let end = SHA256_ROUNDS * n;
    let mut u0 = [0u32; SCHEDULE];
    let mut s0 = [0u32; SHA256_CHAIN];
    let u = &mut u0[0..end];
    let s = &mut s0[0..m];
    shares::copy(z, s);
    let p = scheduled(n, block, u, words, at);
    let q = rounds_at(n, u, s, words, p);
    sums_at(n, SHA256_CHAIN_WORDS, s, z, words, q)
}
