// The compression of masked SHA-1: a block of sixteen words into a chain of five, all in n shares.
#![tactic(auto)]

ghost use Rattle.std.specs.Prelude.{◌≡◌, ◌+◌, ◌*◌, ◌≤◌, ◌<◌, length};
ghost use Rattle.rules.specs.Numbers.{largest};
ghost use Rattle.rules.specs.Shares.{add};
ghost use Rattle.rules.specs.Sha1.{compress};
ghost use Rattle.rules.specs.Counts.{compress_draws};

use rounds::rounds_at;
use rules::{CHAIN, CHAIN_WORDS};
use sums::sums_at;

// The chain z becomes the one after a block, which is used up: the schedule takes its place.
pub fn compress_at(n: usize, block: &mut [u32], z: &mut [u32], words: &[u32], at: usize) -> usize
    requires { (0 < n) × (n ≤ largest) × (length block.old ≡ 16 * n) × (length z.old ≡ 5 * n)
        × (at + compress_draws 32 n ≤ length words.now) }
    ensures { (compress 32 (add 32) n z.old block.old words.now at
        ≡ (z.new, result))
        × (length z.new ≡ 5 * n) × (result ≡ at + compress_draws 32 n) }
{
    let m = z.len();
    let mut s0 = [0u32; CHAIN];
    let s = &mut s0[0..m];
    shares::copy(z, s);
    let p = rounds_at(n, block, s, words, at);
    sums_at(n, CHAIN_WORDS, s, z, words, p)
}
