// A tag in shares, opened: the one place where HMAC hands something out in the clear.
#![tactic(auto)]

ghost use Rattle.std.specs.Prelude.{◌≡◌, ◌++◌, ◌+◌, ◌*◌, ◌≤◌, length, take};
ghost use Rattle.rules.specs.Numbers.{largest};
ghost use Rattle.rules.specs.Hash.{digest_bytes, all_bytes, bytes_of};
ghost use Rattle.rules.specs.Sha1.{open_words};
ghost use Rattle.rules.specs.Hmac.{used, tag_of};
ghost use Rattle.rules.specs.Counts.{standard_of};

use hash::{chain_end, chain_words};
use rules::{Algorithm, Sha256Chain, WORD_BYTES};

// Word w of a tag becomes the bytes of v, the highest first.
fn put_bytes(v: u32, w: usize, tag: &mut [u8])
    requires { 4 * w + 4 ≤ length tag.old }
    ensures { take (4 * w + 4) tag.new ≡ take (4 * w) tag.old ++ bytes_of 4 v }
{
    let i = WORD_BYTES * w;
    tag[i..i + WORD_BYTES].copy_from_slice(&v.to_be_bytes());
}

// So many words in shares, opened: their bytes.
fn open_bytes(n: usize, count: usize, digest: &[u32], tag: &mut [u8])
    requires { (length digest.now ≡ count * n) × (length tag.old ≡ count * 4) }
    ensures { tag.new ≡ all_bytes 4 (open_words n count digest.now) }
{
    for w in 0..count {
        let v = shares::open_xor(masked_words::word(digest, n, w));
        put_bytes(v, w, tag);
    }
}

// A tag in shares, opened: its bytes. The hash goes by its code, as a state carries it.
pub fn tag_bytes(code: u32, n: usize, chain: Sha256Chain, tag: &mut [u8])
    requires { (n ≤ largest) × (length tag.old ≡ digest_bytes (standard_of 32 code)) }
    ensures { tag.new ≡ tag_of (standard_of 32 code) n (used (standard_of 32 code) n chain.shares) }
{
    let algorithm = Algorithm::from(code);
    let end = chain_end(algorithm, n);
    let all = chain.shares;
    open_bytes(n, chain_words(algorithm), &all[0..end], tag);
}
