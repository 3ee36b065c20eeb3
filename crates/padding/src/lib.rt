// What is hashed after so many bytes that went into the chain already: a text with its padding, byte by byte, word by
// word and block by block, as public values. SHA-1 and SHA-256 have the same padding; it is said of SHA-1.
#![tactic(auto)]

ghost use Rattle.std.specs.Prelude.{◌≡◌, ◌+◌, ◌*◌, ◌/◌, ◌%◌, ◌^◌, ◌<◌, length, get_or, take, drop, replicate};
ghost use Rattle.rules.specs.Hash.{ended, ending};
ghost use Rattle.rules.specs.Standard.{SHA1};
ghost use Rattle.padding.specs.Whole.{Hashable, blocks_in};

use rules::{BLOCK_BYTES, BLOCK_WORDS, LENGTH_BYTES, WORD_BYTES};

// How many blocks a text of so many bytes makes with its padding.
pub fn blocks_in(length: usize) -> usize
    requires { Hashable length }
    ensures { result ≡ blocks_in length }
{
    (length + LENGTH_BYTES) / BLOCK_BYTES + 1
}

// Byte i of the text with its padding.
fn byte_at(before: usize, text: &[u8], i: usize) -> u8
    requires { (before % 64 ≡ 0) × Hashable (before + length text.now) × (i < blocks_in (length text.now) * 64) }
    ensures { result ≡ get_or (ended (SHA1 32) before text.now) i 0 }
{
    let l = text.len();
    if i < l {
        return text[i];
    }
    if i == l {
        return 0x80;
    }
    let end = blocks_in(l) * BLOCK_BYTES;
    if i + LENGTH_BYTES < end {
        return 0;
    }
    ((before + l) * 8).to_be_bytes()[i + LENGTH_BYTES - end]
}

// Word i of the text with its padding.
fn word_at(before: usize, text: &[u8], i: usize) -> u32
    requires { (before % 64 ≡ 0) × Hashable (before + length text.now) × (i < blocks_in (length text.now) * 16) }
    ensures { result ≡ get_or (ending (SHA1 32) before text.now) i 0 }
{
    let p = WORD_BYTES * i;
    u32::from_be_bytes([
        byte_at(before, text, p),
        byte_at(before, text, p + 1),
        byte_at(before, text, p + 2),
        byte_at(before, text, p + 3),
    ])
}

// Block j of the text with its padding, as 16 words.
pub fn block_words(before: usize, text: &[u8], j: usize, z: &mut [u32])
    requires { (before % 64 ≡ 0) × Hashable (before + length text.now) × (j < blocks_in (length text.now))
        × (length z.old ≡ 16) }
    ensures { z.new ≡ take 16 (drop (16 * j) (ending (SHA1 32) before text.now)) }
{
    for (w, v) in z.iter_mut().enumerate() {
        *v = word_at(before, text, BLOCK_WORDS * j + w);
    }
}

// Block j of the padding after so many bytes that stand elsewhere, as 16 words: 0 where they stand.
pub fn padding_words(bytes: usize, j: usize, z: &mut [u32])
    requires { Hashable bytes × (j < blocks_in bytes) × (length z.old ≡ 16) }
    ensures { z.new ≡ take 16 (drop (16 * j) (ending (SHA1 32) 0 (replicate bytes 0))) }
{
    let full = bytes / BLOCK_BYTES;
    if j < full {
        z.fill(0);
        return;
    }
    let left = bytes % BLOCK_BYTES;
    let none = [0u8; BLOCK_BYTES];
    let rest = &none[0..left];
    block_words(full * BLOCK_BYTES, rest, j - full, z);
}
