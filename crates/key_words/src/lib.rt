// A key's words in shares: split one after the other, of each the last share kept, and put together again by blocks. No
// word of a key waits on the stack: its mask is ready when it is read.
#![tactic(auto)]

ghost use Rattle.std.specs.Prelude.{◌≡◌, [], ◌∷◌, ◌++◌, ◌+◌, ◌-◌, ◌*◌, ◌≤◌, ◌<◌, length, get_or, take, drop};
ghost use Rattle.rules.specs.Supply.{next, opened};
ghost use Rattle.rules.specs.Numbers.{largest, longest_key};
ghost use Rattle.rules.specs.Hash.{number_of, filled};
ghost use Rattle.rules.specs.Sha1.{word};
ghost use Rattle.rules.specs.Hmac.{key_words};
ghost use Rattle.rules.specs.Standard.{SHA1};
ghost use Rattle.key_words.specs.Held.{last_shares, held};

use rules::{BLOCK_WORDS, LARGEST, WORD_BYTES};

// ---- words

// Byte i of the key, or 0 past its end.
fn key_byte(key: &[u8], i: usize) -> u8
    ensures { result ≡ get_or key.now i 0 }
{
    if i < key.len() {
        return key[i];
    }
    0
}

// Word i of the key, filled with zero bytes.
fn key_word(key: &[u8], i: usize) -> u32
    requires { i < longest_key }
    ensures { result ≡ number_of 4 (drop (4 * i) key.now) }
{
    let p = WORD_BYTES * i;
    u32::from_be_bytes([
        key_byte(key, p),
        key_byte(key, p + 1),
        key_byte(key, p + 2),
        key_byte(key, p + 3),
    ])
}

// ---- split, and of each the last share kept

// The XOR of the next n − 1 words, from the one at `at` on.
fn mask_at(n: usize, words: &[u32], at: usize) -> u32
    requires { (0 < n) × (n ≤ largest) × (at + (n - 1) ≤ length words.now) }
    ensures { result ≡ opened (next (n - 1) words.now at).0 }
{
    let mut all = [0u32; LARGEST];
    let m = n - 1;
    let drawn = &mut all[0..m];
    shares::draw_each(drawn, words, at);
    shares::open_xor(drawn)
}

// z becomes the last shares of the key's words, from the word at `at` on; the place after.
pub fn last_shares(n: usize, key: &[u8], z: &mut [u32], words: &[u32], at: usize) -> usize
    requires { (0 < n) × (n ≤ largest) × (length z.old ≤ longest_key)
        × (at + length z.old * (n - 1) ≤ length words.now) }
    ensures { (z.new
        ≡ last_shares n (key_words (SHA1 32) (length z.old) key.now) words.now at)
        × (result ≡ at + length z.old * (n - 1)) }
{
    let mut p = at;
    for (w, last) in z.iter_mut().enumerate() {
        let mask = mask_at(n, words, p);
        *last = key_word(key, w) ^ mask;
        p += n - 1;
    }
    p
}

// ---- in shares again

// z becomes a word in shares: those that stand in the supply, where they were drawn from the place `at` on, and the
// last.
fn share_word(last: u32, z: &mut [u32], words: &[u32], at: usize)
    requires { (0 < length z.old) × (at + (length z.old - 1) ≤ length words.now) }
    ensures { z.new ≡ (next (length z.old - 1) words.now at).0 ++ (last ∷ []) }
{
    let m = z.len() - 1;
    let end = at + m;
    let drawn = &words[at..end];
    let front = &mut z[0..m];
    shares::copy(drawn, front);
    z[m] = last;
}

// z becomes word i of the key; zeros after its last word.
fn held_word(n: usize, lasts: &[u32], i: usize, z: &mut [u32], words: &[u32], at: usize)
    requires { (0 < n) × (length z.old ≡ n) × (at + length lasts.now * (n - 1) ≤ length words.now) }
    ensures { z.new
        ≡ word n i (filled (i * n + n) (held n lasts.now words.now at)) }
{
    if lasts.len() <= i {
        z.fill(0);
        return;
    }
    share_word(lasts[i], z, words, at + i * (n - 1));
}

// Word w of a block becomes word i of the key.
fn put_word(n: usize, w: usize, lasts: &[u32], i: usize, z: &mut [u32], words: &[u32], at: usize)
    requires { (0 < n) × (w * n + n ≤ length z.old) × (at + length lasts.now * (n - 1) ≤ length words.now) }
    ensures { take (w * n + n) z.new ≡ take (w * n) z.old
        ++ word n i (filled (i * n + n) (held n lasts.now words.now at)) }
{
    let from = w * n;
    let end = from + n;
    let part = &mut z[from..end];
    held_word(n, lasts, i, part, words, at);
}

// z becomes block j of the key.
pub fn held_block(n: usize, lasts: &[u32], j: usize, z: &mut [u32], words: &[u32], at: usize)
    requires { (0 < n) × (j ≤ longest_key) × (length z.old ≡ 16 * n)
        × (at + length lasts.now * (n - 1) ≤ length words.now) }
    ensures { z.new ≡ take (16 * n) (drop (j * (16 * n))
        (filled (j * (16 * n) + 16 * n) (held n lasts.now words.now at))) }
{
    for w in 0..BLOCK_WORDS {
        put_word(n, w, lasts, BLOCK_WORDS * j + w, z, words, at);
    }
}
