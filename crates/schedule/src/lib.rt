// The schedule of masked SHA-1 in a window of sixteen words in n shares each: a ring, in which the next word of the
// schedule takes the place of the one that is no longer needed.
#![tactic(auto)]

ghost use Rattle.std.specs.Prelude.{◌≡◌, [], ◌∷◌, ◌++◌, ◌+◌, ◌*◌, ◌%◌, ◌≤◌, ◌<◌, length, drop};
ghost use Rattle.std.specs.Int.Bits.{bit_xor};
ghost use Rattle.rules.specs.Numbers.{largest};
ghost use Rattle.rules.specs.Shares.{each};
ghost use Rattle.rules.specs.Sha1.{rotated, ago, following};
ghost use Rattle.masked_words.specs.Words.{Sized, turned};
ghost use Rattle.schedule.specs.Window.{slid};

use masked_words::{put_turned, rotate_share, turned_word};
use rules::{BLOCK_WORDS, LARGEST, ROUNDS};

// The word j before the end of the window u, which begins at word r.
fn ago(n: usize, r: usize, u: &[u32], j: usize) -> &[u32]
    requires { (r < 16) × (1 ≤ j) × (j ≤ 16) × (length u.now ≡ 16 * n) }
    ensures { (result.now ≡ ago n j (turned n r u.now)) × (length result.now ≡ n) }
{
    turned_word(u, n, BLOCK_WORDS, r, BLOCK_WORDS - j)
}

// z becomes the XOR of four words, rotated by 1.
fn mixed(n: usize, a: &[u32], b: &[u32], c: &[u32], d: &[u32], z: &mut [u32])
    requires { Sized n (a.now ∷ b.now ∷ c.now ∷ d.now ∷ z.old ∷ []) }
    ensures { z.new ≡ rotated 32 1 (each bit_xor (each bit_xor (each bit_xor
        a.now b.now) c.now) d.now) }
{
    for i in 0..n {
        z[i] = rotate_share(a[i] ^ b[i] ^ c[i] ^ d[i], 1);
    }
}

// z becomes the word that follows those of the window u, from those 3, 8, 14 and 16 before it.
fn following_at(n: usize, r: usize, u: &[u32], z: &mut [u32])
    requires { (r < 16) × (length u.now ≡ 16 * n) × (length z.old ≡ n) }
    ensures { z.new ≡ following 32 n (turned n r u.now) }
{
    mixed(
        n,
        ago(n, r, u, 3),
        ago(n, r, u, 8),
        ago(n, r, u, 14),
        ago(n, r, u, 16),
        z,
    );
}

// The word that follows those of the window u takes the place of the first, and the window begins one word later.
fn replace(n: usize, r: usize, u: &mut [u32])
    requires { (n ≤ largest) × (r < 16) × (length u.old ≡ 16 * n) }
    ensures { turned n ((r + 1) % 16) u.new
        ≡ drop n (turned n r u.old) ++ following 32 n (turned n r u.old) }
{
    let mut x0 = [0u32; LARGEST];
    let x = &mut x0[0..n];
    following_at(n, r, u, x);
    put_turned(n, BLOCK_WORDS, r, 0, x, u);
}

// The window u of round t becomes that of round t + 1: word t + 16, where there is one, in the place of word t.
pub fn slide(n: usize, t: usize, u: &mut [u32])
    requires { (n ≤ largest) × (length u.old ≡ 16 * n) }
    ensures { turned n ((t + 1) % 16) u.new ≡ slid 32 n t (turned n (t % 16) u.old) }
{
    if t < ROUNDS - BLOCK_WORDS {
        replace(n, t % BLOCK_WORDS, u);
    }
}
