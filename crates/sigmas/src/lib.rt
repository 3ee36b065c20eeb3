// Σ and σ of SHA-256 on words of n shares, share by share, by how far they rotate to the right.
#![tactic(auto)]

ghost use Rattle.std.specs.Prelude.{◌≡◌, map, length};
ghost use Rattle.rules.specs.Sha256.{turns, falls};
ghost use Rattle.sigmas.specs.Places.{Places};

use masked_words::rotate_share;

// Σ of one share: three rotations.
fn turned_share(p: u32, q: u32, r: u32, x: u32) -> u32
    requires { Places p q r }
    ensures { result ≡ turns 32 p q r x }
{
    rotate_share(x, 32 - p) ^ rotate_share(x, 32 - q) ^ rotate_share(x, 32 - r)
}

// σ of one share: two rotations, and a shift.
fn fallen_share(p: u32, q: u32, r: u32, x: u32) -> u32
    requires { Places p q r }
    ensures { result ≡ falls 32 p q r x }
{
    rotate_share(x, 32 - p) ^ rotate_share(x, 32 - q) ^ (x >> r)
}

// z becomes Σ of x.
pub fn upper(p: u32, q: u32, r: u32, x: &[u32], z: &mut [u32])
    requires { Places p q r × (length z.old ≡ length x.now) }
    ensures { z.new ≡ map (turns 32 p q r) x.now }
{
    for (i, v) in x.iter().enumerate() {
        z[i] = turned_share(p, q, r, *v);
    }
}

// z becomes σ of x.
pub fn lower(p: u32, q: u32, r: u32, x: &[u32], z: &mut [u32])
    requires { Places p q r × (length z.old ≡ length x.now) }
    ensures { z.new ≡ map (falls 32 p q r) x.now }
{
    for (i, v) in x.iter().enumerate() {
        z[i] = fallen_share(p, q, r, *v);
    }
}
