// Two texts compared in a time and by a path that their lengths alone decide, so that nobody finds a tag byte by byte.
#![tactic(auto)]

ghost use Rattle.std.specs.Prelude.{◌≡◌, eqb, length};
ghost use Rattle.rules.specs.Numbers.{choose};
ghost use Rattle.rules.specs.Calls.{same, same_tag};

// The bits in which the bytes at any place differ, of all places together: 0 where all bytes are the same.
fn differing(a: &[u8], b: &[u8]) -> u8
    requires { length a.now ≡ length b.now }
    ensures { eqb result 0 ≡ same a.now b.now }
{
    let mut found: u8 = 0;
    for i in 0..a.len() {
        found = found | (a[i] ^ b[i]);
    }
    found
}

// 1 where no bit was found, else 0, and no branch to tell which.
fn none(found: u8) -> u32
    ensures { result ≡ choose (eqb found 0) 1 0 }
{
    (256 - found as u32) / 256
}

// 1 where both have the same length and the same bytes, else 0.
pub fn same_tag(a: &[u8], b: &[u8]) -> u32
    ensures { same_tag a.now b.now ≡ result }
{
    if a.len() != b.len() {
        return 0;
    }
    none(differing(a, b))
}
