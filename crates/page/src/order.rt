// Which of two pairs stands first, or of two numbers, and which pairs no entry may have.
ghost use Rattle.std.specs.Prelude.{◌≡◌, ◌^◌, ◌≤◌, ◌<◌, ltb};
ghost use Rattle.lists.specs.Lists.{b2n};
ghost use Rattle.page.specs.Pair.{same, before, bad_pair};

use crate::Pair;

pub fn is_before(a: Pair, b: Pair) -> bool
    ensures { result ≡ before a b }
{
    a < b
}

// 1 where `a` is below `b`, else 0, of numbers up to 2^48: block and offset of a reading have 48 bits. No branch tells
// it, since a bisection's would be guessed wrong as often as not.
pub fn one_if_below(a: u64, b: u64) -> usize
    requires { (a < 2 ^ 48) × (b ≤ 2 ^ 48) }
    ensures { result ≡ b2n (ltb a b) }
{
    ((b + 281474976710655 - a) / 281474976710656) as usize
}

pub fn is_same(a: Pair, b: Pair) -> bool
    ensures { result ≡ same a b }
{
    a == b
}

// Whether `p` is a pair that no entry may have.
pub fn is_bad(p: Pair) -> bool
    ensures { result ≡ bad_pair p }
{
    p.offset == 0 || p.block == 4294967295
}
