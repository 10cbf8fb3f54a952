// The bisection of places whose numbers ascend.
ghost use Rattle.std.specs.Prelude.{◌≡◌, ℕ, ◌^◌, ◌≤◌, ◌<◌};
ghost use Rattle.page.specs.Bisection.{Splits};

use crate::order::one_if_below;

// The number of places before the first one, from `low` up to `high`, where `key` is `bound` or more. What is left is
// halved with no branch on what `key` tells.
pub fn bisect<F: Fn(usize) -> u64>(low: usize, high: usize, bound: u64, key: F) -> usize
    requires ends { (low ≤ high) × (high < 2 ^ 63) }
    requires readable { (k : ℕ) → low ≤ k → k < high → F.pre key k }
    requires small { (k r : ℕ) → low ≤ k → k < high → F.post key k r → r < 2 ^ 48 }
    requires bound_small { bound ≤ 2 ^ 48 }
    ensures { (place : ℕ) → Splits (F.post key) low high bound place → result ≡ place }
{
    let mut at = low;
    let mut left = high - low;
    while 0 < left {
        let half = left - left / 2;
        at += half * one_if_below(key(at + half - 1), bound);
        left /= 2;
    }
    at
}
