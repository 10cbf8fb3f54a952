// The pages of two walks, that have no block in common, as those of one merge.
ghost use Rattle.std.specs.Prelude.{◌≡◌, ◌+◌, ◌≤◌, ◌++◌, length, take};
ghost use Rattle.merge.specs.Tree.{max_pages};

use crate::MAX_PAGES;
use chain::links::zero_walk;

// The blocks of the first walk, and then those of the second.
pub fn join_walks(first: &[u32], second: &[u32]) -> [u32; MAX_PAGES]
    requires { length first.now + length second.now ≤ max_pages }
    ensures { take (length first.now + length second.now) result ≡ first.now ++ second.now }
{
    let n = first.len();
    let mut pages = zero_walk();
    pages[..n].copy_from_slice(first);
    pages[n..n + second.len()].copy_from_slice(second);
    pages
}
