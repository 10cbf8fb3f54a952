// Sorted pages merged: again and again the page whose first entry left comes first, by a winner tree. Nothing is
// allocated; of n pages an entry costs about log2 n comparisons, and inside a run of one page's entries one.
#![tactic(auto)]

pub mod tree; // tree.rt: the page that is ahead of all others
pub mod heads; // heads.rt: what stands first in what is left of each page
pub mod walks; // walks.rt: the pages of two walks

use address::limits::MAX_BLOCKS;

// The most pages of a merge: those of a walk, or of two that have no block in common.
pub const MAX_PAGES: usize = MAX_BLOCKS + 1;

// A merge: of each page its head, as two numbers, its key and its tail (heads.rt), and the winner tree (tree.rt). It is
// made once and lent to one merge after the other; none of its functions copies it.
#[derive(Drop)]
pub struct Merge {
    pub keys: [u64; MAX_PAGES],
    pub tails: [u32; MAX_PAGES],
    pub tree: [u16; 2 * MAX_PAGES],
}

// What comes first in a merge: the number of its page, and its key and its tail.
#[derive(Clone, Copy)]
pub struct First {
    pub page: usize,
    pub key: u64,
    pub tail: u32,
}
