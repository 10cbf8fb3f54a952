// The steps of a split, planned: its begin, one entry copied or cleared, and the ends of copying and clearing.
#![tactic(auto)]

mod cursor; // cursor.rt: the page that a search begins at
mod search; // search.rt: the entry that a step moves
mod job; // job.rt: the ends of copying and clearing
mod begin; // begin.rt: the begin of a split
pub mod step; // step.rt: one step

use page::Entry;

// An entry of the old chain that a step copies or clears, its place, which is a number of entries from the
// chain's start, and its block and slot.
#[derive(Clone, Copy)]
pub struct Mover {
    pub entry: Entry,
    pub place: usize,
    pub block: u32,
    pub slot: u32,
}

// A page of a chain: its block, its index and the number of entries on the pages before it.
#[derive(Clone, Copy)]
pub struct Spot {
    pub block: u32,
    pub index: usize,
    pub passed: usize,
}

// A place in the old chain, which a step may search from. Where it is fresh, no entry from there on has a copy. The
// search begins at the page, if one is known, else at the first one.
#[derive(Clone, Copy)]
pub struct Position {
    pub place: usize,
    pub fresh: bool,
    pub page: Option<Spot>,
}
