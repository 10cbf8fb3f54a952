// Entries of a 512-byte page: the number of entries at 0, entries of 12 bytes from 4.
#![tactic(auto)]

pub mod order; // order.rt: which of two pairs, or of two numbers, stands first
mod bisection; // bisection.rt: the bisection of places whose numbers ascend
pub mod slots; // slots.rt: one entry of a page
pub mod run; // run.rt: what a run tells: its entries, the place of a pair among them
pub mod search; // search.rt: the run of a hash code in a page, the sorted place of a pair
pub mod edit; // edit.rt: an entry put into a slot or taken out of one
pub mod rule; // rule.rt: the page rule as a test

#[derive(Clone, Copy, Default, PartialEq, Eq, PartialOrd, Ord)]
pub struct Pair {
    pub hash: u32,
    pub block: u32,
    pub offset: u16,
}

#[derive(Clone, Copy, Default, PartialEq, Eq)]
pub struct Entry {
    pub pair: Pair,
    pub moved: bool,
}
