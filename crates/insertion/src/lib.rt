// Planning an insert: an entry put into a bucket's chain, as a change of some blocks.
#![tactic(auto)]

pub mod put; // put.rt: an entry into a page with room, or into a page at the chain's end
pub mod insert; // insert.rt: the insert of a pair
