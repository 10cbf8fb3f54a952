// Chains of blocks in a store of legal length, whatever its bytes: walks, searches along a walk that stays inside the
// store, the lowest free bit.
#![tactic(auto)]

pub mod links; // links.rt: the blocks of a chain
pub mod search; // search.rt: a pair in a chain, the first page with room
pub mod counting; // counting.rt: the number of pairs of a hash code
pub mod along; // along.rt: the same over the walks of a hash code's own and old chain
pub mod bitmap; // bitmap.rt: the lowest free bit; whether all bits from one on are 1

// Where a pair stands in a chain: its block, and the slot in that.
#[derive(Clone, Copy)]
pub struct Found {
    pub block: u32,
    pub slot: u32,
}

// The first page of a chain with room for an entry; the chain's last block if none has.
#[derive(Clone, Copy)]
pub enum Room {
    Page { block: u32 },
    Full { last: u32 },
}
