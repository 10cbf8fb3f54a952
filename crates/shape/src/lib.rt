// The shape of an index: which block is what, rules 3, 4 and 6. Each is proved equal to the rule's definition under
// rule 2.
#![tactic(auto)]

pub mod roles; // roles.rt: rule 3, each block against its role
pub mod links; // links.rt: rule 4, chains link by link
pub mod bits; // bits.rt: rule 6, the bitmap and first free
