// A journal of 16 blocks beside a store: a change that is cut anywhere is undone or finished by recovery.
#![tactic(auto)]

pub mod holds; // holds.rt: whether a journal holds a change, and whether its head is wiped
pub mod recovery; // recovery.rt: recovery, and a look before it
pub mod plan; // plan.rt: a change worked out into a buffer, and done from it
