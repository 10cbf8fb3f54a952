// The entries of an index: what stands in its pages, rules 5, 7 and 8. Each is proved equal to the rule's definition
// under the rules before it.
#![tactic(auto)]

pub mod next; // next.rt: a merge of all entries of pages, and its next entry
pub mod pages; // pages.rt: rule 5, pages, and no pair twice in a chain
pub mod marks; // marks.rt: rule 7, the marks of copies
pub mod places; // places.rt: rule 7, entries in their buckets
pub mod counts; // counts.rt: rule 8, previous fields and the count

use model::Phase;

// A bucket of those up to `max`, in a phase: what tells which entries of its chain are held ones, and which may stand
// there.
#[derive(Clone, Copy)]
pub struct Bucket {
    pub number: u32,
    pub max: u32,
    pub phase: Phase,
}
