// A sound store read as its index: the pending job, the chains of its buckets, where pairs are held, and lookups.
#![tactic(auto)]

pub mod chains; // chains.rt: the chain of a bucket
pub mod job; // job.rt: the pending job, standing
pub mod held; // held.rt: the held entry of a pair
pub mod lookup; // lookup.rt: the matches written out

// The buckets in whose chains the pairs of a hash code are held: its own; or, where that is being populated, the
// unmoved entries of the new one and all of the old one.
#[derive(Clone, Copy)]
pub enum Sources {
    Home { home: u32 },
    Both { new: u32, old: u32 },
}

// The numbers of blocks in the chains of the sources. `old` is 0 where there is no old chain; where there is one, only
// the unmoved entries of the own chain count, and `fresh` is true.
#[derive(Clone, Copy)]
pub struct SourceCounts {
    pub own: usize,
    pub old: usize,
    pub fresh: bool,
}
