// A store of legal length that keeps rule 2, read by the fields of its meta block. Nothing is taken for granted of its
// other blocks, so that tests of later rules and readers of sound stores use the same functions.
#![tactic(auto)]

pub mod roles; // roles.rt: what a block is, and where a bucket stands
pub mod buckets; // buckets.rt: the page of a bucket, its flags and its chain
pub mod job; // job.rt: the pending job
pub mod bits; // bits.rt: overflow bits and the bitmap
