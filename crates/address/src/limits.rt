// The largest N of a store.
pub const MAX_BLOCKS: usize = 1024;
