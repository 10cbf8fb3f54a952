// The flags of a block; a page of a pending job has two of them.
pub const OVERFLOW: u16 = 1;

pub const BUCKET: u16 = 2;

pub const BITMAP: u16 = 4;

pub const META: u16 = 8;

pub const POPULATED: u16 = 2 + 16;

pub const SPLIT: u16 = 2 + 32;

pub const CLEANUP: u16 = 2 + 64;

// The id of every page.
pub const PAGE_ID: u16 = 0xFF80;

// A link field's "none".
pub const NO_LINK: u32 = 0xFFFF_FFFF;
