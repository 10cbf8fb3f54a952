// The fields of a meta block but for its magic and edition, and what a store is found to be.
#![tactic(auto)]

#[derive(Clone, Copy)]
pub struct Meta {
    pub count: u32,
    pub fill: u16,
    pub max: u32,
    pub high: u32,
    pub low: u32,
    pub point: u32,
    pub free: u32,
    pub size: u32,
    pub spares: [u32; 16],
    pub number: u32,
}

#[derive(Clone, Copy)]
pub enum Verdict {
    BadLength,
    Damaged { block: u32 },
    NotIndex { rule: u32 },
    Sound,
}
