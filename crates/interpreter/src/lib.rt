// The script program's library: a script's bytes to its output's bytes, piece by piece.
#![tactic(auto)]

mod answers; // answers.rt: answers as text
mod lent; // lent.rt: the calls that change a store, lent a journal
mod calls; // calls.rt: the call of a line, on the store that stands
mod lines; // lines.rt: the pending line and its end
pub mod feed; // feed.rt: a piece of a script, and its end

// The script's largest N, and the bytes of such a store.
pub const SCRIPT_BLOCKS: u32 = 128;

pub const STORE_BYTES: usize = 65536;

// What `seen` is where a line has more than 80 bytes.
const TOO_MANY: usize = 81;

// What is kept between two pieces of a script: the number of the last line that ended, how many bytes the pending line
// has (81 where there are more than 80), these bytes, and N of the store that stands, 0 before the first.
#[derive(Clone, Copy)]
pub struct ScriptState {
    number: u64,
    seen: usize,
    line: [u8; 80],
    blocks: u32,
}

// The state after a piece, how many of its bytes were used, and how many were written. Nothing was done if it was not
// ready: the state is none that a script has, or a slice is too short.
#[derive(Clone, Copy)]
pub struct Fed {
    pub ready: bool,
    pub state: ScriptState,
    pub used: usize,
    pub written: usize,
}

// N of the store that stands after a line, and how many bytes the line wrote.
#[derive(Clone, Copy)]
struct LineEnd {
    blocks: u32,
    written: usize,
}
