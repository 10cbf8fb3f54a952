// A line of the script read as a command.
#![tactic(auto)]

pub mod words; // words.rt: the words of a line, numbers
pub mod commands; // commands.rt: a line as a command

// The numbers of a line, in its order; no call has more than four.
#[derive(Clone, Copy)]
pub enum Fields {
    None,
    One(u32),
    Two(u32, u32),
    Three(u32, u32, u32),
    Four(u32, u32, u32, u32),
}

// The call of a line of the script. A line that cannot be read has none.
#[derive(Clone, Copy)]
pub enum Command {
    Format {
        blocks: u32,
        fill: u32,
        number: u32,
        overwrite: u32,
    },
    Insert {
        hash: u32,
        block: u32,
        offset: u32,
    },
    Remove {
        hash: u32,
        block: u32,
        offset: u32,
    },
    Lookup {
        hash: u32,
    },
    Work {
        budget: u32,
    },
}
