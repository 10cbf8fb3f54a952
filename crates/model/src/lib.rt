// The types of the calls' numbers and answers. The papers' number of each answer is a definition in specs/Answers.antt.
#![tactic(auto)]

pub mod numbers; // numbers.rt: the numbers of answers, in code

ghost use Rattle.std.specs.Prelude.{◌≡◌};
ghost use Rattle.model.specs.declared.LentError.TheVariants.{Refused};

// The numbers that a caller gives format: the fill, the store number, and whether it overwrites a store in use (1) or
// not (0). N is none of them: it is the store's length.
#[derive(Clone, Copy)]
pub struct Order {
    pub fill: u32,
    pub number: u32,
    pub overwrite: u32,
}

// Why a call was refused, with what the refusal gives besides.
#[derive(Clone, Copy)]
pub enum Refusal {
    Length,
    Number,
    Damaged { block: u32 },
    NotIndex { rule: u32 },
    HeldAlready,
    NotHeld,
    NoRoom,
    OutputShort { matches: u32 },
    Busy,
    InUse,
    JournalLength,
    Pending,
}

// The answer of format, insert and remove, and of the call that says whether a store is in use.
pub type Answer = Result<(), Refusal>;

// The number of matches.
pub type LookupAnswer = Result<u32, Refusal>;

// Why work or a squeeze stopped: its budget is spent, there is nothing to do, or, of work, the next step finds no room.
#[derive(Clone, Copy)]
pub enum Stop {
    Spent,
    Idle,
    NoRoom,
}

// What work or a squeeze did: its steps, and why it stopped.
#[derive(Clone, Copy)]
pub struct Work {
    pub steps: u32,
    pub stop: Stop,
}

pub type WorkAnswer = Result<Work, Refusal>;

// The job's phase with its two bucket numbers.
#[derive(Clone, Copy)]
pub enum Phase {
    None,
    Copying { old: u32, new: u32 },
    Clearing { old: u32, new: u32 },
}

// `slack` is fill * buckets - count; below zero a split is wanted.
#[derive(Clone, Copy)]
pub struct Standing {
    pub count: u32,
    pub buckets: u32,
    pub phase: Phase,
    pub slack: i64,
}

pub type StandingAnswer = Result<Standing, Refusal>;

// Why there is no place or no plan: the buffer that is lent for the plan is short, or the call is refused.
#[derive(Clone, Copy)]
pub enum LentError {
    Short,
    Refused(Refusal),
}

impl From<Refusal> for LentError {
    ghost from_gives = { λ refusal e. e ≡ Refused refusal };

    fn from(refusal: Refusal) -> LentError {
        LentError::Refused(refusal)
    }
}

// Where a block lies, in the journal or in the store, with its number there.
#[derive(Clone, Copy)]
pub enum Place {
    Journal(u32),
    Store(u32),
}

pub type PlaceAnswer = Result<Place, LentError>;

// What the plan of a change lists: the number of its block stores; or, of a step that stops, why it has none.
#[derive(Clone, Copy)]
pub enum Listing {
    Stores(u32),
    Stopped(Stop),
}

pub type PlanAnswer = Result<Listing, LentError>;
