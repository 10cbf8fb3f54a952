// The numbers of the answers, as specs/Answers.antt has them.
ghost use Rattle.std.specs.Prelude.{◌≡◌};
ghost use Rattle.model.specs.Answers.{refusal_no, refusal_gives, stop_no};

use crate::{Refusal, Stop};

impl Refusal {
    // The papers' number of a refusal.
    pub fn number(self) -> u32
        ensures { result ≡ refusal_no self }
    {
        match self {
            Refusal::Length => 1,
            Refusal::Number => 2,
            Refusal::Damaged { .. } => 3,
            Refusal::NotIndex { .. } => 4,
            Refusal::HeldAlready => 5,
            Refusal::NotHeld => 6,
            Refusal::NoRoom => 7,
            Refusal::OutputShort { .. } => 8,
            Refusal::Busy => 11,
            Refusal::InUse => 12,
            Refusal::JournalLength => 13,
            Refusal::Pending => 14,
        }
    }

    // What a refusal gives besides.
    pub fn gives(self) -> u32
        ensures { result ≡ refusal_gives self }
    {
        match self {
            Refusal::Damaged { block } => block,
            Refusal::NotIndex { rule } => rule,
            Refusal::OutputShort { matches } => matches,
            _ => 0,
        }
    }
}

impl Stop {
    // Document 01's number of a stop.
    pub fn number(self) -> u32
        ensures { result ≡ stop_no self }
    {
        match self {
            Stop::Spent => 0,
            Stop::Idle => 9,
            Stop::NoRoom => 7,
        }
    }
}
