// The word of each answer.
ghost use Rattle.std.specs.Prelude.{◌≡◌};
ghost use Rattle.amiqsovik.specs.Words.{packed, refusal_word, answer_word, lookup_word};
ghost use Rattle.amiqsovik.specs.Words.{work_word, standing_word, lent_word, place_word, plan_word, verdict_word};

use image::Verdict;
use index::tests::test_verdict;
use model::{
    Answer, LentError, Listing, LookupAnswer, Place, PlaceAnswer, PlanAnswer, Refusal,
    StandingAnswer, WorkAnswer,
};

// The word of a call that gives no steps.
pub fn pack(number: u32, gives: u32) -> u64
    ensures { result ≡ packed number 0 0 gives }
{
    number as u64 + 4294967296 * gives as u64
}

fn refusal_word(refusal: Refusal) -> u64
    ensures { result ≡ refusal_word refusal }
{
    pack(refusal.number(), refusal.gives())
}

// The word of a call that is done or refused.
pub fn answer_word(answer: Answer) -> u64
    ensures { result ≡ answer_word answer }
{
    match answer {
        Ok(()) => 0,
        Err(refusal) => refusal_word(refusal),
    }
}

pub fn lookup_word(answer: LookupAnswer) -> u64
    ensures { result ≡ lookup_word answer }
{
    match answer {
        Ok(matches) => pack(0, matches),
        Err(refusal) => refusal_word(refusal),
    }
}

pub fn standing_word(answer: StandingAnswer) -> u64
    ensures { result ≡ standing_word answer }
{
    match answer {
        Ok(_) => 0,
        Err(refusal) => refusal_word(refusal),
    }
}

pub fn work_word(answer: WorkAnswer) -> u64
    ensures { result ≡ work_word answer }
{
    match answer {
        Ok(work) => 256 * work.stop.number() as u64 + 65536 * work.steps as u64,
        Err(refusal) => refusal_word(refusal),
    }
}

// The number of a `result` of standing, or of a plan, that is too short, outside of every paper's table.
pub const RESULT_SHORT: u32 = 255;

// The bytes of a plan.
const PLAN_BYTES: u32 = 5632;

fn lent_word(error: LentError) -> u64
    ensures { result ≡ lent_word error }
{
    match error {
        LentError::Short => pack(RESULT_SHORT, PLAN_BYTES),
        LentError::Refused(refusal) => refusal_word(refusal),
    }
}

pub fn place_word(answer: PlaceAnswer) -> u64
    ensures { result ≡ place_word answer }
{
    match answer {
        Ok(Place::Journal(block)) => 256 + 4294967296 * block as u64,
        Ok(Place::Store(block)) => pack(0, block),
        Err(error) => lent_word(error),
    }
}

pub fn plan_word(answer: PlanAnswer) -> u64
    ensures { result ≡ plan_word answer }
{
    match answer {
        Ok(Listing::Stores(stores)) => pack(0, stores),
        Ok(Listing::Stopped(stop)) => 256 * stop.number() as u64,
        Err(error) => lent_word(error),
    }
}

pub fn verdict_word(verdict: Verdict) -> u64
    ensures { result ≡ verdict_word verdict }
{
    answer_word(test_verdict(verdict))
}
