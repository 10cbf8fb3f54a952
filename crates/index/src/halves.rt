// A change in two halves: its list of block stores worked out into a lent buffer, and its n-th block store done.
ghost use Rattle.std.specs.Prelude.{◌≡◌, ◌+◌, ◌≤◌, ◌<◌, length};
ghost use Rattle.model.specs.Calls.{pair_ok};
ghost use Rattle.journal.specs.Journal.{disk};
ghost use Rattle.journal.specs.Planned.{plan_count};
ghost use Rattle.cuts.specs.Journalled.{tested_with};
ghost use Rattle.cuts.specs.Halves.{unless_short, plan_change};
ghost use Rattle.cuts.specs.Halves.{plan_insert, plan_remove, plan_work, plan_squeeze, store_outcome};
ghost use Rattle.index.specs.Halves.{planned_place};

use crate::laid::{lay_call, lay_step};
use crate::pairs::{Insert, PairCall, Remove};
use crate::ready::{test_pair_ready, test_ready};
use crate::squeezing::test_squeeze;
use crate::steps::{Splits, Squeezing, whole_chain};
use draft::{Draft, no_change};
use journal::plan::{plan_count, plan_name, store_planned};
use model::{LentError, Place, PlaceAnswer, PlanAnswer, Refusal};
use split::step::start;
use verify::check_length;

pub fn plan_insert(
    store: &[u8],
    journal: &[u8],
    hash: u32,
    block: u32,
    offset: u32,
    plan: &mut [u8],
) -> PlanAnswer
    ensures { plan_insert (disk store.now journal.now)
        (record { hash = hash; block = block; offset = offset }) plan.old
        ≡ record { answer = result; plan = plan.new } }
{
    plan_call(&Insert {}, store, journal, hash, block, offset, plan)
}

pub fn plan_remove(
    store: &[u8],
    journal: &[u8],
    hash: u32,
    block: u32,
    offset: u32,
    plan: &mut [u8],
) -> PlanAnswer
    ensures { plan_remove (disk store.now journal.now)
        (record { hash = hash; block = block; offset = offset }) plan.old
        ≡ record { answer = result; plan = plan.new } }
{
    plan_call(&Remove {}, store, journal, hash, block, offset, plan)
}

// The first half of a call with the pair of these numbers.
fn plan_call<C: PairCall>(
    call: &C,
    store: &[u8],
    journal: &[u8],
    hash: u32,
    block: u32,
    offset: u32,
    plan: &mut [u8],
) -> PlanAnswer
    ensures { unless_short plan.old (plan_change
        (tested_with (pair_ok (record { hash = hash; block = block; offset = offset })) (disk store.now journal.now))
        (λ x. C.call call.now x (record { hash = hash; block = block; offset = offset }))
        (disk store.now journal.now) plan.old)
        ≡ record { answer = result; plan = plan.new } }
{
    if plan.len() < 5632 {
        return Err(LentError::Short);
    }
    let pair = test_pair_ready(store, journal, hash, block, offset)?;
    let mut draft = Draft {
        change: no_change(),
        images: [0u8; 4096],
    };
    lay_call(call, &mut draft, store, pair, plan)
}

// One step of a split.
pub fn plan_work(store: &[u8], journal: &[u8], plan: &mut [u8]) -> PlanAnswer
    ensures { plan_work (disk store.now journal.now) plan.old
        ≡ record { answer = result; plan = plan.new } }
{
    if plan.len() < 5632 {
        return Err(LentError::Short);
    }
    test_ready(store, journal, true)?;
    let mut draft = Draft {
        change: no_change(),
        images: [0u8; 4096],
    };
    lay_step(&Splits {}, &mut draft, store, start(), plan)
}

// One step of a squeeze.
pub fn plan_squeeze(store: &[u8], journal: &[u8], bucket: u32, plan: &mut [u8]) -> PlanAnswer
    ensures { plan_squeeze (disk store.now journal.now) bucket plan.old
        ≡ record { answer = result; plan = plan.new } }
{
    if plan.len() < 5632 {
        return Err(LentError::Short);
    }
    test_squeeze(store, journal, bucket, true)?;
    let mut draft = Draft {
        change: no_change(),
        images: [0u8; 4096],
    };
    let span = whole_chain(store, bucket);
    lay_step(&Squeezing { bucket }, &mut draft, store, span, plan)
}

// Where the `n`-th block store of a plan writes; refusal 2 where the plan has none, or it is outside of the store.
fn store_place(store: &[u8], plan: &[u8], n: u32) -> Result<Place, Refusal>
    requires { 5632 ≤ length plan.now }
    ensures { result ≡ planned_place store.now plan.now n }
{
    let count = plan_count(plan);
    if count == 0 || count > 8 || n >= 2 * count + 3 {
        return Err(Refusal::Number);
    }
    if n < count {
        return Ok(Place::Journal(n + 1));
    }
    past_place(store, plan, count, n - count)
}

// The same past the images: block store `count + past`.
fn past_place(store: &[u8], plan: &[u8], count: u32, past: u32) -> Result<Place, Refusal>
    requires { (5632 ≤ length plan.now) × (count ≡ plan_count plan.now) × (1 ≤ count) × (count ≤ 8)
        × (past < count + 3) }
    ensures { result ≡ planned_place store.now plan.now (count + past) }
{
    if past == 0 {
        return Ok(Place::Journal(0));
    }
    if past == 1 {
        return Ok(Place::Journal(15));
    }
    if past - 2 == count {
        return Ok(Place::Journal(0));
    }
    let name = plan_name(plan, (past - 2) as usize);
    if name as usize >= store.len() / 512 {
        return Err(Refusal::Number);
    }
    Ok(Place::Store(name))
}

// Does the `n`-th block store of a plan, and nothing else.
pub fn do_store(store: &mut [u8], journal: &mut [u8], plan: &[u8], n: u32) -> PlaceAnswer
    ensures { store_outcome (disk store.old journal.old) plan.now n
        ≡ record { answer = result; disk = disk store.new journal.new } }
{
    if plan.len() < 5632 {
        return Err(LentError::Short);
    }
    if !check_length(store) {
        return Err(LentError::Refused(Refusal::Length));
    }
    let Some(journal) = journal.as_mut_array::<8192>() else {
        return Err(LentError::Refused(Refusal::JournalLength));
    };
    let place = store_place(store, plan, n)?;
    store_planned(store, journal, plan, n as usize);
    Ok(place)
}
