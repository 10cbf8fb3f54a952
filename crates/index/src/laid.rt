// Changes of a store that passed the tests, planned and laid into a lent buffer; store and journal stay. What the
// draft held does not matter.
ghost use Rattle.std.specs.Prelude.{◌≡◌, true, [], ◌≤◌, length};
ghost use Rattle.model.specs.Calls.{pair_ok};
ghost use Rattle.image.specs.Decode.{decode};
ghost use Rattle.outcomes.specs.Outcomes.{step_store};
ghost use Rattle.journal.specs.Journal.{disk};
ghost use Rattle.cuts.specs.Halves.{planned_as, planned_step};
ghost use Rattle.index.specs.Sound.{Sound};

use crate::pairs::PairCall;
use crate::sound::read_fields;
use crate::steps::Planner;
use crate::written::lay_change;
use draft::Draft;
use model::{LentError, Listing, PlanAnswer};
use page::Pair;

// A call with a pair.
pub fn lay_call<C: PairCall>(
    call: &C,
    draft: &mut Draft,
    store: &[u8],
    pair: Pair,
    buffer: &mut [u8],
) -> PlanAnswer
    requires sound { (Sound store.now) × (pair_ok pair ≡ true) }
    requires in_bounds { 5632 ≤ length buffer.old }
    ensures { planned_as (disk store.now []) buffer.old
        (C.call call.now (decode store.now) pair)
        ≡ record { answer = result; plan = buffer.new } }
{
    let m = read_fields(store);
    let answer = call.plan(draft, store, m, pair);
    let stores = lay_change(store, &draft.images, draft.change, buffer);
    match answer {
        Err(refusal) => Err(LentError::Refused(refusal)),
        Ok(()) => Ok(Listing::Stores(stores)),
    }
}

// A step, from where the first one begins.
pub fn lay_step<P: Planner>(
    planner: &P,
    draft: &mut Draft,
    store: &[u8],
    start: P::Place,
    buffer: &mut [u8],
) -> PlanAnswer
    requires sound { Sound store.now }
    requires from { P.begins planner.now (decode store.now) start }
    requires in_bounds { 5632 ≤ length buffer.old }
    ensures { planned_step (disk store.now []) buffer.old
        (step_store (P.kind planner.now) store.now)
        ≡ record { answer = result; plan = buffer.new } }
{
    let m = read_fields(store);
    let step = planner.plan(draft, store, m, start);
    let stores = lay_change(store, &draft.images, draft.change, buffer);
    match step {
        Err(stop) => Ok(Listing::Stopped(stop)),
        Ok(_) => Ok(Listing::Stores(stores)),
    }
}
