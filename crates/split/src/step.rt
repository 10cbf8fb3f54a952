// One step: of the pending job, or the begin of a split that is wanted.
ghost use Rattle.std.specs.Prelude.{◌≡◌, false, ◌<◌, None, IfSome, Ok, IfOk};
ghost use Rattle.model.specs.Index.{Index, idle, copying, clearing, old_bucket};
ghost use Rattle.model.specs.Pages.{cut};
ghost use Rattle.model.specs.Held.{count, wanted};
ghost use Rattle.model.specs.Steps.{step};
ghost use Rattle.model.specs.WellFormed.{Laid, WF};
ghost use Rattle.image.specs.Layout.{meta_of};
ghost use Rattle.image.specs.Decode.{decode};
ghost use Rattle.chain.specs.Search.{at_slot};
ghost use Rattle.view.specs.Reads.{Reads};
ghost use Rattle.view.specs.Places.{find_at};
ghost use Rattle.plan.specs.Plan.{Plans, Advances};
ghost use Rattle.split.specs.Seek.{From, Leads};

use crate::begin::plan_begin;
use crate::cursor::find_spot;
use crate::job::{plan_cleared, plan_copied};
use crate::search::{first_to_clear, first_to_copy};
use crate::{Mover, Position, Spot};
use address::parent_of;
use draft::{Draft, clear};
use image::Meta;
use insertion::put::plan_put;
use model::{Phase, Stop};
use page::Entry;
use reader::job::read_job;
use removal::plan_cut;

// Whether a split is wanted: the slack is below zero.
fn is_wanted(m: Meta) -> bool
    requires { (x : Index) × (Laid x) × (m ≡ meta_of x) }
    ensures { (x : Index) → Laid x → m ≡ meta_of x → result ≡ wanted x }
{
    m.fill as u32 * (m.max + 1) < m.count
}

// The begin of a split that is wanted, after which there are no copies.
fn step_idle(draft: &mut Draft, store: &[u8], m: Meta) -> Result<Position, Stop>
    requires reads { Reads store.now m }
    requires store_value { (decode store.now).job ≡ idle }
    ensures advances { Advances store.now draft.new.change draft.new.images (step (decode store.now)) result }
    ensures leads { IfOk result (Leads (decode store.now)) }
{
    if !is_wanted(m) {
        clear(draft);
        return Err(Stop::Idle);
    }
    if !plan_begin(draft, store, m) {
        return Err(Stop::NoRoom);
    }
    Ok(Position {
        place: 0,
        fresh: true,
        page: None,
    })
}

// The first place, with nothing known of copies.
pub fn start() -> Position
    ensures { (result.place ≡ 0) × (result.fresh ≡ false) × (result.page ≡ None) }
{
    Position {
        place: 0,
        fresh: false,
        page: None,
    }
}

// The first entry of the old chain without a copy is copied, marked moved; without one copying ends. The search begins
// at the position `from`, and the next one after the entry that is copied: those behind it are as fresh as before.
fn step_copying(draft: &mut Draft, store: &[u8], m: Meta, from: Position) -> Result<Position, Stop>
    requires reads { Reads store.now m }
    requires store_value { ((decode store.now).job ≡ copying) × (From (decode store.now) from) }
    ensures advances { Advances store.now draft.new.change draft.new.images (step (decode store.now)) result }
    ensures leads { IfOk result (Leads (decode store.now)) }
{
    let page = find_spot(store, m, from);
    let Some(mover) = first_to_copy(store, m, from, page) else {
        plan_copied(draft, store, m);
        return Ok(start());
    };
    let copy = Entry {
        pair: mover.entry.pair,
        moved: true,
    };
    if !plan_put(draft, store, m, m.max, copy, m.count) {
        return Err(Stop::NoRoom);
    }
    Ok(Position {
        place: mover.place + 1,
        fresh: from.fresh,
        page: Some(page),
    })
}

// Takes the entry's pair out of the old chain.
fn clear_pair(draft: &mut Draft, store: &[u8], m: Meta, mover: Mover)
    requires reads { Reads store.now m }
    requires located { find_at (decode store.now) (old_bucket (decode store.now)) mover.entry.pair
        ≡ at_slot mover.block mover.slot }
    requires wf { (WF (cut mover.entry.pair (old_bucket (decode store.now)) (decode store.now)))
        × (count (cut mover.entry.pair (old_bucket (decode store.now)) (decode store.now)) ≡ m.count) }
    ensures { Plans store.now draft.new.change draft.new.images
        (cut mover.entry.pair (old_bucket (decode store.now)) (decode store.now)) }
{
    let old = parent_of(m.max);
    let pair = mover.entry.pair;
    plan_cut(draft, store, m, old, pair, mover.block, mover.slot, m.count);
}

// The page to begin at after the entry at `place` is taken away: the same where an entry before that one stands on it,
// so that it is not freed.
fn keep_spot(page: Spot, place: usize) -> Option<Spot>
    ensures { IfSome result (λ g. (page.passed < place) × (g ≡ page)) }
{
    if page.passed < place {
        Some(page)
    } else {
        None
    }
}

// The first entry of the new bucket in the old chain is taken away; without one clearing ends. The search begins at the
// position `from`.
fn step_clearing(draft: &mut Draft, store: &[u8], m: Meta, from: Position) -> Position
    requires reads { Reads store.now m }
    requires store_value { ((decode store.now).job ≡ clearing) × (From (decode store.now) from) }
    ensures advances { Advances store.now draft.new.change draft.new.images (step (decode store.now)) (Ok result) }
    ensures leads { Leads (decode store.now) result }
{
    let page = find_spot(store, m, from);
    let Some(mover) = first_to_clear(store, m, from.place, page) else {
        plan_cleared(draft, store, m);
        return start();
    };
    clear_pair(draft, store, m, mover);
    Position {
        place: mover.place,
        fresh: false,
        page: keep_spot(page, mover.place),
    }
}

// Plans one step of the pending job, or the begin of a split that is wanted, and gives the position that the next step
// may search from. A job's search begins at the position `from`.
pub fn plan_step(draft: &mut Draft, store: &[u8], m: Meta, from: Position) -> Result<Position, Stop>
    requires reads { Reads store.now m }
    requires from { From (decode store.now) from }
    ensures advances { Advances store.now draft.new.change draft.new.images (step (decode store.now)) result }
    ensures leads { IfOk result (Leads (decode store.now)) }
{
    let phase = read_job(store, m);
    match phase {
        Phase::None => step_idle(draft, store, m),
        Phase::Copying { old: _, new: _ } => step_copying(draft, store, m, from),
        Phase::Clearing { old: _, new: _ } => Ok(step_clearing(draft, store, m, from)),
    }
}
