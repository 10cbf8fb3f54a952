// A squeeze's step, planned: the last entry of a chain's last page goes to the first earlier page with room.
#![tactic(auto)]

ghost use Rattle.std.specs.Prelude.{◌≡◌, cond, ◌||◌, ℕ, ◌≤◌, eqb, length, IfOk};
ghost use Rattle.store.specs.Store.{prev_at};
ghost use Rattle.model.specs.Squeeze.{moved_to, squeeze_step, is_busy};
ghost use Rattle.image.specs.Decode.{decode};
ghost use Rattle.view.specs.Reads.{Reads};
ghost use Rattle.plan.specs.Plan.{Plans, Advances};
ghost use Rattle.squeeze.specs.Move.{Movable};
ghost use Rattle.squeeze.specs.Spot.{spot_at};
ghost use Rattle.squeeze.specs.Span.{Spans, Leads};

use chain::Room;
use chain::links::last_block;
use chain::search::first_room;
use draft::pages::insert_at;
use draft::{Draft, clear};
use image::Meta;
use model::{Phase, Stop};
use page::Entry;
use page::search::find_place;
use page::slots::{count_entries, get_entry};
use reader::job::read_job;
use reader::roles::home_of;
use removal::ending::end_cut;
use removal::pages::cut_entry;
use store::{block_at, prev_at};

// A chain's last page and its first page with room, which are two.
#[derive(Clone, Copy)]
pub struct Spot {
    pub last: u32,
    pub target: u32,
}

// The pages of a chain that a step looks at: no page before `first` has room, and `last` is the chain's last one.
#[derive(Clone, Copy)]
pub struct Span {
    pub first: u32,
    pub last: u32,
}

// All pages of bucket `b`'s chain.
pub fn span_of(store: &[u8], m: Meta, b: u32) -> Span
    requires { (Reads store.now m) × (b ≤ m.max) }
    ensures { Spans (decode store.now) b result }
{
    let first = home_of(m, b);
    let last = last_block(store, first);
    Span { first, last }
}

// Follows the next fields from the first page of the span to the first one with room.
fn find_spot(store: &[u8], m: Meta, span: Span) -> Option<Spot>
    requires { (Reads store.now m) × ((b : ℕ) × Spans (decode store.now) b span) }
    ensures { (b : ℕ) → Spans (decode store.now) b span → result ≡ spot_at (decode store.now) b }
{
    let room = first_room(store, span.first);
    let Room::Page { block } = room else {
        return None;
    };
    let last = span.last;
    if block == last {
        return None;
    }
    Some(Spot {
        last,
        target: block,
    })
}

// Plans the entry `e`, which stands in slot `slot` of block `last`, into the page in block `target`, with its flags.
fn plan_move(draft: &mut Draft, store: &[u8], m: Meta, e: Entry, last: u32, slot: u32, target: u32)
    requires { (b : ℕ) × Movable store.now m b e last slot target }
    ensures { (b : ℕ) → Movable store.now m b e last slot target
        → Plans store.now draft.new.change draft.new.images (moved_to (decode store.now) b e) }
{
    let place = find_place(block_at(store, target as usize), e.pair);
    clear(draft);
    let freed = cut_entry(draft, store, m, last, slot);
    insert_at(draft, store, target, place, e);
    end_cut(draft, store, m, m.count, freed, None);
}

// The chain's last page once the entry in slot `slot` is out of it, its last one: the page before it, if it has no
// other.
fn last_after(page: &[u8], last: u32, slot: usize) -> u32
    requires { length page.now ≡ 512 }
    ensures { result ≡ cond (eqb slot 0) (prev_at page.now) last }
{
    if slot == 0 { prev_at(page) } else { last }
}

// Plans one step of a squeeze of the bucket whose chain has the pages of the span, and gives those that the next step
// looks at.
pub fn plan_squeeze(draft: &mut Draft, store: &[u8], m: Meta, span: Span) -> Result<Span, Stop>
    requires { (Reads store.now m) × ((b : ℕ) × Spans (decode store.now) b span) }
    ensures advances { (b : ℕ) → Spans (decode store.now) b span
        → Advances store.now draft.new.change draft.new.images (squeeze_step b (decode store.now)) result }
    ensures leads { (b : ℕ) → Spans (decode store.now) b span
        → IfOk result (Leads (decode store.now) b) }
{
    let Some(spot) = find_spot(store, m, span) else {
        clear(draft);
        return Err(Stop::Idle);
    };
    let last = spot.last;
    let target = spot.target;
    let page = block_at(store, last as usize);
    let slot = count_entries(page) - 1;
    let e = get_entry(page, slot);
    let end = last_after(page, last, slot);
    plan_move(draft, store, m, e, last, slot as u32, target);
    Ok(Span {
        first: target,
        last: end,
    })
}

// Whether `b` is one of two buckets.
fn is_either(b: u32, old: u32, new: u32) -> bool
    ensures { result ≡ eqb b old || eqb b new }
{
    b == old || b == new
}

// Whether bucket `b` is one of the pending job.
pub fn is_busy(store: &[u8], m: Meta, b: u32) -> bool
    requires { Reads store.now m }
    ensures { result ≡ is_busy (decode store.now) b }
{
    let phase = read_job(store, m);
    match phase {
        Phase::None => false,
        Phase::Copying { old, new } => is_either(b, old, new),
        Phase::Clearing { old, new } => is_either(b, old, new),
    }
}
