// Steps on a store that passed the tests, one after the other, each planned and then written whole: those of splits, or
// those of a bucket's squeeze.
ghost use Rattle.std.specs.Prelude.{◌≡◌, ℕ, ◌≤◌, length, IfOk};
ghost use Rattle.model.specs.Index.{Index};
ghost use Rattle.model.specs.Steps.{next, iterate};
ghost use Rattle.model.specs.Machine.{Kind, of_splits, of_squeeze, step_index};
ghost use Rattle.image.specs.Decode.{decode};
ghost use Rattle.journal.specs.Journal.{disk};
ghost use Rattle.cuts.specs.Journalled.{step_journalled, worked_by};
ghost use Rattle.view.specs.Reads.{Reads};
ghost use Rattle.plan.specs.Plan.{Advances};
ghost use Rattle.split.specs.Seek.{From};
ghost use Rattle.squeeze.specs.Span.{Spans};
ghost use Rattle.index.specs.Sound.{Sound, Stepped};

use crate::sound::read_fields;
use crate::written::write_change;
use draft::{Draft, no_change};
use image::Meta;
use model::{Stop, Work, WorkAnswer};
use split::Position;
use split::step::plan_step;
use squeeze::{Span, plan_squeeze, span_of};

// What plans the steps of one kind. A step is told where to begin, and tells the next one, so that none looks again at
// what the ones before it passed. What the draft held does not matter.
pub trait Planner {
    type Place: Copy;

    ghost kind: { Self → Kind };

    ghost begins: { Self → Index → Self.Place → Type 0 };

    fn plan(
        &self,
        draft: &mut Draft,
        store: &[u8],
        m: Meta,
        from: Self::Place,
    ) -> Result<Self::Place, Stop>
        requires reads { Reads store.now m }
        requires from { begins self.now (decode store.now) from }
        ensures advances { Advances store.now draft.new.change draft.new.images
            (step_index (kind self.now) (decode store.now)) result }
        ensures begins { IfOk result (λ p. (y : Index) → step_index (kind self.now) (decode store.now) ≡ next y
            → begins self.now y p) };
}

// The steps of splits: each begins at a position in the old chain.
#[derive(Clone, Copy)]
pub struct Splits {}

impl Planner for Splits {
    type Place = Position;

    ghost kind = { λ it. of_splits };

    ghost begins = { λ it x p. From x p };

    fn plan(
        &self,
        draft: &mut Draft,
        store: &[u8],
        m: Meta,
        from: Position,
    ) -> Result<Position, Stop> {
        plan_step(draft, store, m, from)
    }
}

// The steps of a bucket's squeeze: each looks at some of its chain's pages.
#[derive(Clone, Copy)]
pub struct Squeezing {
    pub bucket: u32,
}

impl Planner for Squeezing {
    type Place = Span;

    ghost kind = { λ it. of_squeeze it.bucket };

    ghost begins = { λ it x v. Spans x it.bucket v };

    fn plan(&self, draft: &mut Draft, store: &[u8], m: Meta, from: Span) -> Result<Span, Stop> {
        plan_squeeze(draft, store, m, from)
    }
}

// Where the first step of a squeeze looks: the whole chain.
pub fn whole_chain(store: &[u8], bucket: u32) -> Span
    requires { (Sound store.now) × (bucket ≤ (decode store.now).max_bucket) }
    ensures { Spans (decode store.now) bucket result }
{
    let m = read_fields(store);
    span_of(store, m, bucket)
}

// One step, written with the journal; where it stops, store and journal stay.
fn write_step<P: Planner>(
    planner: &P,
    draft: &mut Draft,
    store: &mut [u8],
    journal: &mut [u8],
    from: P::Place,
) -> Result<P::Place, Stop>
    requires sound { Sound store.old }
    requires from { P.begins planner.now (decode store.old) from }
    requires journal_len { length journal.old ≡ 8192 }
    ensures stepped { Stepped (P.kind planner.now) (disk store.old journal.old) result (disk store.new journal.new) }
    ensures begins { IfOk result (λ p. P.begins planner.now (decode store.new) p) }
{
    let m = read_fields(store);
    let next = planner.plan(draft, store, m, from);
    write_change(store, journal, &draft.images, draft.change);
    next
}

// Steps until the budget is spent, which is tested first, or a step stops, with their number. They share the room for
// the draft.
pub fn run_steps<P: Planner>(
    planner: &P,
    store: &mut [u8],
    journal: &mut [u8],
    budget: u32,
    start: P::Place,
) -> WorkAnswer
    requires sound { Sound store.old }
    requires from { P.begins planner.now (decode store.old) start }
    requires journal_len { length journal.old ≡ 8192 }
    ensures { worked_by (iterate (step_journalled (P.kind planner.now)) budget (disk store.old journal.old))
        ≡ record { answer = result; disk = disk store.new journal.new } }
{
    let mut draft = Draft {
        change: no_change(),
        images: [0u8; 4096],
    };
    let mut from = start;
    for steps in 0..budget {
        match write_step(planner, &mut draft, store, journal, from) {
            Ok(next) => from = next,
            Err(stop) => return Ok(Work { steps, stop }),
        }
    }
    Ok(Work {
        steps: budget,
        stop: Stop::Spent,
    })
}
