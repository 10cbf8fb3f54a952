// Plans removals: a pair out of its bucket's chain and, while copying, out of both chains of the job.
#![tactic(auto)]

pub mod pages; // pages.rt: an entry out of its page, an emptied page freed
pub mod ending; // ending.rt: the bitmap and the meta block

ghost use Rattle.std.specs.Prelude.{◌≡◌, ◌≢◌, true, ◌≤◌};
ghost use Rattle.model.specs.Pages.{cut};
ghost use Rattle.model.specs.Held.{count};
ghost use Rattle.model.specs.WellFormed.{WF};
ghost use Rattle.model.specs.Calls.{pair_ok, remove};
ghost use Rattle.image.specs.Decode.{decode};
ghost use Rattle.chain.specs.Search.{at_slot};
ghost use Rattle.view.specs.Reads.{Reads};
ghost use Rattle.view.specs.Places.{find_at};
ghost use Rattle.plan.specs.Plan.{Plans, Settles};

use crate::ending::end_cut;
use crate::pages::{cut_entry, cut_in};
use draft::{Draft, clear};
use image::Meta;
use model::{Answer, Refusal};
use page::Pair;
use view::Sources;
use view::held::{find_held, sources_of};

// Plans the pair out of bucket `b`'s chain, where it stands at `block` and `slot`; `held` is the count of held pairs
// afterwards.
pub fn plan_cut(
    draft: &mut Draft,
    store: &[u8],
    m: Meta,
    b: u32,
    pair: Pair,
    block: u32,
    slot: u32,
    held: u32,
)
    requires reads { (Reads store.now m) × (b ≤ m.max) }
    requires pair_value { find_at (decode store.now) b pair ≡ at_slot block slot }
    requires wf { (WF (cut pair b (decode store.now))) × (count (cut pair b (decode store.now)) ≡ held) }
    ensures { Plans store.now draft.new.change draft.new.images (cut pair b (decode store.now)) }
{
    clear(draft);
    let freed = cut_entry(draft, store, m, block, slot);
    end_cut(draft, store, m, held, freed, None);
}

// Plans the pair out of the chains of both buckets; `held` is the count of held pairs afterwards.
fn plan_cuts(draft: &mut Draft, store: &[u8], m: Meta, new: u32, old: u32, pair: Pair, held: u32)
    requires reads { Reads store.now m }
    requires le_max { (new ≤ m.max) × (old ≤ m.max) × (new ≢ old) }
    requires store_value { count (cut pair new (cut pair old (decode store.now))) ≡ held }
    ensures { Plans store.now draft.new.change draft.new.images (cut pair new (cut pair old (decode store.now))) }
{
    clear(draft);
    let first = cut_in(draft, store, m, old, pair);
    let second = cut_in(draft, store, m, new, pair);
    end_cut(draft, store, m, held, first, second);
}

// Plans a removal: "takes the held entry away and, while copying, its moved copy too".
pub fn plan_remove(draft: &mut Draft, store: &[u8], m: Meta, pair: Pair) -> Answer
    requires { (Reads store.now m) × (pair_ok pair ≡ true) }
    ensures { Settles store.now draft.new.change draft.new.images (remove (decode store.now) pair) result }
{
    let Some(found) = find_held(store, m, pair) else {
        clear(draft);
        return Err(Refusal::NotHeld);
    };
    let held = m.count - 1;
    let sources = sources_of(store, m, pair.hash);
    match sources {
        Sources::Home { home } => plan_cut(
            draft,
            store,
            m,
            home,
            pair,
            found.block,
            found.slot,
            held,
        ),
        Sources::Both { new, old } => plan_cuts(draft, store, m, new, old, pair, held),
    }
    Ok(())
}
