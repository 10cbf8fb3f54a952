// A planned change of a sound store, its list of block stores worked out first: written with a journal, or laid into a
// lent buffer.
ghost use Rattle.std.specs.Prelude.{◌≡◌, ◌++◌, ◌≤◌, length, drop};
ghost use Rattle.store.specs.Store.{number_at};
ghost use Rattle.store.specs.Change.{seals};
ghost use Rattle.store.specs.Finish.{finished};
ghost use Rattle.journal.specs.Journal.{disk, head, ending, wiped};
ghost use Rattle.journal.specs.Altered.{stores_to, written};
ghost use Rattle.journal.specs.Planned.{plan_to, plan_over};
ghost use Rattle.index.specs.Sound.{Sound};
ghost use Rattle.index.specs.Written.{Alters};

use journal::plan::{run_plan, work_out};
use store::{Change, number_at};

// Puts the images where a plan has them.
fn put_images(plan: &mut [u8; 5632], images: &[u8])
    requires { length images.now ≡ 4096 }
    ensures { drop 1536 plan.new ≡ images.now }
{
    plan[1536..].copy_from_slice(images);
}

// Works a change of the store out into `plan`.
fn list_stores(store: &[u8], plan: &mut [u8; 5632], images: &[u8], change: Change)
    requires in_bounds { (512 ≤ length store.now) × (change.count ≤ 8) }
    requires images_len { length images.now ≡ 4096 }
    ensures { plan.new
        ≡ head (number_at store.now) change.numbers change.count
        ++ (ending (number_at store.now) change.numbers change.count
        ++ (wiped ++ seals (number_at store.now) change.numbers images.now change.count)) }
{
    put_images(plan, images);
    let number = number_at(store);
    work_out(plan, change, number);
}

// Writes a change: the list of its block stores is worked out first, and then run from the first on. One of no block
// writes nothing.
pub fn write_change(store: &mut [u8], journal: &mut [u8], images: &[u8], change: Change)
    requires sound { (Sound store.old) × (Alters store.old change images.now) }
    requires journal_len { (length journal.old ≡ 8192) × (length images.now ≡ 4096) }
    ensures images_value { written (disk store.old journal.old)
        (finished store.old change images.now)
        ≡ disk store.new journal.new }
    ensures store_after { store.new ≡ finished store.old change images.now }
{
    if change.count == 0 {
        return;
    }
    let mut plan = [0u8; 5632];
    list_stores(store, &mut plan, images, change);
    run_plan(store, journal, &plan);
}

// Lays the same list into `buffer`, and gives the number of block stores.
pub fn lay_change(store: &[u8], images: &[u8], change: Change, buffer: &mut [u8]) -> u32
    requires sound { (Sound store.now) × (Alters store.now change images.now) }
    requires in_bounds { (5632 ≤ length buffer.old) × (length images.now ≡ 4096) }
    ensures value { result ≡ length (stores_to (number_at store.now) store.now
        (finished store.now change images.now)) }
    ensures buffer_after { buffer.new ≡ plan_over (plan_to (number_at store.now) store.now
        (finished store.now change images.now)) buffer.old }
{
    let count = change.count;
    if count == 0 {
        return 0;
    }
    let mut plan = [0u8; 5632];
    list_stores(store, &mut plan, images, change);
    let size = 1536 + 512 * count;
    buffer[..size].copy_from_slice(&plan[..size]);
    2 * count as u32 + 3
}
