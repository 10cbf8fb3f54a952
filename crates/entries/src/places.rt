// Rule 7: each entry in its bucket, and the marks of a job that copies.
ghost use Rattle.std.specs.Prelude.{◌≡◌, ◌≤◌, length};
ghost use Rattle.lists.specs.Lists.{all, bind};
ghost use Rattle.address.specs.Address.{bucket_of};
ghost use Rattle.page.specs.Entries.{entries_of};
ghost use Rattle.page.specs.Allowed.{Sorted};
ghost use Rattle.model.specs.Index.{entries_at};
ghost use Rattle.image.specs.Decode.{max_at, decode};
ghost use Rattle.image.specs.Rules.{buckets, rule7};
ghost use Rattle.chain.specs.Within.{entries_on, PagesOk, Within};
ghost use Rattle.reader.specs.Job.{phase_at};
ghost use Rattle.shape.specs.Known.{Known5};
ghost use Rattle.entries.specs.Tests.{stands_in, marked_by, marks_in};

use crate::Bucket;
use crate::marks::all_marked;
use address::bucket_of;
use chain::links::zero_walk;
use image::Meta;
use model::Phase;
use page::slots::{count_entries, get_entry};
use reader::buckets::walk_bucket;
use reader::job::read_job;
use store::block_at;

impl Bucket {
    // Whether an entry with this hash code may stand in its chain.
    fn may_hold(self, hash: u32) -> bool
        ensures { result ≡ stands_in self.phase (bucket_of self.max hash) self.number }
    {
        let home = bucket_of(hash, self.max);
        if home == self.number {
            return true;
        }
        match self.phase {
            Phase::None => false,
            Phase::Copying { old, new } => self.number == old && home == new,
            Phase::Clearing { old, new } => self.number == old && home == new,
        }
    }
}

// Whether each entry of the page may stand in the bucket's chain.
fn check_page_places(page: &[u8], bucket: Bucket) -> bool
    requires { Sorted page.now }
    ensures { result ≡ all (λ e. stands_in bucket.phase (bucket_of bucket.max e.pair.hash) bucket.number)
        (entries_of page.now) }
{
    for i in 0..count_entries(page) {
        if !bucket.may_hold(get_entry(page, i).pair.hash) {
            return false;
        }
    }
    true
}

// Whether each entry of the walk may stand in the bucket's chain.
fn check_walk_places(store: &[u8], walk: &[u32], bucket: Bucket) -> bool
    requires { (Within store.now walk.now) × (PagesOk store.now walk.now) }
    ensures { result ≡ all (λ e. stands_in bucket.phase (bucket_of bucket.max e.pair.hash) bucket.number)
        (bind walk.now (entries_on store.now)) }
{
    for block in walk {
        if !check_page_places(block_at(store, *block as usize), bucket) {
            return false;
        }
    }
    true
}

// Whether each entry of each chain may stand there.
fn check_chains(store: &[u8], m: Meta, phase: Phase) -> bool
    requires { Known5 store.now m }
    ensures { result ≡ all (λ b. all (λ e. stands_in phase (bucket_of (max_at store.now) e.pair.hash) b)
        (entries_at (decode store.now) b)) (buckets store.now) }
{
    let mut blocks = zero_walk();
    for b in 0..=m.max {
        let count = walk_bucket(store, &mut blocks, m, b);
        let bucket = Bucket {
            number: b,
            max: m.max,
            phase,
        };
        if !check_walk_places(store, &blocks[..count], bucket) {
            return false;
        }
    }
    true
}

// Whether each entry of the chain of bucket `new` is marked moved exactly if the chain of bucket `old` has its pair.
fn check_copies(store: &[u8], m: Meta, new: u32, old: u32) -> bool
    requires { (Known5 store.now m) × (new ≤ m.max) × (old ≤ m.max) }
    ensures { result ≡ all (marked_by (entries_at (decode store.now) old))
        (entries_at (decode store.now) new) }
{
    let mut copies = zero_walk();
    let mut originals = zero_walk();
    let n = walk_bucket(store, &mut copies, m, new);
    let k = walk_bucket(store, &mut originals, m, old);
    all_marked(store, &copies[..n], &originals[..k])
}

// While copying, whether each entry of the new chain is marked moved exactly if the old chain has its pair.
fn check_marks(store: &[u8], m: Meta, phase: Phase) -> bool
    requires known5 { Known5 store.now m }
    requires phase_value { phase ≡ phase_at store.now }
    ensures { result ≡ marks_in store.now phase }
{
    match phase {
        Phase::None => true,
        Phase::Copying { old, new } => check_copies(store, m, new, old),
        Phase::Clearing { old: _, new: _ } => true,
    }
}

// Rule 7. Not inlined, as rule 5.
#[inline(never)]
pub fn check_places(store: &[u8], m: Meta) -> bool
    requires { Known5 store.now m }
    ensures { result ≡ rule7 store.now }
{
    let phase = read_job(store, m);
    if !check_chains(store, m, phase) {
        return false;
    }
    check_marks(store, m, phase)
}
