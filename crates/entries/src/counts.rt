// Rule 8: the previous fields of bucket pages, and the count of held pairs.
ghost use Rattle.std.specs.Prelude.{◌≡◌, suc, ◌*◌, ◌≤◌, length};
ghost use Rattle.lists.specs.Lists.{all, tally, bind};
ghost use Rattle.address.specs.Limits.{max_blocks};
ghost use Rattle.page.specs.Entries.{entries_of};
ghost use Rattle.page.specs.Allowed.{Sorted};
ghost use Rattle.model.specs.Held.{count};
ghost use Rattle.image.specs.Decode.{decode};
ghost use Rattle.image.specs.Rules.{buckets, rule8};
ghost use Rattle.chain.specs.Within.{entries_on, PagesOk, Within};
ghost use Rattle.reader.specs.Known.{Known2};
ghost use Rattle.shape.specs.Known.{Known5};
ghost use Rattle.entries.specs.Counts.{prev_ok, live_in};

use crate::Bucket;
use address::{bucket_of, last_split};
use chain::links::zero_walk;
use image::Meta;
use model::Phase;
use page::Entry;
use page::slots::{count_entries, get_entry};
use reader::buckets::{bucket_page, walk_bucket};
use reader::job::read_job;
use store::{block_at, prev_at};

// Whether the previous field of every bucket page names the last bucket that split off.
fn check_prevs(store: &[u8], m: Meta) -> bool
    requires { Known2 store.now m }
    ensures { result ≡ all (prev_ok store.now) (buckets store.now) }
{
    for b in 0..=m.max {
        if prev_at(bucket_page(store, m, b)) != last_split(m.max, b) {
            return false;
        }
    }
    true
}

impl Bucket {
    // Whether an entry in its chain is a held one.
    fn is_live(self, entry: Entry) -> bool
        ensures { result ≡ live_in self.phase self.max self.number entry }
    {
        match self.phase {
            Phase::None => true,
            Phase::Copying { old: _, new } => self.number != new || !entry.moved,
            Phase::Clearing { old: _, new: _ } => bucket_of(entry.pair.hash, self.max)
                == self.number,
        }
    }
}

// The number of held entries of a page in the bucket's chain.
fn count_page(page: &[u8], bucket: Bucket) -> u32
    requires { Sorted page.now }
    ensures { (result ≡ tally (live_in bucket.phase bucket.max bucket.number) (entries_of page.now)) × (result ≤ 40) }
{
    let mut live = 0;
    for i in 0..count_entries(page) {
        if bucket.is_live(get_entry(page, i)) {
            live += 1;
        }
    }
    live
}

// The number of held entries of the bucket's walk.
fn count_walk(store: &[u8], walk: &[u32], bucket: Bucket) -> u32
    requires { (Within store.now walk.now) × (PagesOk store.now walk.now) }
    ensures { (result ≡ tally (live_in bucket.phase bucket.max bucket.number) (bind walk.now (entries_on store.now)))
        × (result ≤ 40 * suc max_blocks) }
{
    let mut live = 0;
    for block in walk {
        live += count_page(block_at(store, *block as usize), bucket);
    }
    live
}

// The number of held pairs.
fn count_live(store: &[u8], m: Meta) -> u32
    requires { Known5 store.now m }
    ensures { result ≡ count (decode store.now) }
{
    let phase = read_job(store, m);
    let mut blocks = zero_walk();
    let mut live = 0;
    for b in 0..=m.max {
        let count = walk_bucket(store, &mut blocks, m, b);
        let bucket = Bucket {
            number: b,
            max: m.max,
            phase,
        };
        live += count_walk(store, &blocks[..count], bucket);
    }
    live
}

// Rule 8.
pub fn check_counts(store: &[u8], m: Meta) -> bool
    requires { Known5 store.now m }
    ensures { result ≡ rule8 store.now }
{
    if !check_prevs(store, m) {
        return false;
    }
    m.count == count_live(store, m)
}
