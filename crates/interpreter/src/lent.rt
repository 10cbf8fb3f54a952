// The calls that change a store, each lent a journal of its own, whose head is wiped at its start: they do what they do
// to a store without a journal.
ghost use Rattle.std.specs.Prelude.{◌≡◌};
ghost use Rattle.outcomes.specs.Outcomes.{insert_outcome, remove_outcome, work_outcome};

use index::journalled::{insert, remove};
use index::work::work;
use journal::recovery::wipe_head;
use model::{Answer, WorkAnswer};

pub fn insert_lent(store: &mut [u8], hash: u32, block: u32, offset: u32) -> Answer
    ensures value { result ≡ (insert_outcome store.old (record { hash = hash; block = block; offset = offset })
        ).answer }
    ensures store_after { store.new
        ≡ (insert_outcome store.old (record { hash = hash; block = block; offset = offset })).store }
{
    let mut journal = [0u8; 8192];
    wipe_head(&mut journal);
    insert(store, &mut journal, hash, block, offset)
}

pub fn remove_lent(store: &mut [u8], hash: u32, block: u32, offset: u32) -> Answer
    ensures value { result ≡ (remove_outcome store.old (record { hash = hash; block = block; offset = offset })
        ).answer }
    ensures store_after { store.new
        ≡ (remove_outcome store.old (record { hash = hash; block = block; offset = offset })).store }
{
    let mut journal = [0u8; 8192];
    wipe_head(&mut journal);
    remove(store, &mut journal, hash, block, offset)
}

pub fn work_lent(store: &mut [u8], budget: u32) -> WorkAnswer
    ensures value { result ≡ (work_outcome store.old budget).answer }
    ensures store_after { store.new ≡ (work_outcome store.old budget).store }
{
    let mut journal = [0u8; 8192];
    wipe_head(&mut journal);
    work(store, &mut journal, budget)
}
