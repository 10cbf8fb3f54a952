// The calls on a journal: recover, wipe, whether its head is wiped, and a look before recovering.
ghost use Rattle.std.specs.Prelude.{◌≡◌};
ghost use Rattle.journal.specs.Journal.{disk};
ghost use Rattle.cuts.specs.Journalled.{recover_outcome, wipe_outcome, wiped_outcome, look_outcome};
ghost use Rattle.amiqsovik.specs.Words.{answer_word, place_word};

use crate::words::{answer_word, place_word};
use index::recovery::{look_at, recover, wipe, wiped};

// Finishes the change that the journal holds, if it holds one, and wipes the head.
pub fn amiqsovik_recover(store: &mut [u8], journal: &mut [u8]) -> u64
    ensures value { result ≡ answer_word (recover_outcome (disk store.old journal.old)).answer }
    ensures journal_value { (recover_outcome (disk store.old journal.old)).disk
        ≡ disk store.new journal.new }
{
    answer_word(recover(store, journal))
}

// Wipes a journal's head, whatever it is.
pub fn amiqsovik_wipe(journal: &mut [u8]) -> u64
    ensures value { result ≡ answer_word (wipe_outcome journal.old).answer }
    ensures journal_after { journal.new ≡ (wipe_outcome journal.old).journal }
{
    answer_word(wipe(journal))
}

// Whether a journal's head is wiped: 0; 13; 14 if it is not.
pub fn amiqsovik_wiped(journal: &[u8]) -> u64
    ensures { result ≡ answer_word (wiped_outcome journal.now) }
{
    answer_word(wiped(journal))
}

// Where block `k` lies as it will stand after recovery.
pub fn amiqsovik_look(store: &[u8], journal: &[u8], k: u32) -> u64
    ensures { result ≡ place_word (look_outcome (disk store.now journal.now) k) }
{
    place_word(look_at(store, journal, k))
}
