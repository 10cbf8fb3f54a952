// The tests before a call with a journal, in their order: 1, 13, 2, 14, and then those of the store, 3 and 4.
ghost use Rattle.std.specs.Prelude.{◌≡◌};
ghost use Rattle.journal.specs.Journal.{disk};
ghost use Rattle.cuts.specs.Journalled.{tested_with};
ghost use Rattle.index.specs.Tested.{test_of};
ghost use Rattle.index.specs.Ready.{PairReady};

use crate::change::check_pair;
use crate::tests::test_store;
use journal::holds::head_wiped;
use model::Refusal;
use page::Pair;
use verify::check_length;

// Of a call whose numbers are good or not.
pub fn test_ready(store: &[u8], journal: &[u8], numbers: bool) -> Result<(), Refusal>
    ensures { result ≡ test_of (tested_with numbers (disk store.now journal.now)) }
{
    if !check_length(store) {
        return Err(Refusal::Length);
    }
    let Some(journal) = journal.as_array::<8192>() else {
        return Err(Refusal::JournalLength);
    };
    if !numbers {
        return Err(Refusal::Number);
    }
    if !head_wiped(journal) {
        return Err(Refusal::Pending);
    }
    test_store(store)
}

// Of a call with a pair.
pub fn test_pair_ready(
    store: &[u8],
    journal: &[u8],
    hash: u32,
    block: u32,
    offset: u32,
) -> Result<Pair, Refusal>
    ensures { PairReady (disk store.now journal.now)
        (record { hash = hash; block = block; offset = offset }) result }
{
    test_ready(store, journal, check_pair(block, offset))?;
    Ok(Pair {
        hash,
        block,
        offset: offset as u16,
    })
}
