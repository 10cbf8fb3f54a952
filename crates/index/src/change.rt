// The insert without a journal, of a store that is being built: salvage's.
ghost use Rattle.std.specs.Prelude.{◌≡◌, ℕ};
ghost use Rattle.model.specs.Calls.{pair_ok};
ghost use Rattle.outcomes.specs.Outcomes.{insert_outcome};
ghost use Rattle.index.specs.Tested.{PairTested};

use crate::sound::insert_sound;
use crate::tests::test_call;
use model::{Answer, Refusal};
use page::Pair;

// Refusal 2 of a pair.
pub fn check_pair(block: u32, offset: u32) -> bool
    ensures { (h : ℕ) → result ≡ pair_ok (record { hash = h; block = block; offset = offset }) }
{
    offset != 0 && block != 4294967295 && offset <= 65535
}

// The tests before a call with a pair.
fn test_pair(store: &[u8], hash: u32, block: u32, offset: u32) -> Result<Pair, Refusal>
    ensures { PairTested store.now (record { hash = hash; block = block; offset = offset }) result }
{
    test_call(store, check_pair(block, offset))?;
    Ok(Pair {
        hash,
        block,
        offset: offset as u16,
    })
}

// Puts a pair in.
pub fn insert(store: &mut [u8], hash: u32, block: u32, offset: u32) -> Answer
    ensures value { result ≡ (insert_outcome store.old (record { hash = hash; block = block; offset = offset })
        ).answer }
    ensures store_after { store.new
        ≡ (insert_outcome store.old (record { hash = hash; block = block; offset = offset })).store }
{
    let pair = test_pair(store, hash, block, offset)?;
    insert_sound(store, pair)
}
