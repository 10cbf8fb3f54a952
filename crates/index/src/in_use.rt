// Whether a store is in use: what format asks before it overwrites one, and a call of its own.
ghost use Rattle.std.specs.Prelude.{◌≡◌, not, ◌&&◌};
ghost use Rattle.model.specs.Calls.{overwrites};
ghost use Rattle.outcomes.specs.Outcomes.{store_in_use, in_use_outcome};

use crate::tests::test_store;
use meta::read_meta;
use model::{Answer, Order, Refusal};
use store::block_at;
use verify::check_length;

// Whether a store is sound and its count is not 0.
fn store_in_use(store: &[u8]) -> bool
    ensures { result ≡ store_in_use store.now }
{
    match test_store(store) {
        Ok(()) => read_meta(block_at(store, 0)).count != 0,
        Err(_) => false,
    }
}

// Whether a format with this order is to leave a store alone: it is in use, and the order does not overwrite.
pub fn is_protected(store: &[u8], order: Order) -> bool
    ensures { result ≡ (not (overwrites order) && store_in_use store.now) }
{
    if order.overwrite == 1 {
        return false;
    }
    store_in_use(store)
}

// Whether a store is in use, as an answer: done if it is not, refusal 1, or refusal 12.
pub fn in_use(store: &[u8]) -> Answer
    ensures { result ≡ in_use_outcome store.now }
{
    if !check_length(store) {
        return Err(Refusal::Length);
    }
    if store_in_use(store) {
        return Err(Refusal::InUse);
    }
    Ok(())
}
