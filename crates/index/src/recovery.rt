// The calls on a journal: recover, wipe, whether its head is wiped, and a look before recovering.
ghost use Rattle.std.specs.Prelude.{◌≡◌};
ghost use Rattle.journal.specs.Journal.{disk};
ghost use Rattle.cuts.specs.Journalled.{recover_outcome, wipe_outcome, wiped_outcome, look_outcome, look_part};

use journal::holds::head_wiped;
use journal::recovery::{image_for, look_part, recover_store, wipe_head};
use model::{Answer, LentError, Place, PlaceAnswer, Refusal};
use verify::check_length;

// Finishes the change that the journal holds, if it holds one, and wipes the head.
pub fn recover(store: &mut [u8], journal: &mut [u8]) -> Answer
    ensures { recover_outcome (disk store.old journal.old)
        ≡ record { answer = result; disk = disk store.new journal.new } }
{
    if !check_length(store) {
        return Err(Refusal::Length);
    }
    let Some(journal) = journal.as_mut_array::<8192>() else {
        return Err(Refusal::JournalLength);
    };
    recover_store(store, journal);
    Ok(())
}

// Wipes a journal's head, whatever it is.
pub fn wipe(journal: &mut [u8]) -> Answer
    ensures { wipe_outcome journal.old ≡ record { answer = result; journal = journal.new } }
{
    let Some(journal) = journal.as_mut_array::<8192>() else {
        return Err(Refusal::JournalLength);
    };
    wipe_head(journal);
    Ok(())
}

// Whether a journal's head is wiped: done if it is, refusal 13, or refusal 14.
pub fn wiped(journal: &[u8]) -> Answer
    ensures { result ≡ wiped_outcome journal.now }
{
    let Some(journal) = journal.as_array::<8192>() else {
        return Err(Refusal::JournalLength);
    };
    if !head_wiped(journal) {
        return Err(Refusal::Pending);
    }
    Ok(())
}

// Where block `k` lies as it will stand after recovery.
pub fn look_at(store: &[u8], journal: &[u8], k: u32) -> PlaceAnswer
    ensures { result ≡ look_outcome (disk store.now journal.now) k }
{
    if !check_length(store) {
        return Err(LentError::Refused(Refusal::Length));
    }
    let Some(journal) = journal.as_array::<8192>() else {
        return Err(LentError::Refused(Refusal::JournalLength));
    };
    if k as usize >= store.len() / 512 {
        return Err(LentError::Refused(Refusal::Number));
    }
    Ok(match image_for(store, journal, k as usize) {
        Some(i) => Place::Journal(i as u32 + 1),
        None => Place::Store(k),
    })
}

// The block itself, a part of the journal or of the store; an empty part where `look_at` refuses.
pub fn look<'a>(store: &'a [u8], journal: &'a [u8], k: u32) -> &'a [u8]
    ensures { result.now ≡ look_part (disk store.now journal.now) k }
{
    if !check_length(store) {
        return &store[..0];
    }
    let Some(journal) = journal.as_array::<8192>() else {
        return &store[..0];
    };
    if k as usize >= store.len() / 512 {
        return &store[..0];
    }
    look_part(store, journal, k as usize)
}
