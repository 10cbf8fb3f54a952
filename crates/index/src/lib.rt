// The public calls of the index.
#![tactic(auto)]

pub mod in_use; // in_use.rt: whether a store is in use
pub mod format; // format.rt: a store made new
pub mod read; // read.rt: lookup and standing
pub mod tests; // tests.rt: the tests before a call
mod ready; // ready.rt: those before a call with a journal
mod written; // written.rt: a planned change, its list worked out, written or laid into a buffer
mod pairs; // pairs.rt: insert and remove, as they are planned
mod sound; // sound.rt: changes of a store that passed the tests
pub mod change; // change.rt: the insert without a journal
pub mod journalled; // journalled.rt: insert and remove
mod steps; // steps.rt: steps one after the other
pub mod work; // work.rt: the steps of splits
pub mod squeezing; // squeezing.rt: the steps that pack a bucket's chain
pub mod recovery; // recovery.rt: recover, wipe, look
mod laid; // laid.rt: changes laid into a buffer
pub mod halves; // halves.rt: a change in two halves
