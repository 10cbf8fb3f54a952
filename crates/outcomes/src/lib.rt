#![tactic(auto)]

// Definitions and laws alone: what each call does to a store.
