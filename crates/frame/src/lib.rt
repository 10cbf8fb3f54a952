#![tactic(auto)]

// Laws alone: which blocks each change of an index alters, and what they are then.
