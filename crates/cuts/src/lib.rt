#![tactic(auto)]

// Nothing to run: the calls with a journal, what a power cut leaves of them, and demand 3 with cuts.
