// Definitions and laws on lists, sums and tests that the other crates cite. No code of its own.
#![tactic(auto)]
