// What the customer asked for, as theorems over the promises of the calls. No code of its own.
#![tactic(auto)]
