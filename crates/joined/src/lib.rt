// Two cards handed in one after the other: theorems about the definitions of `card`, no functions.
#![tactic(auto)]
