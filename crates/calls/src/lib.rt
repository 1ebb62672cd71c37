// Isolation of user programs, on calls: theorems about the definitions of `direct`, no functions. What they say stands in specs/Statement.antt.
#![tactic(auto)]
