// Isolation of user programs: theorems about the definitions of `machine`, no functions. What they say stands in specs/Statement.antt.
#![tactic(auto)]
