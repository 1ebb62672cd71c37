// Worked examples about the definitions of `machine`: theorems, no functions.
#![tactic(auto)]
