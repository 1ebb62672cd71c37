// Counted steps of a run: a theorem about the definitions of `machine`, no functions.
#![tactic(auto)]
