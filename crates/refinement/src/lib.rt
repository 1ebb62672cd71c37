// A plain instruction of `hot` is a step of the machine: a theorem about the definitions of `machine`, no functions. What it says stands in
// specs/Statement.antt.
#![tactic(auto)]
