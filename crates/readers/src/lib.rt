// The two readers of the fault record: theorems about the definitions of `machine`, no functions. What they say stands in
// specs/Statement.antt and specs/Stopped.antt.
#![tactic(auto)]
