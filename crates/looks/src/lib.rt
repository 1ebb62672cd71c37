// Looks at the fault record, on calls: theorems about the definitions of `look` and `direct`, no functions. What they say stands in
// specs/Statement.antt and specs/Stopped.antt.
#![tactic(auto)]
