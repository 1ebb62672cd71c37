// The lines of a listing: theorems about the definitions of `listing`, no functions. What they say stands in specs/Statement.antt.
#![tactic(auto)]
