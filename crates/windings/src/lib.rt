// The winder's promises: theorems about the definitions of `winder`, no functions. What they say stands in specs/Statement.antt.
#![tactic(auto)]
