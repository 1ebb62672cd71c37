// A state and its image, and what a run keeps: theorems about the definitions of `image` and `machine`, no functions.
#![tactic(auto)]
