// A worked pair of calls, to which the theorem of `calls` is applied; no functions.
#![tactic(auto)]
