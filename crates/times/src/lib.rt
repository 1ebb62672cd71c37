// Time passes only by command 08: what steps, runs, cards and milliseconds do to the timers.
#![tactic(auto)]
