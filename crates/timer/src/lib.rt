// The two timers: their words, their ports, and the milliseconds that pass.
#![tactic(auto)]

mod port;
mod time;

// A timer: what it has counted, of how many milliseconds, and whether it has fired since that was last read.
#[derive(Clone, Copy)]
pub struct Timer {
    pub count: u16,
    pub period: u16,
    // Bit 15 interrupt, bit 0 start; the others are 0.
    pub control: u16,
    pub fired: bool,
}

// Timer0 and Timer1.
#[derive(Clone, Copy)]
pub struct Timers {
    pub timer0: Timer,
    pub timer1: Timer,
}

// A timer after some milliseconds, and whether its line was raised in them: no `Option`, as there is a timer in both cases.
#[derive(Clone, Copy)]
pub struct Elapsed {
    pub timer: Timer,
    pub raised: bool,
}

// The timers after some milliseconds, and the lines that were raised in them: bit n is line n.
#[derive(Clone, Copy)]
pub struct Passed {
    pub timers: Timers,
    pub lines: u16,
}
