// Milliseconds that pass, all at once.
ghost use Rattle.std.specs.Prelude.{cond, true, ◌≡◌, ◌≤◌};
ghost use Rattle.timer.specs.AtOnce as once;
ghost use Rattle.timer.specs.Time as def;

use crate::{Elapsed, Passed, Timer, Timers};

// The lines of Timer0 and Timer1, as bits.
const LINE0: u16 = 1;

const LINE1: u16 = 2;

// A line, if it was raised.
fn line_if(raised: bool, line: u16) -> u16
    ensures { result ≡ cond raised line 0 }
{
    if raised { line } else { 0 }
}

impl Timer {
    // Whether milliseconds count: the timer is started, and its period is not 0.
    #[tactic(auto, unfolding(crate::specs::Time::counts))]
    fn counts(self) -> bool
        ensures { result ≡ def.counts self }
    {
        self.control % 2 == 1 && 0 < self.period
    }

    // Whether a firing raises the line.
    fn interrupts(self) -> bool
        ensures { result ≡ def.interrupts self }
    {
        self.control / 32768 % 2 == 1
    }

    // What a first millisecond brings the count to, before it returns to 0.
    fn reached(self) -> u32
        ensures reached { result ≡ once.reached self }
        ensures bound { result ≤ 65536 }
    {
        (self.count as u32 + 1).min(self.period as u32)
    }

    // A timer that counts, `total` milliseconds after its count was 0.
    #[tactic(auto, using(crate::specs::AtOnce::has_period), unfolding(crate::specs::AtOnce::come_to))]
    fn come_to(self, total: u32) -> Elapsed
        requires { def.counts self ≡ true }
        ensures { result ≡ once.come_to total self }
    {
        let period = self.period as u32;
        if total < period {
            return Elapsed {
                timer: Timer {
                    count: total as u16,
                    ..self
                },
                raised: false,
            };
        }
        Elapsed {
            timer: Timer {
                count: (total % period) as u16,
                fired: true,
                ..self
            },
            raised: self.interrupts(),
        }
    }

    // After `ms` milliseconds.
    #[tactic(auto, using(crate::specs::AtOnce::at_once, crate::specs::AtOnce::idle), unfolding(crate::specs::Time::elapsed))]
    fn elapse(self, ms: u16) -> Elapsed
        ensures { result ≡ def.elapsed ms self }
    {
        if ms == 0 || !self.counts() {
            return Elapsed {
                timer: self,
                raised: false,
            };
        }
        self.come_to(self.reached() + (ms - 1) as u32)
    }
}

impl Timers {
    // After `ms` milliseconds. It takes no longer for many than for one.
    #[tactic(auto, unfolding(crate::specs::Time::lines_of))]
    pub fn pass(self, ms: u16) -> Passed
        ensures { result ≡ def.passed_of ms self }
    {
        let first = self.timer0.elapse(ms);
        let second = self.timer1.elapse(ms);
        Passed {
            timers: Timers {
                timer0: first.timer,
                timer1: second.timer,
            },
            lines: line_if(first.raised, LINE0) | line_if(second.raised, LINE1),
        }
    }
}
