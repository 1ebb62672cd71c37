// The ports of the timers.
ghost use Rattle.std.specs.Prelude.{◌≡◌};
ghost use Rattle.timer.specs.Port as def;

use crate::{Timer, Timers};

// The first port of each timer.
const TIMER0: u16 = 0x00;

const TIMER1: u16 = 0x04;

// From there to the port that gives the count and sets the period, and to the one that gives fired and sets control.
const COUNT: u16 = 0;

const CONTROL: u16 = 2;

// Fired as IN reads it: bit 15.
const FIRED: u16 = 0x8000;

impl Timer {
    // IN of 02h and 06h gives this.
    fn fired_word(self) -> u16
        ensures { result ≡ def.fired_word self }
    {
        if self.fired { FIRED } else { 0 }
    }

    // IN of 02h and 06h leaves this.
    fn clear_fired(self) -> Timer
        ensures { result ≡ def.fired_cleared self }
    {
        Timer {
            fired: false,
            ..self
        }
    }

    // OUT to 00h and 04h.
    fn set_period(self, v: u16) -> Timer
        ensures { result ≡ def.period_set self v }
    {
        Timer {
            count: 0,
            period: v,
            ..self
        }
    }

    // OUT to 02h and 06h.
    fn set_control(self, v: u16) -> Timer
        ensures { result ≡ def.control_set self v }
    {
        Timer {
            control: v / 32768 * 32768 + v % 2,
            ..self
        }
    }

    // What IN gives, `first` being the timer's first port; `elsewhere` if the port is not the timer's: the timers' ports lie over the others.
    #[tactic(auto, unfolding(crate::specs::Port::value_at))]
    fn value(self, first: u16, elsewhere: u16, port: u16) -> u16
        ensures { result ≡ def.value_at first self elsewhere port }
    {
        match port.checked_sub(first) {
            Some(COUNT) => self.count,
            Some(CONTROL) => self.fired_word(),
            _ => elsewhere,
        }
    }

    // The timer after IN.
    #[tactic(auto, unfolding(crate::specs::Port::after_in_at))]
    fn after_in(self, first: u16, port: u16) -> Timer
        ensures { result ≡ def.after_in_at first self port }
    {
        match port.checked_sub(first) {
            Some(CONTROL) => self.clear_fired(),
            _ => self,
        }
    }

    // The timer after OUT.
    #[tactic(auto, unfolding(crate::specs::Port::after_out_at))]
    fn after_out(self, first: u16, port: u16, v: u16) -> Timer
        ensures { result ≡ def.after_out_at first self port v }
    {
        match port.checked_sub(first) {
            Some(COUNT) => self.set_period(v),
            Some(CONTROL) => self.set_control(v),
            _ => self,
        }
    }
}

// Each says what it does to one timer and to the other: a closure that is called for both reads no plainer.
impl Timers {
    // What IN gives; `elsewhere` if the port is no timer's.
    pub fn port_value(self, elsewhere: u16, port: u16) -> u16
        ensures { result ≡ def.timers_value self elsewhere port }
    {
        let second = self.timer1.value(TIMER1, elsewhere, port);
        self.timer0.value(TIMER0, second, port)
    }

    // The timers after IN.
    pub fn port_in(self, port: u16) -> Timers
        ensures { result ≡ def.timers_after_in self port }
    {
        Timers {
            timer0: self.timer0.after_in(TIMER0, port),
            timer1: self.timer1.after_in(TIMER1, port),
        }
    }

    // The timers after OUT.
    pub fn port_out(self, port: u16, v: u16) -> Timers
        ensures { result ≡ def.timers_after_out self port v }
    {
        Timers {
            timer0: self.timer0.after_out(TIMER0, port, v),
            timer1: self.timer1.after_out(TIMER1, port, v),
        }
    }
}
