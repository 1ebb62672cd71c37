// What an instruction does to the state.
ghost use Rattle.std.specs.Prelude.{◌≡◌};
ghost use Rattle.machine.specs.Execute as def;
ghost use Rattle.machine.specs.Flag.{with_flag};
ghost use Rattle.machine.specs.State.{with_condition, with_stack};
ghost use Rattle.word.specs.Word as words;

use crate::{Condition, Event, State};
use decode::code::*;
use plan::Operation;
use word::{minus, plus};

// What an instruction did.
#[tactic(auto, unfolding(crate::specs::Execute::event_of))]
pub(crate) fn event_of(op: Operation) -> Event
    ensures { result ≡ def.event_of op }
{
    if op.code == HALT {
        return Event::Halted;
    }
    Event::Executed(op.states)
}

impl State {
    pub(crate) fn set_condition(self, condition: Condition) -> State
        ensures { result ≡ with_condition self condition }
    {
        State { condition, ..self }
    }

    // RETI: FLAG from a word, and SSP raised.
    fn resume(self, w: u16) -> State
        ensures { result ≡ with_flag (with_stack self (words.plus self.ssp 4) self.usp) w }
    {
        let ssp = plus(self.ssp, 4);
        State { ssp, ..self }.load_flag(w)
    }

    // The state after an instruction but for PC, by a match with ranges over the numbers, which document 01 names.
    #[tactic(auto, unfolding(crate::specs::Execute::body_of))]
    fn body(self, op: Operation) -> State
        ensures { result ≡ def.body_of self op }
    {
        match op.code {
            LD | LDFLAG => self.set_register(op.rd, op.source),
            CMP => self.set_flags(alu::sub(op.held, op.source)),
            IN => {
                let value = self.port_value(op.port);
                self.port_in(op.port).set_register(op.rd, value)
            }
            OUT => self.port_out(op.port, op.held),
            CALL | PUSH => self.set_sp(minus(self.sp(), 2)),
            POP => self
                .set_sp(plus(self.sp(), 2))
                .set_register(op.rd, op.source),
            RET => self.set_sp(plus(self.sp(), 2)),
            RETI => self.resume(op.source),
            HALT => self.set_condition(Condition::Halted),
            ADD..=SHRL => {
                let r = plan::result(op.code, op.held, op.source);
                self.set_flags(r).set_register(op.rd, r.value)
            }
            _ => self,
        }
    }

    // The state after an instruction.
    #[tactic(auto, unfolding(crate::specs::Execute::after_operation))]
    pub(crate) fn perform(self, op: Operation) -> State
        ensures { result ≡ def.after_operation self op }
    {
        self.set_pc(op.pc).body(op)
    }
}
