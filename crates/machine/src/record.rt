// The record of a fault in the state.
ghost use Rattle.std.specs.Prelude.{◌≡◌};
ghost use Rattle.machine.specs.Fault as def;
ghost use Rattle.machine.specs.Look.{look_of};

use crate::{Looked, State};
use fault::Readout;
use mmu::Violation;

impl State {
    // The violation address and cause, or the missed page, of an access that was not granted.
    pub(crate) fn note(self, violation: Violation) -> State
        ensures { result ≡ def.noted violation.fault violation.address self }
    {
        let fault = self.fault.noted(violation);
        State { fault, ..self }
    }

    // The record, and the state as it is.
    pub fn look(self) -> Looked
        ensures { result ≡ look_of self }
    {
        let Readout { given, left } = self.fault.look();
        let state = State {
            fault: left,
            ..self
        };
        Looked { given, state }
    }
}
