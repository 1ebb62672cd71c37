// The record of a fault.
#![tactic(auto)]

ghost use Rattle.std.specs.Prelude.{◌≡◌};
ghost use Rattle.mmu.specs.Answers.{cause_bit};
ghost use Rattle.fault.specs.Fault as def;

use mmu::{Fault, Violation};

// The bits of a cause.
const NO_RIGHT: u8 = 1;

const ODD_ADDRESS: u8 = 2;

// The record of a fault: the violation address, its cause and the missed page.
#[derive(Clone, Copy)]
pub struct FaultRecord {
    pub violation: u16,
    pub cause: u8,
    pub missed: u8,
}

// What a reader of the record gives, and the record that it leaves.
#[derive(Clone, Copy)]
pub struct Readout {
    pub given: FaultRecord,
    pub left: FaultRecord,
}

// What a fault adds to the cause.
fn cause_bit(fault: Fault) -> u8
    ensures { result ≡ cause_bit fault }
{
    match fault {
        Fault::Odd => ODD_ADDRESS,
        Fault::Missing => 0,
        Fault::Refused => NO_RIGHT,
    }
}

impl FaultRecord {
    // The record after an access that was not granted.
    pub fn noted(self, violation: Violation) -> FaultRecord
        ensures { result ≡ def.record_after violation.fault violation.address self }
    {
        match violation.fault {
            Fault::Missing => FaultRecord {
                missed: (violation.address / 256) as u8,
                ..self
            },
            Fault::Odd | Fault::Refused => FaultRecord {
                violation: violation.address,
                cause: self.cause | cause_bit(violation.fault),
                ..self
            },
        }
    }

    // The record as it is, and the one that is left, with this cause.
    fn leaving(self, cause: u8) -> Readout
        ensures { result ≡ def.leaving cause self }
    {
        Readout {
            given: self,
            left: FaultRecord { cause, ..self },
        }
    }

    // The reader that does not consume: a look.
    pub fn look(self) -> Readout
        ensures { result ≡ def.looked self }
    {
        self.leaving(self.cause)
    }

    // The reader that consumes: IN of A4h.
    pub fn consume(self) -> Readout
        ensures { result ≡ def.consumed self }
    {
        self.leaving(0)
    }
}
