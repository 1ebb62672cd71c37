// What a step is going to do: the last tests of an instruction, its result, the plan.
#![tactic(auto)]

ghost use Rattle.std.specs.Prelude.{◌≡◌};
ghost use Rattle.plan.specs.Trap.{trap_number};

mod results;
mod tests;

use memory::Store;
use mmu::Violation;
pub use results::result;
pub use tests::end;

// Why an instruction enters the kernel, but for its accesses, by the number of the entry.
#[derive(Clone, Copy)]
pub enum Trap {
    ZeroDivisor = 12,
    NotPermitted,
    Undefined,
    ServiceCall,
}

// The number that the kernel is entered with.
impl From<Trap> for u8 {
    ghost from_gives = { λ trap number. number ≡ trap_number trap };

    fn from(trap: Trap) -> u8 {
        trap as u8
    }
}

// An instruction before its last tests.
#[derive(Clone, Copy)]
pub struct Ready {
    pub code: u8,
    pub rd: u8,
    // What Rd holds before the instruction.
    pub held: u16,
    // The operand's address.
    pub address: u16,
    // The address of the following instruction.
    pub following: u16,
    // The states that decoding gives.
    pub cost: u8,
    // The operand's value.
    pub source: u16,
    // The second word of two.
    pub second: u16,
    pub store: Option<Store>,
}

// An instruction of which every test has passed.
#[derive(Clone, Copy)]
pub struct Operation {
    pub code: u8,
    pub rd: u8,
    // What Rd holds before the instruction.
    pub held: u16,
    // The operand's value: a word or a byte that was read, an immediate or a register.
    pub source: u16,
    // The port of IN or OUT.
    pub port: u16,
    // PC after the instruction.
    pub pc: u16,
    pub states: u16,
    pub store: Option<Store>,
}

// What a step is going to do.
#[derive(Clone, Copy)]
pub enum Plan {
    // Enter by the lowest pending line.
    Interrupt(u8),
    // Enter because an access is not granted.
    Violation(Violation),
    // Enter by a trap, with the PC to be saved.
    Trap(Trap, u16),
    // Carry out an instruction.
    Perform(Operation),
}
