// The machine: its state, and what each of its parts answers.
#![tactic(auto)]

mod entry;
mod execution;
mod flag;
mod needs;
mod port;
mod record;
mod register;
mod run;
mod stage;
mod step;

use fault::FaultRecord;
use plan::Plan;
pub use run::states_of;
use status::Flags;
use timer::Timers;

// The condition of a machine.
#[derive(Clone, Copy, PartialEq, Eq)]
pub enum Condition {
    Running,
    Halted,
    Lost,
}

// The input byte and the output byte.
#[derive(Clone, Copy)]
pub struct Ports {
    pub input: u8,
    pub output: u8,
}

// The state of a machine, without its memory.
#[derive(Clone, Copy)]
pub struct State {
    // G0 to G11 and FP.
    pub regs: [u16; 13],
    pub ssp: u16,
    pub usp: u16,
    pub pc: u16,
    pub flags: Flags,
    // Pending lines: bit n is interrupt n.
    pub pending: u16,
    pub ports: Ports,
    // MMU on.
    pub mmu: bool,
    pub condition: Condition,
    pub fault: FaultRecord,
    // TLB entries of 24 bits.
    pub tlb: [u32; 8],
    pub timers: Timers,
}

// What a look at the fault record gives, and the state after it.
#[derive(Clone, Copy)]
pub struct Looked {
    pub given: FaultRecord,
    pub state: State,
}

// A plan, and the state with the marks of its accesses.
#[derive(Clone, Copy)]
pub struct Planned {
    pub plan: Plan,
    pub state: State,
}

// What a step did.
#[derive(Clone, Copy)]
pub enum Event {
    // An instruction, in this many states.
    Executed(u16),
    // The kernel was entered: the number, and the PC and FLAG that were saved.
    Entered(u8, u16, u16),
    Halted,
    Lost,
}

// The next state and what the step did.
#[derive(Clone, Copy)]
pub struct Stepped {
    pub state: State,
    pub event: Event,
}

// How a run ended. An entry has the same three as in `Event`: each enum is taken apart by itself.
#[derive(Clone, Copy)]
pub enum Ending {
    Spent,
    Entered(u8, u16, u16),
    Halted,
    Lost,
}

// The end of a run: the last state, the steps done, their states, and how it ended.
#[derive(Clone, Copy)]
pub struct Finished {
    pub state: State,
    pub steps: u16,
    pub states: u32,
    pub ending: Ending,
}
