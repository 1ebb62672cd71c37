// Registers by their numbers.
ghost use Rattle.std.specs.Prelude.{◌≡◌};
ghost use Rattle.machine.specs.Register as def;
ghost use Rattle.machine.specs.State.{with_pc};

use crate::State;
use decode::register::{FP, SP, USP};

impl State {
    // Register 13: SSP in kernel mode, USP in user mode.
    #[tactic(auto, unfolding(crate::specs::Register::sp_in))]
    pub fn sp(self) -> u16
        ensures { result ≡ def.sp_of self }
    {
        if self.flags.p { self.ssp } else { self.usp }
    }

    // Number 15 is the address of the following instruction.
    #[tactic(auto, unfolding(crate::specs::Register::reg_in))]
    pub fn register(self, following: u16, n: u8) -> u16
        ensures { result ≡ def.reg_of self following n }
    {
        match n {
            SP => self.sp(),
            USP => self.usp,
            0..=FP => self.regs[n as usize],
            _ => following,
        }
    }

    #[tactic(auto, unfolding(crate::specs::Register::ssp_with, crate::specs::Register::usp_with))]
    pub fn set_sp(mut self, v: u16) -> State
        ensures { result ≡ def.with_sp self v }
    {
        if self.flags.p {
            self.ssp = v;
        } else {
            self.usp = v;
        }
        self
    }

    #[tactic(auto, unfolding(crate::specs::Register::regs_after, crate::specs::Register::ssp_after, crate::specs::Register::usp_after))]
    pub fn set_register(mut self, n: u8, v: u16) -> State
        ensures { result ≡ def.with_reg self n v }
    {
        match n {
            0..=FP => self.regs[n as usize] = v,
            SP => return self.set_sp(v),
            _ => self.usp = v,
        }
        self
    }

    pub(crate) fn set_pc(self, pc: u16) -> State
        ensures { result ≡ with_pc self pc }
    {
        State { pc, ..self }
    }
}
