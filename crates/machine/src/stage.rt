// The stages of a plan: what a step is going to do.
ghost use Rattle.std.specs.Prelude.{◌≡◌};
ghost use Rattle.machine.specs.Plan as def;
ghost use Rattle.machine.specs.State.{with_tlb};

use crate::{Planned, State};
use decode::{Instruction, Shape, first_word};
use memory::{Memory, word_at};
use mmu::{Fault, Violation};
use plan::{Plan, Ready, Trap};
use transfer::{Data, transfer_for, value_stored};
use word::plus;

impl State {
    pub(crate) fn set_tlb(self, tlb: [u32; 8]) -> State
        ensures { result ≡ with_tlb self tlb }
    {
        State { tlb, ..self }
    }

    // Whether the MMU translates.
    pub fn translates(self) -> bool
        ensures { result ≡ def.translates self }
    {
        self.mmu && !self.flags.p
    }

    // Whether an interrupt is due.
    #[tactic(auto, unfolding(status::specs::Pending::interrupt_in))]
    pub fn interrupted(self) -> bool
        ensures { result ≡ def.interrupted self }
    {
        self.flags.e && self.pending != 0
    }

    // The transfer was done, or the kernel is entered.
    fn plan_transfer(
        self,
        transfer: Result<Data, Violation>,
        ins: Instruction,
        held: u16,
        address: u16,
        following: u16,
    ) -> Plan
        ensures { result ≡ def.plan_transfer transfer self ins held address following }
    {
        match transfer {
            Ok(data) => plan::end(
                ins.flow,
                Ready {
                    code: ins.code,
                    rd: ins.rd,
                    held,
                    address,
                    following,
                    cost: ins.cost,
                    source: data.source,
                    second: data.second,
                    store: data.store,
                },
                self.pc,
                self.flags.taken(ins.rd),
            ),
            Err(violation) => Plan::Violation(violation),
        }
    }

    // The operand access, and on.
    #[tactic(auto, unfolding(crate::specs::Plan::plan_operand))]
    fn plan_operand(self, mem: &Memory, ins: Instruction, following: u16) -> Planned
        ensures { result ≡ def.plan_operand self mem.now ins following }
    {
        let held = self.register(following, ins.rd);
        let address = self.address(following, ins.operand);
        let need = self.need(ins.access, following, address, ins.operand);
        let value = value_stored(ins.code, held, following);
        let t = transfer_for(need, self.translates(), self.tlb, mem, value);
        Planned {
            plan: self.plan_transfer(t.transfer, ins, held, address, following),
            state: self.set_tlb(t.tlb),
        }
    }

    // The second word, if there is one, and on.
    #[tactic(auto, unfolding(crate::specs::Plan::plan_second))]
    fn plan_second(self, mem: &Memory, shape: Shape) -> Planned
        ensures { result ≡ def.plan_second self mem.now shape }
    {
        let (state, second, following) = if shape.second {
            let next = plus(self.pc, 2);
            let x = transfer::fetch(self.translates(), self.tlb, next);
            let state = self.set_tlb(x.tlb);
            match x.access {
                Ok(at) => (state, word_at(mem, at), plus(self.pc, 4)),
                Err(fault) => return state.violates(fault, next),
            }
        } else {
            (self, 0, plus(self.pc, 2))
        };
        // One call: called for either, the rest of the plan is left as a call, and the state goes to it and back through memory.
        state.plan_operand(mem, decode::decoded(shape, second), following)
    }

    // An access was not granted.
    fn violates(self, fault: Fault, address: u16) -> Planned
        ensures { result ≡ def.violated fault address self }
    {
        Planned {
            plan: Plan::Violation(Violation { fault, address }),
            state: self,
        }
    }

    // Undefined instructions and privilege, and on.
    #[tactic(auto, unfolding(crate::specs::Plan::plan_first))]
    fn plan_first(self, mem: &Memory, first: Option<Shape>) -> Planned
        ensures { result ≡ def.plan_first first self mem.now }
    {
        let trap = match first {
            None => Trap::Undefined,
            Some(shape) if !self.flags.permits(shape.privilege) => Trap::NotPermitted,
            Some(shape) => return self.plan_second(mem, shape),
        };
        Planned {
            plan: Plan::Trap(trap, self.pc),
            state: self,
        }
    }

    // The fetch, and on.
    #[tactic(auto, unfolding(crate::specs::Plan::plan_fetch))]
    fn plan_fetch(self, mem: &Memory) -> Planned
        ensures { result ≡ def.plan_fetch self mem.now }
    {
        let x = transfer::fetch(self.translates(), self.tlb, self.pc);
        let state = self.set_tlb(x.tlb);
        match x.access {
            Ok(at) => state.plan_first(mem, first_word(word_at(mem, at))),
            Err(fault) => state.violates(fault, self.pc),
        }
    }

    // The plan of a step, and the state with the marks of its accesses.
    #[tactic(auto, unfolding(crate::specs::Plan::plan_of))]
    pub(crate) fn plan(self, mem: &Memory) -> Planned
        ensures { result ≡ def.plan_of self mem.now }
    {
        if self.interrupted() {
            return Planned {
                plan: Plan::Interrupt(self.pending.trailing_zeros() as u8),
                state: self,
            };
        }
        self.plan_fetch(mem)
    }
}
