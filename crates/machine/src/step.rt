// A step.
ghost use Rattle.std.specs.Prelude.{◌≡◌};
ghost use Rattle.machine.specs.Step as def;

use crate::execution::event_of;
use crate::{State, Stepped};
use memory::{Memory, make_store};
use plan::Plan;
use status::without;

impl State {
    // The step that carries out a plan.
    #[tactic(auto, unfolding(crate::specs::Step::commit))]
    fn commit(self, mem: &mut Memory, plan: Plan) -> Stepped
        ensures answer { result ≡ def.answer (def.commit plan self mem.old) }
        ensures memory { mem.new ≡ (def.commit plan self mem.old).memory }
    {
        let (state, pending, number, saved) = match plan {
            Plan::Interrupt(line) => (self, without(self.pending, line), line, self.pc),
            Plan::Violation(violation) => {
                let number = violation.fault.into();
                (self.note(violation), self.pending, number, self.pc)
            }
            Plan::Trap(trap, saved) => (self, self.pending, trap.into(), saved),
            Plan::Perform(op) => {
                make_store(mem, op.store);
                return Stepped {
                    state: self.perform(op),
                    event: event_of(op),
                };
            }
        };
        // One call: called in each arm, the kernel entry is left as a call, and the state goes to it and back through memory.
        state.enter_kernel(mem, pending, number, saved)
    }

    // One step of a running machine.
    #[tactic(auto, unfolding(crate::specs::Step::step_of))]
    pub fn step(self, mem: &mut Memory) -> Stepped
        ensures answer { result ≡ def.answer (def.step_of self mem.old) }
        ensures memory { mem.new ≡ (def.step_of self mem.old).memory }
    {
        let planned = self.plan(mem);
        planned.state.commit(mem, planned.plan)
    }
}
