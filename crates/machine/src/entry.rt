// Kernel entry.
ghost use Rattle.std.specs.Prelude.{◌≡◌};
ghost use Rattle.machine.specs.Enter as def;
ghost use Rattle.machine.specs.State.{with_pending};
ghost use Rattle.machine.specs.Step.{answer};

use crate::{Condition, Event, State, Stepped};
use memory::{Memory, word_at};
use word::{minus, plus};

// Where the vectors begin.
const VECTORS: u16 = 0xffe0;

impl State {
    pub(crate) fn set_pending(self, pending: u16) -> State
        ensures { result ≡ with_pending self pending }
    {
        State { pending, ..self }
    }

    // The state in the handler.
    fn in_kernel(self, handler: u16) -> State
        ensures { result ≡ def.in_kernel self handler }
    {
        State {
            flags: self.flags.in_kernel(),
            ssp: minus(self.ssp, 4),
            pc: handler,
            ..self
        }
    }

    // The entry with a number, `saved` being the PC that is pushed and `pending` the lines that are left; or the loss, where SSP is odd.
    #[tactic(auto, unfolding(crate::specs::Enter::enter_of))]
    pub fn enter_kernel(self, mem: &mut Memory, pending: u16, number: u8, saved: u16) -> Stepped
        ensures answer { result ≡ answer (def.enter_of self pending number saved mem.old) }
        ensures memory { mem.new ≡ (def.enter_of self pending number saved mem.old).memory }
    {
        if self.ssp % 2 == 1 {
            return Stepped {
                state: self.set_condition(Condition::Lost),
                event: Event::Lost,
            };
        }
        self.flags.push(mem, self.ssp, saved);
        let handler = word_at(mem, plus(VECTORS, 2 * u16::from(number)));
        Stepped {
            state: self.set_pending(pending).in_kernel(handler),
            event: Event::Entered(number, saved, self.flags.word()),
        }
    }
}
