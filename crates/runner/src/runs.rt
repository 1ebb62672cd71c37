// Runs: plain instructions, then a step of the machine, in turn.
ghost use Rattle.std.specs.Prelude.{◌≡◌};
ghost use Rattle.machine.specs.Run as def;

use crate::ahead::ahead;
use machine::{Condition, Ending, Event, Finished, State, Stepped, states_of};
use memory::Memory;
use pages::Maps;

// A run of at most `allowance` steps, which goes on through kernel entries or ends there: a flag says which, since with a loop each the machine's step is
// left as a call, and a call of one step takes a quarter longer. `maps` are kept from run to run. Where there are none, a map is made wherever plain
// instructions begin: places for them would cost a short run more than they save it.
pub fn run(
    start: State,
    mem: &mut Memory,
    allowance: u16,
    through: bool,
    mut maps: Option<&mut Maps>,
) -> Finished
    ensures answer { result ≡ def.finished (def.go_of through allowance start mem.old) }
    ensures memory { mem.new ≡ (def.go_of through allowance start mem.old).memory }
{
    let mut state = start;
    let mut steps: u16 = 0;
    let mut states: u32 = 0;
    // What plain instructions may take: nothing before the first step of a run that ends at an entry, since many a one has no other step.
    let mut spare = if through { allowance } else { 0 };
    // A turn takes a number of steps that is not known before.
    loop {
        let part = ahead(state, mem, spare, maps.as_deref_mut());
        steps += part.steps;
        states += part.states;
        let at = part.at;
        if at.condition != Condition::Running || steps == allowance {
            return at.finish(steps, states, at.condition.into());
        }
        let Stepped { state: next, event } = at.step(mem);
        steps += 1;
        states += u32::from(states_of(event));
        state = next;
        spare = allowance - steps;
        if !through {
            if let Event::Entered(number, pc, flag) = event {
                return state.finish(steps, states, Ending::Entered(number, pc, flag));
            }
        }
    }
}
