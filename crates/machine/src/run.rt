// A run.
ghost use Rattle.std.specs.Prelude.{◌≡◌};
ghost use Rattle.machine.specs.Answers.{states_of};
ghost use Rattle.machine.specs.Run as def;

use crate::{Condition, Ending, Event, Finished, State};
use memory::Memory;

// The states of a step.
pub fn states_of(event: Event) -> u16
    ensures { result ≡ states_of event }
{
    match event {
        Event::Executed(n) => n,
        Event::Entered(_, _, _) => 12,
        Event::Halted => 5,
        Event::Lost => 0,
    }
}

// How a run ends that does no step more.
impl From<Condition> for Ending {
    ghost from_gives = { λ condition ending. ending ≡ def.stopped_ending condition };

    fn from(condition: Condition) -> Ending {
        match condition {
            Condition::Running => Ending::Spent,
            Condition::Halted => Ending::Halted,
            Condition::Lost => Ending::Lost,
        }
    }
}

impl State {
    // The end of a run.
    pub fn finish(self, steps: u16, states: u32, ending: Ending) -> Finished
        ensures { result ≡ record { state = self; steps = steps; states = states; ending = ending } }
    {
        Finished {
            state: self,
            steps,
            states,
            ending,
        }
    }

    // A run of at most `allowance` steps: the plain loop with its counted steps, which document 01 names, to be read. `runner::run` has
    // the same equation, and is fast.
    pub fn run(self, mem: &mut Memory, allowance: u16) -> Finished
        ensures answer { result ≡ def.finished (def.run_of allowance self mem.old) }
        ensures memory { mem.new ≡ (def.run_of allowance self mem.old).memory }
    {
        let mut state = self;
        let mut states = 0;
        for steps in 0..allowance {
            if state.condition != Condition::Running {
                return state.finish(steps, states, state.condition.into());
            }
            let stepped = state.step(mem);
            state = stepped.state;
            states += u32::from(states_of(stepped.event));
            if let Event::Entered(number, pc, flag) = stepped.event {
                return state.finish(steps + 1, states, Ending::Entered(number, pc, flag));
            }
        }
        state.finish(allowance, states, state.condition.into())
    }
}
