// Ticks.
ghost use Rattle.std.specs.Prelude.{◌++◌, ◌≡◌, ◌*◌, ◌+◌, ◌≤◌, drop, length};
ghost use Rattle.barrel.specs.Barrel.{input_with};
ghost use Rattle.endian.specs.Bytes.{word_bytes};
ghost use Rattle.machine.specs.State.{with_input};
ghost use Rattle.winder.specs.Laws.{Bounded};
ghost use Rattle.winder.specs.Simulation as def;

use crate::Stage;
use crate::validity::Tried;
use machine::State;
use memory::Memory;
use pages::Maps;

// The machine with this input bit.
fn with_input_bit(mut state: State, set: bool) -> State
    ensures { result ≡ with_input state (input_with set state.ports.input) }
{
    state.ports.input = barrel::input_with(set, state.ports.input);
    state
}

// Before the first tick.
#[tactic(auto, unfolding(crate::specs::Simulation::start_of))]
fn start(state: State) -> Stage
    ensures { result ≡ def.start_of state }
{
    Stage {
        tick: 0,
        standing: 0,
        over: 0,
        state: with_input_bit(state, false),
    }
}

impl Tried {
    // What tick number `tick` leaves, so many standing after it: `before` is the first tick over of those before it, `state` what the machine has
    // come to.
    #[tactic(auto, unfolding(crate::specs::Simulation::after_tick))]
    fn after_tick(self, before: u32, state: State, tick: u32, standing: u32) -> Stage
        ensures { result ≡ def.after_tick self.settings.turns self.settings.notches before state tick standing }
    {
        let over = barrel::is_over(self.settings.turns, self.settings.notches, standing);
        let set = barrel::reached(self.settings.turns, self.settings.notches, standing);
        Stage {
            tick,
            standing,
            over: barrel::first_over(before, tick, over),
            state: with_input_bit(state, set),
        }
    }

    // A tick: the machine's steps, then the winding, then the taking.
    fn tick(self, at: Stage, mem: &mut Memory, maps: &mut Maps) -> Stage
        requires { Bounded at × (at.tick + 1 ≤ self.settings.ticks) }
        ensures stage { result ≡ (def.tick_of (def.winder_of self.settings) at mem.old).stage }
        ensures memory { mem.new ≡ (def.tick_of (def.winder_of self.settings) at mem.old).memory }
    {
        let steps = self.settings.steps as u16;
        let state = runner::run(at.state, mem, steps, true, Some(maps)).state;
        let number = at.tick + 1;
        let wound = at.standing + barrel::wound_by(state.ports.output);
        let taken = barrel::taken_at(self.settings.rundown, number, wound);
        self.after_tick(at.over, state, number, wound - taken)
    }

    // The ticks of a simulation, what stands after each in its place.
    pub fn ticks(self, state: State, mem: &mut Memory, places: &mut [u8]) -> Stage
        requires { 2 * self.settings.ticks ≤ length places.old }
        ensures stage { result ≡ (def.ticks_of (def.winder_of self.settings) self.settings.ticks (def.start_of state) mem.old).stage }
        ensures memory { mem.new ≡ (def.ticks_of (def.winder_of self.settings) self.settings.ticks (def.start_of state) mem.old).memory }
        ensures places { places.new ≡ word_bytes (def.standings (def.winder_of self.settings) self.settings.ticks (def.start_of state) mem.old) ++ drop (2 * self.settings.ticks) places.old }
    {
        let mut maps = Maps::new(state.tlb);
        let mut at = start(state);
        // By the chunks of `as_chunks_mut` the clause `places` has no proof: its contract says nothing of what the slice ends as.
        for done in 0..self.settings.ticks {
            let place = done as usize * 2;
            at = self.tick(at, mem, &mut maps);
            endian::put_word(places, place, at.standing as u16);
        }
        at
    }
}
