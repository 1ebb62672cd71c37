// A winder to try settings on: a machine whose output byte winds a barrel and whose input byte tells of it, tick after tick.
#![tactic(auto)]

ghost use Rattle.std.specs.Prelude.{◌≡◌, ◌*◌, ◌≤◌, length, Ok};
ghost use Rattle.call.specs.Call.{called};
ghost use Rattle.winder.specs.Call as def;
ghost use Rattle.winder.specs.Simulation.{winder_of};

mod simulation;
mod validity;

use call::Answer;
use layout::Image;
use machine::State;
use memory::Memory;
use validity::{Tried, validate};

// What is tried: the label's maximum turns, the notches per turn, and the run-down, the ticks from one notch taken by the train to the next;
// for how many ticks, and the machine's steps in each.
#[derive(Clone, Copy)]
pub struct Settings {
    pub turns: u32,
    pub notches: u32,
    pub rundown: u32,
    pub ticks: u32,
    pub steps: u32,
}

// What a simulation has come to: the ticks done, the notches standing, the first tick over the label or 0 as C has it, and the machine.
#[derive(Clone, Copy)]
pub struct Stage {
    pub tick: u32,
    pub standing: u32,
    pub over: u32,
    pub state: State,
}

// A simulation on buffers and settings that have passed their tests; it gives the first tick over the label, or 0.
fn simulate(memory: &mut Memory, image: &mut Image, tried: Tried, places: &mut [u8]) -> u32
    requires { 2 * tried.settings.ticks ≤ length places.old }
    ensures { called (Ok result) (def.lent memory.new image.new places.new) ≡ def.simulated_call (winder_of tried.settings) tried.settings.ticks memory.old image.old places.old }
{
    let last = tried.ticks(image::read_image(image), memory, places);
    image::write_image(image, last.state);
    last.over
}

// A simulation, the standing notches at the front of `places`; it gives the first tick over the label, or 0.
#[tactic(auto, unfolding(crate::specs::Call::wind_call))]
pub fn wind(memory: &mut [u8], image: &mut [u8], settings: Settings, places: &mut [u8]) -> Answer
    ensures { called result (def.lent memory.new image.new places.new) ≡ def.wind_call memory.old image.old settings places.old }
{
    let tried = validate(memory.len(), image, settings, places.len())?;
    let memory = memory.as_mut_array().unwrap();
    let image = image.as_mut_array().unwrap();
    Ok(simulate(memory, image, tried, places))
}
