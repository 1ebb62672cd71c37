// The tests of a simulation.
ghost use Rattle.std.specs.Prelude.{◌≡◌, ◌*◌, ◌≤◌, IfOk};
ghost use Rattle.winder.specs.Bounds.{InBounds, verdict};
ghost use Rattle.winder.specs.Call as def;

use crate::Settings;
use refusal::{Cause, Refusal, between, good_if};

// Settings within their bounds: the test alone makes them.
#[derive(Clone, Copy)]
pub struct Tried {
    pub settings: Settings,
    ghost in_bounds: { InBounds settings },
}

#[tactic(auto, unfolding(crate::specs::Call::settings_good))]
fn good_settings(settings: Settings, places: usize) -> bool
    ensures { result ≡ def.settings_good settings places }
{
    between(1, 999, settings.turns)
        && between(1, 64, settings.notches)
        && between(1, 64, settings.rundown)
        && between(1, 65535, settings.ticks)
        && between(1, 65535, settings.steps)
        && settings.ticks as usize <= places / 2
}

// Refusal 9.
#[tactic(auto, unfolding(crate::specs::Call::settings_valid))]
fn validate_settings(settings: Settings, places: usize) -> Result<Tried, Refusal>
    ensures valid { verdict result ≡ def.settings_valid settings places }
    ensures same { IfOk result (λ t. t.settings ≡ settings) }
    ensures room { IfOk result (λ t. 2 * settings.ticks ≤ places) }
{
    good_if(good_settings(settings, places), Cause::WinderSetting)?;
    Ok(Tried { settings })
}

// Refusals 1, 2, 3 and 9.
pub fn validate(
    memory: usize,
    image: &[u8],
    settings: Settings,
    places: usize,
) -> Result<Tried, Refusal>
    ensures valid { verdict result ≡ def.wind_valid memory image.now settings places }
    ensures same { IfOk result (λ t. t.settings ≡ settings) }
    ensures room { IfOk result (λ t. 2 * settings.ticks ≤ places) }
{
    call::validate_machine(memory, image)?;
    validate_settings(settings, places)
}
