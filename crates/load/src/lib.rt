// The load of a motor: how many records of a run are on in the busiest of its windows.
#![tactic(auto)]

ghost use Rattle.std.specs.Prelude.{◌≡◌};
ghost use Rattle.call.specs.Call.{called};
ghost use Rattle.load.specs.Call as def;

mod window;

use call::Answer;
use refusal::{Cause, Validity, between, good_if};
use window::busiest_load;

// Refusal 10.
#[tactic(auto, unfolding(crate::specs::Call::width_valid))]
fn validate_width(width: u32) -> Validity
    ensures { result ≡ def.width_valid width }
{
    good_if(between(1, 4096, width), Cause::WindowWidth)
}

// The busiest window of a run of tick records; it gives its records on.
#[tactic(auto, using(crate::proofs::Laws::busiest_small), unfolding(crate::specs::Call::busiest_call))]
pub fn busiest(records: &[u8], width: u32) -> Answer
    ensures { called result records.now ≡ def.busiest_call records.now width }
{
    validate_width(width)?;
    Ok(busiest_load(records, width as usize) as u32)
}
