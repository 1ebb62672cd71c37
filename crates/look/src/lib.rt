// A look at the fault record as a call, on an image that the caller lends.
#![tactic(auto)]

ghost use Rattle.std.specs.Prelude.{◌≡◌};
ghost use Rattle.call.specs.Call.{called};
ghost use Rattle.look.specs.Call as def;

use call::Answer;
use fault::FaultRecord;

// The record in one number, as C has it: cause × 2^24 + missed page × 2^16 + violation address.
fn fault_word(fault: FaultRecord) -> u32
    ensures { result ≡ def.fault_word fault }
{
    fault.cause as u32 * 0x100_0000 + fault.missed as u32 * 0x1_0000 + fault.violation as u32
}

// A look; it gives the record.
#[tactic(auto, unfolding(crate::specs::Call::fault_call))]
pub fn look(image: &[u8]) -> Answer
    ensures { called result image.now ≡ def.fault_call image.now }
{
    call::validate_image(image)?;
    Ok(fault_word(image::read_image(image.as_array().unwrap()).look().given))
}
