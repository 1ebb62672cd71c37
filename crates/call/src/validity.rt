// The tests of memory, image and report.
ghost use Rattle.std.specs.Prelude.{◌≡◌};
ghost use Rattle.call.specs.Valid as def;

use layout::IMAGE;
use refusal::{Cause, Validity, good_if, refused};
use report::REPORT;

// Bytes of memory.
const MEMORY: usize = 65536;

// Refusal 1.
#[tactic(auto, unfolding(crate::specs::Valid::memory_valid))]
fn validate_memory(memory: usize) -> Validity
    ensures { result ≡ def.memory_valid memory }
{
    good_if(memory == MEMORY, Cause::MemoryLength)
}

// Refusals 2 and 3.
#[tactic(auto, unfolding(crate::specs::Valid::image_valid))]
pub fn validate_image(image: &[u8]) -> Validity
    ensures { result ≡ def.image_valid image.now }
{
    let Some(image) = image.as_array::<IMAGE>() else {
        return refused(Cause::ImageLength);
    };
    good_if(layout::good_image(image), Cause::ImageField)
}

// Refusals 1 to 3.
pub fn validate_machine(memory: usize, image: &[u8]) -> Validity
    ensures { result ≡ def.machine_valid memory image.now }
{
    validate_memory(memory)?;
    validate_image(image)
}

// Refusal 8: a report of this length has room for the bytes needed.
#[tactic(auto, unfolding(crate::specs::Valid::report_fits))]
pub fn report_fits(length: usize, needed: usize) -> Validity
    ensures { result ≡ def.report_fits length needed }
{
    good_if(needed <= length, Cause::ReportLength)
}

// The tests of a run and of a view.
pub fn validate_run(memory: usize, image: &[u8], report: usize) -> Validity
    ensures { result ≡ def.run_valid memory image.now report }
{
    validate_machine(memory, image)?;
    report_fits(report, REPORT)
}
