// A run as a call, on buffers that the caller lends.
#![tactic(auto)]

ghost use Rattle.std.specs.Prelude.{◌++◌, ◌≡◌, ◌≤◌, drop, length};
ghost use Rattle.image.specs.Decode.{state_from};
ghost use Rattle.image.specs.Image.{image_of};
ghost use Rattle.machine.specs.Run.{run_of};
ghost use Rattle.call.specs.Call.{buffers, called};
ghost use Rattle.report.specs.Layout.{report_size};
ghost use Rattle.report.specs.Report.{report_of_ran};
ghost use Rattle.direct.specs.Call as def;

use call::Answer;
use layout::Image;
use memory::Memory;
use report::REPORT;

// A run on buffers that are valid.
fn run_valid(memory: &mut Memory, image: &mut Image, allowance: u16, report: &mut [u8])
    requires { report_size ≤ length report.old }
    ensures memory { memory.new ≡ (run_of allowance (state_from image.old) memory.old).memory }
    ensures image { image.new ≡ image_of (run_of allowance (state_from image.old) memory.old).state }
    ensures report { report.new ≡ report_of_ran (run_of allowance (state_from image.old) memory.old) ++ drop report_size report.old }
{
    let state = image::read_image(image);
    // No map is kept from run to run.
    let finished = runner::run(state, memory, allowance, false, None);
    image::write_image(image, finished.state);
    report::write_run(report, finished);
}

// A run, its report at the front of `report`; it gives the number of report bytes filled.
#[tactic(auto, unfolding(crate::specs::Call::run_call))]
pub fn run(memory: &mut [u8], image: &mut [u8], allowance: u16, report: &mut [u8]) -> Answer
    ensures { called result (buffers memory.new image.new report.new) ≡ def.run_call memory.old image.old allowance report.old }
{
    call::validate_run(memory.len(), image, report.len())?;
    let memory = memory.as_mut_array().unwrap();
    let image = image.as_mut_array().unwrap();
    run_valid(memory, image, allowance, report);
    Ok(REPORT as u32)
}
