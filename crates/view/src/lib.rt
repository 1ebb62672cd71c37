// A view: the report of a run of no step, on buffers that the caller lends.
#![tactic(auto)]

ghost use Rattle.std.specs.Prelude.{List, ◌++◌, ◌≡◌, ℕ, ◌≤◌, drop, length};
ghost use Rattle.image.specs.Decode.{state_from};
ghost use Rattle.machine.specs.Run.{run_of};
ghost use Rattle.call.specs.Call.{buffers, called};
ghost use Rattle.report.specs.Layout.{report_size};
ghost use Rattle.report.specs.Report.{report_of_ran};
ghost use Rattle.view.specs.Call as def;

use call::Answer;
use layout::Image;
use report::REPORT;

// A view of an image that is valid, whatever the memory is.
fn view_valid(image: &Image, report: &mut [u8])
    requires { report_size ≤ length report.old }
    ensures { (m : List ℕ) → report.new ≡ report_of_ran (run_of 0 (state_from image.now) m) ++ drop report_size report.old }
{
    let state = image::read_image(image);
    report::write_run(report, state.finish(0, 0, state.condition.into()));
}

// A view; it gives the number of report bytes filled.
#[tactic(auto, unfolding(crate::specs::Call::view_call))]
pub fn view(memory: &[u8], image: &[u8], report: &mut [u8]) -> Answer
    ensures { called result (buffers memory.now image.now report.new) ≡ def.view_call memory.now image.now report.old }
{
    call::validate_run(memory.len(), image, report.len())?;
    view_valid(image.as_array().unwrap(), report);
    Ok(REPORT as u32)
}
