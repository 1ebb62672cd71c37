// What a call answers, whatever it is lent, and the tests of what most calls are lent: memory, image and report.
#![tactic(auto)]

mod validity;

use refusal::Refusal;
pub use validity::{report_fits, validate_image, validate_machine, validate_run};

// The number that the call gives, which each call says; or why it is refused.
pub type Answer = Result<u32, Refusal>;
