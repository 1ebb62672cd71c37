// The operand stage of a plain instruction: the registers, and the source that each mode names.
#![tactic(auto)]

mod operand;
mod registers;

pub use operand::{Source, frame_place, indexed_place, source_of};
pub use registers::{SP, USP, register, rx, wide};
