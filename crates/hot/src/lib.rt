// One plain instruction on PC, the arithmetic flags and the registers alone. One that is not plain is not carried out here. Registers, map and memory are
// parameters one by one: in one struct of borrows they leave six functions as calls, and the loop takes 72 % more machine instructions. That PC is even
// each instruction asks for itself: as a fact of `Hot` it would be asked of `s`, `z` and `stop` too, which take any PC.
#![tactic(auto)]

mod arm;
mod flags;
mod turn;

pub use flags::upper_flags;

// PC and the arithmetic flags, S and Z being those of a result. `cost` is the states of the last instruction, 0 where it was not carried
// out; then nothing else has changed. With an `Option<Hot>` in place of that 0 the compiled loop takes 0.9 % more machine instructions.
#[derive(Clone, Copy)]
pub struct Hot {
    pub pc: u16,
    pub v: bool,
    pub c: bool,
    pub result: u16,
    pub cost: u32,
}
