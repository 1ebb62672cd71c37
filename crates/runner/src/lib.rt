// The runner: a second tier above the machine. Plain instructions are carried out on PC, the arithmetic flags and the registers alone; every
// other step is the machine's.
#![tactic(auto)]

ghost use Rattle.std.specs.Prelude.{◌≡◌, ◌*◌, ◌≤◌, ⊤};

mod ahead;
mod quick;
mod runs;

pub use runs::run;
use std::alloc::AllocError;

// Where plain instructions have led, how many they were, and their states.
#[derive(Drop)]
pub struct Part<T> {
    pub at: T,
    pub steps: u16,
    pub states: u32,
    pub ghost bound: { states ≤ 65535 * steps },
}

// By hand: beside a ghost field no `Clone` is derived where there is a type parameter.
impl<T: Copy> Clone for Part<T> {
    ghost is_clone = { λ part other. other ≡ part };

    ghost is_infallible = { λ _. ⊤ };

    fn clone(&self) -> Result<Part<T>, AllocError> {
        Ok(*self)
    }
}

impl<T: Copy> Copy for Part<T> {}
