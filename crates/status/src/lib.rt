// FLAG, the pending lines, and what a kernel entry saves.
#![tactic(auto)]

mod flag;
mod pending;
mod saved;

pub use pending::without;

// FLAG: E interrupts on, P privileged, I I/O privilege, V overflow, C carry, S sign, Z zero.
#[derive(Clone, Copy)]
pub struct Flags {
    pub e: bool,
    pub p: bool,
    pub i: bool,
    pub v: bool,
    pub c: bool,
    pub s: bool,
    pub z: bool,
}
