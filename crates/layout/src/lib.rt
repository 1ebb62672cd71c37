// The layout of a state image: the offset of each field, sizes in bytes, TLB entries in bytes; and the tests of its fields.
#![tactic(auto)]

mod entries;
mod validity;

pub use entries::{Entries, entry_from};
pub use validity::{flag_good, good_image, pending_good, zeros_good};

// The offsets.
pub const REGS: usize = 0;

pub const SSP: usize = 26;

pub const USP: usize = 28;

pub const PC: usize = 30;

pub const FLAG: usize = 32;

pub const PENDING: usize = 34;

pub const INPUT: usize = 36;

pub const OUTPUT: usize = 37;

pub const MMU: usize = 38;

pub const CONDITION: usize = 39;

pub const VIOLATION: usize = 40;

pub const CAUSE: usize = 42;

pub const MISSED: usize = 43;

pub const TLB: usize = 44;

pub const TIMER0: usize = 68;

pub const TIMER1: usize = 76;

pub const IMAGE: usize = 84;

// A state image.
pub type Image = [u8; IMAGE];

// G0 to G11 and FP.
pub const REGISTERS: usize = 13;

// A TLB entry: the page is its first byte.
pub const ENTRIES: usize = 8;

pub const ENTRY: usize = 3;

pub const MIDDLE: usize = 1;

pub const FRAME: usize = 2;

// A timer: its four words.
pub const COUNT: usize = 0;

pub const PERIOD: usize = 2;

pub const CONTROL: usize = 4;

pub const FIRED: usize = 6;
