// The bits of a TLB entry.
pub const VALID: u32 = 0x8000;

pub const REFERENCED: u32 = 0x1000;

pub const DIRTY: u32 = 0x800;

pub const READ: u32 = 0x400;

pub const WRITE: u32 = 0x200;

pub const EXECUTE: u32 = 0x100;
