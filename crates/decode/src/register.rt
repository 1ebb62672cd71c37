// The numbers of the registers behind G0 to G11. They are numbers and no enum, since an instruction's fields name all sixteen by number, as
// document 01 lists them.
pub const FP: u8 = 12;

pub const SP: u8 = 13;

pub const USP: u8 = 14;

pub const PC: u8 = 15;
