// The numbers of the instructions: the first byte's upper five bits, but that LD Rd,FLAG, POP and RETI, which share theirs with ST, PUSH
// and RET, have numbers that are free. They are numbers and no enum, since the decoding and the body of a step go by ranges of them, as ADD
// to MOD: document 01 names that form.
pub const NO: u8 = 0;

pub const LD: u8 = 1;

pub const ST: u8 = 2;

pub const ADD: u8 = 3;

pub const SUB: u8 = 4;

pub const CMP: u8 = 5;

pub const AND: u8 = 6;

pub const OR: u8 = 7;

pub const XOR: u8 = 8;

pub const ADDS: u8 = 9;

pub const MUL: u8 = 10;

pub const DIV: u8 = 11;

pub const MOD: u8 = 12;

pub const LDFLAG: u8 = 15;

pub const SHLA: u8 = 16;

pub const SHLL: u8 = 17;

pub const SHRA: u8 = 18;

pub const SHRL: u8 = 19;

pub const JUMP: u8 = 20;

pub const CALL: u8 = 21;

pub const IN: u8 = 22;

pub const OUT: u8 = 23;

pub const PUSH: u8 = 24;

pub const POP: u8 = 25;

pub const RET: u8 = 26;

pub const RETI: u8 = 27;

pub const SVC: u8 = 30;

pub const HALT: u8 = 31;
