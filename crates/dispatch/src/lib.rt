// The instruction of a first word, by its first byte, which document 01 lists: 8 times the code, plus the mode. Code and mode stand as
// constants in each arm, so that the compiled loop makes one jump by the byte into code for that instruction in that mode. The arms are a
// table in six functions, in two chains: the compiler would not put a longer function into the loop. A step takes 50 machine instructions
// so, and 75 by a match over codes. The byte is handed on beside the word that it is of, as the loop has it. An even PC, and registers, map
// and memory one by one, are asked for what `hot` says of them.
#![tactic(auto)]

ghost use Rattle.std.specs.Prelude.{◌≡◌, ◌%◌, ◌*◌, ◌+◌, ◌/◌, ◌<◌};
ghost use Rattle.word.specs.Word.{upper};
ghost use Rattle.hot.specs.Tells.{Tells, Told};

use decode::code;
use hot::Hot;
use memory::Memory;

// The first byte from which on the second chain goes: that of ADDS with mode 0.
pub const HIGH: u8 = code::ADDS * 8;

// No byte of a plain instruction.
fn other(h: Hot, regs: &[u16; 16], map: &[u16; 256], mem: &Memory, w: u32) -> Hot
    ensures { Tells map.now regs.now mem.now h w regs.now mem.now result }
{
    h.stop()
}

// SHLL, SHRA, SHRL.
fn shifts(h: Hot, regs: &mut [u16; 16], map: &[u16; 256], mem: &Memory, w: u32, byte: u8) -> Hot
    requires { (h.pc % 2 ≡ 0) × (upper w ≡ byte) }
    ensures { Tells map.now regs.old mem.now h w regs.new mem.now result }
{
    match byte {
        0x88 => h.op(regs, map, mem, w, code::SHLL, 0),
        0x89 => h.op(regs, map, mem, w, code::SHLL, 1),
        0x8a => h.op(regs, map, mem, w, code::SHLL, 2),
        0x8b => h.op(regs, map, mem, w, code::SHLL, 3),
        0x8c => h.op(regs, map, mem, w, code::SHLL, 4),
        0x8d => h.op(regs, map, mem, w, code::SHLL, 5),
        0x8e => h.op(regs, map, mem, w, code::SHLL, 6),
        0x8f => h.op(regs, map, mem, w, code::SHLL, 7),
        0x90 => h.op(regs, map, mem, w, code::SHRA, 0),
        0x91 => h.op(regs, map, mem, w, code::SHRA, 1),
        0x92 => h.op(regs, map, mem, w, code::SHRA, 2),
        0x93 => h.op(regs, map, mem, w, code::SHRA, 3),
        0x94 => h.op(regs, map, mem, w, code::SHRA, 4),
        0x95 => h.op(regs, map, mem, w, code::SHRA, 5),
        0x96 => h.op(regs, map, mem, w, code::SHRA, 6),
        0x97 => h.op(regs, map, mem, w, code::SHRA, 7),
        0x98 => h.op(regs, map, mem, w, code::SHRL, 0),
        0x99 => h.op(regs, map, mem, w, code::SHRL, 1),
        0x9a => h.op(regs, map, mem, w, code::SHRL, 2),
        0x9b => h.op(regs, map, mem, w, code::SHRL, 3),
        0x9c => h.op(regs, map, mem, w, code::SHRL, 4),
        0x9d => h.op(regs, map, mem, w, code::SHRL, 5),
        0x9e => h.op(regs, map, mem, w, code::SHRL, 6),
        0x9f => h.op(regs, map, mem, w, code::SHRL, 7),
        _ => other(h, regs, map, mem, w),
    }
}

// DIV, MOD, SHLA, and the shifts.
fn high_rest(h: Hot, regs: &mut [u16; 16], map: &[u16; 256], mem: &Memory, w: u32, byte: u8) -> Hot
    requires { (h.pc % 2 ≡ 0) × (upper w ≡ byte) }
    ensures { Tells map.now regs.old mem.now h w regs.new mem.now result }
{
    match byte {
        0x58 => h.op(regs, map, mem, w, code::DIV, 0),
        0x59 => h.op(regs, map, mem, w, code::DIV, 1),
        0x5a => h.op(regs, map, mem, w, code::DIV, 2),
        0x5b => h.op(regs, map, mem, w, code::DIV, 3),
        0x5c => h.op(regs, map, mem, w, code::DIV, 4),
        0x5d => h.op(regs, map, mem, w, code::DIV, 5),
        0x5e => h.op(regs, map, mem, w, code::DIV, 6),
        0x5f => h.op(regs, map, mem, w, code::DIV, 7),
        0x60 => h.op(regs, map, mem, w, code::MOD, 0),
        0x61 => h.op(regs, map, mem, w, code::MOD, 1),
        0x62 => h.op(regs, map, mem, w, code::MOD, 2),
        0x63 => h.op(regs, map, mem, w, code::MOD, 3),
        0x64 => h.op(regs, map, mem, w, code::MOD, 4),
        0x65 => h.op(regs, map, mem, w, code::MOD, 5),
        0x66 => h.op(regs, map, mem, w, code::MOD, 6),
        0x67 => h.op(regs, map, mem, w, code::MOD, 7),
        0x80 => h.op(regs, map, mem, w, code::SHLA, 0),
        0x81 => h.op(regs, map, mem, w, code::SHLA, 1),
        0x82 => h.op(regs, map, mem, w, code::SHLA, 2),
        0x83 => h.op(regs, map, mem, w, code::SHLA, 3),
        0x84 => h.op(regs, map, mem, w, code::SHLA, 4),
        0x85 => h.op(regs, map, mem, w, code::SHLA, 5),
        0x86 => h.op(regs, map, mem, w, code::SHLA, 6),
        0x87 => h.op(regs, map, mem, w, code::SHLA, 7),
        _ => shifts(h, regs, map, mem, w, byte),
    }
}

// Jumps, the stack, ADDS, MUL, and the rest of the second chain.
pub fn high(
    h: Hot,
    regs: &mut [u16; 16],
    map: &[u16; 256],
    mem: &mut Memory,
    w: u32,
    byte: u8,
) -> Hot
    requires { (h.pc % 2 ≡ 0) × (upper w ≡ byte) }
    ensures { Tells map.now regs.old mem.old h w regs.new mem.new result }
{
    match byte {
        0xa0 => h.jump(regs, map, mem, w, 0),
        0xa1 => h.jump(regs, map, mem, w, 1),
        0xa8 => h.call(regs, map, mem, w, 0),
        0xa9 => h.call(regs, map, mem, w, 1),
        0xc0 => h.push(regs, map, mem, w),
        0xc4 => h.pop(regs, map, mem, w),
        0xd0 => h.ret(regs, map, mem, w),
        0x48 => h.op(regs, map, mem, w, code::ADDS, 0),
        0x49 => h.op(regs, map, mem, w, code::ADDS, 1),
        0x4a => h.op(regs, map, mem, w, code::ADDS, 2),
        0x4b => h.op(regs, map, mem, w, code::ADDS, 3),
        0x4c => h.op(regs, map, mem, w, code::ADDS, 4),
        0x4d => h.op(regs, map, mem, w, code::ADDS, 5),
        0x4e => h.op(regs, map, mem, w, code::ADDS, 6),
        0x4f => h.op(regs, map, mem, w, code::ADDS, 7),
        0x50 => h.op(regs, map, mem, w, code::MUL, 0),
        0x51 => h.op(regs, map, mem, w, code::MUL, 1),
        0x52 => h.op(regs, map, mem, w, code::MUL, 2),
        0x53 => h.op(regs, map, mem, w, code::MUL, 3),
        0x54 => h.op(regs, map, mem, w, code::MUL, 4),
        0x55 => h.op(regs, map, mem, w, code::MUL, 5),
        0x56 => h.op(regs, map, mem, w, code::MUL, 6),
        0x57 => h.op(regs, map, mem, w, code::MUL, 7),
        _ => high_rest(h, regs, map, mem, w, byte),
    }
}

// AND, OR, XOR.
fn logic(h: Hot, regs: &mut [u16; 16], map: &[u16; 256], mem: &Memory, w: u32, byte: u8) -> Hot
    requires { (h.pc % 2 ≡ 0) × (upper w ≡ byte) }
    ensures { Tells map.now regs.old mem.now h w regs.new mem.now result }
{
    match byte {
        0x30 => h.op(regs, map, mem, w, code::AND, 0),
        0x31 => h.op(regs, map, mem, w, code::AND, 1),
        0x32 => h.op(regs, map, mem, w, code::AND, 2),
        0x33 => h.op(regs, map, mem, w, code::AND, 3),
        0x34 => h.op(regs, map, mem, w, code::AND, 4),
        0x35 => h.op(regs, map, mem, w, code::AND, 5),
        0x36 => h.op(regs, map, mem, w, code::AND, 6),
        0x37 => h.op(regs, map, mem, w, code::AND, 7),
        0x38 => h.op(regs, map, mem, w, code::OR, 0),
        0x39 => h.op(regs, map, mem, w, code::OR, 1),
        0x3a => h.op(regs, map, mem, w, code::OR, 2),
        0x3b => h.op(regs, map, mem, w, code::OR, 3),
        0x3c => h.op(regs, map, mem, w, code::OR, 4),
        0x3d => h.op(regs, map, mem, w, code::OR, 5),
        0x3e => h.op(regs, map, mem, w, code::OR, 6),
        0x3f => h.op(regs, map, mem, w, code::OR, 7),
        0x40 => h.op(regs, map, mem, w, code::XOR, 0),
        0x41 => h.op(regs, map, mem, w, code::XOR, 1),
        0x42 => h.op(regs, map, mem, w, code::XOR, 2),
        0x43 => h.op(regs, map, mem, w, code::XOR, 3),
        0x44 => h.op(regs, map, mem, w, code::XOR, 4),
        0x45 => h.op(regs, map, mem, w, code::XOR, 5),
        0x46 => h.op(regs, map, mem, w, code::XOR, 6),
        0x47 => h.op(regs, map, mem, w, code::XOR, 7),
        _ => other(h, regs, map, mem, w),
    }
}

// SUB, CMP, and the logic.
fn low_rest(h: Hot, regs: &mut [u16; 16], map: &[u16; 256], mem: &Memory, w: u32, byte: u8) -> Hot
    requires { (h.pc % 2 ≡ 0) × (upper w ≡ byte) }
    ensures { Tells map.now regs.old mem.now h w regs.new mem.now result }
{
    match byte {
        0x20 => h.op(regs, map, mem, w, code::SUB, 0),
        0x21 => h.op(regs, map, mem, w, code::SUB, 1),
        0x22 => h.op(regs, map, mem, w, code::SUB, 2),
        0x23 => h.op(regs, map, mem, w, code::SUB, 3),
        0x24 => h.op(regs, map, mem, w, code::SUB, 4),
        0x25 => h.op(regs, map, mem, w, code::SUB, 5),
        0x26 => h.op(regs, map, mem, w, code::SUB, 6),
        0x27 => h.op(regs, map, mem, w, code::SUB, 7),
        0x28 => h.op(regs, map, mem, w, code::CMP, 0),
        0x29 => h.op(regs, map, mem, w, code::CMP, 1),
        0x2a => h.op(regs, map, mem, w, code::CMP, 2),
        0x2b => h.op(regs, map, mem, w, code::CMP, 3),
        0x2c => h.op(regs, map, mem, w, code::CMP, 4),
        0x2d => h.op(regs, map, mem, w, code::CMP, 5),
        0x2e => h.op(regs, map, mem, w, code::CMP, 6),
        0x2f => h.op(regs, map, mem, w, code::CMP, 7),
        _ => logic(h, regs, map, mem, w, byte),
    }
}

// NO, LD, ST, ADD, LD Rd,FLAG, and the rest of the first chain, `top` being E, P and I in their places in FLAG.
pub fn low(
    h: Hot,
    regs: &mut [u16; 16],
    map: &[u16; 256],
    mem: &mut Memory,
    top: u8,
    w: u32,
    byte: u8,
) -> Hot
    requires { (h.pc % 2 ≡ 0) × (upper w ≡ byte) }
    ensures { Told top map.now regs.old mem.old h w regs.new mem.new result }
{
    match byte {
        0x00 => h.no(regs, map, mem, w),
        0x10 => h.store(regs, map, mem, w, 0),
        0x11 => h.store(regs, map, mem, w, 1),
        0x13 => h.store(regs, map, mem, w, 3),
        0x14 => h.load_flag(regs, map, mem, top, w),
        0x16 => h.store(regs, map, mem, w, 6),
        0x17 => h.store(regs, map, mem, w, 7),
        0x08 => h.op(regs, map, mem, w, code::LD, 0),
        0x09 => h.op(regs, map, mem, w, code::LD, 1),
        0x0a => h.op(regs, map, mem, w, code::LD, 2),
        0x0b => h.op(regs, map, mem, w, code::LD, 3),
        0x0c => h.op(regs, map, mem, w, code::LD, 4),
        0x0d => h.op(regs, map, mem, w, code::LD, 5),
        0x0e => h.op(regs, map, mem, w, code::LD, 6),
        0x0f => h.op(regs, map, mem, w, code::LD, 7),
        0x18 => h.op(regs, map, mem, w, code::ADD, 0),
        0x19 => h.op(regs, map, mem, w, code::ADD, 1),
        0x1a => h.op(regs, map, mem, w, code::ADD, 2),
        0x1b => h.op(regs, map, mem, w, code::ADD, 3),
        0x1c => h.op(regs, map, mem, w, code::ADD, 4),
        0x1d => h.op(regs, map, mem, w, code::ADD, 5),
        0x1e => h.op(regs, map, mem, w, code::ADD, 6),
        0x1f => h.op(regs, map, mem, w, code::ADD, 7),
        _ => low_rest(h, regs, map, mem, w, byte),
    }
}
