// The operand stage: what each mode names, and its value.
ghost use Rattle.std.specs.Prelude.{◌≡◌, ◌%◌};
ghost use Rattle.decode.specs.Decode.{rx_field};
ghost use Rattle.source.specs.Fields.{frame_place, indexed_address, mode_of, short_of};
ghost use Rattle.source.specs.Sources.{SourceIs};

use crate::registers::{FP, rx, wide};
use decode::frame_offset;
use memory::Memory;
use pages::{NONE, fetch, read};
use word::{Width, plus, sign_extend, to_word};

// An operand: its value, the address of the following instruction, and the states with ADD.
#[derive(Clone, Copy)]
pub struct Source {
    pub value: u32,
    pub next: u16,
    pub cost: u32,
}

// The four-bit field, signed, as a word.
fn short(w: u32) -> u16
    ensures { result ≡ short_of (rx_field w) }
{
    to_word(sign_extend((w % 16) as u16))
}

// FP plus twice D4.
pub fn frame_place(regs: &[u16; 16], w: u32) -> u16
    ensures { result ≡ frame_place regs.now w }
{
    plus(regs[FP], to_word(frame_offset((w % 16) as u16)))
}

// A displacement plus Rx, `next` being the address of the following instruction.
pub fn indexed_place(regs: &[u16; 16], next: u16, d: u32, w: u32) -> u32
    ensures { result ≡ indexed_address regs.now next d w }
{
    let x = rx(regs, next, w);
    if NONE <= d {
        return NONE;
    }
    if NONE <= x {
        return NONE;
    }
    wide(plus(d as u16, x as u16))
}

fn operand(value: u32, next: u16, cost: u32) -> Source
    ensures { result ≡ record { value = value; next = next; cost = cost } }
{
    Source { value, next, cost }
}

// The operand of LD and of ADD to SHRL in this mode, PC being even. The mode is a number of its own so that a caller can give it as a constant.
// Registers, map and memory are parameters one by one, for what `hot` says of it.
pub fn source_of(
    regs: &[u16; 16],
    map: &[u16; 256],
    mem: &Memory,
    pc: u16,
    w: u32,
    mode: u32,
) -> Source
    requires { (pc % 2 ≡ 0) × (mode_of w ≡ mode) }
    ensures { SourceIs regs.now map.now mem.now pc w result }
{
    let after = plus(pc, 2);
    let beyond = plus(pc, 4);
    match mode {
        0 => operand(
            read(map, mem, Width::Word, fetch(map, mem, after)),
            beyond,
            7,
        ),
        1 => {
            let a = indexed_place(regs, beyond, fetch(map, mem, after), w);
            operand(read(map, mem, Width::Word, a), beyond, 7)
        }
        2 => operand(fetch(map, mem, after), beyond, 5),
        3 => operand(
            read(map, mem, Width::Word, frame_place(regs, w) as u32),
            after,
            7,
        ),
        4 => operand(rx(regs, after, w), after, 5),
        5 => operand(short(w) as u32, after, 4),
        6 => operand(read(map, mem, Width::Word, rx(regs, after, w)), after, 6),
        _ => operand(read(map, mem, Width::Byte, rx(regs, after, w)), after, 6),
    }
}
