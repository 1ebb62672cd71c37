// The operand, and the whole instruction.
ghost use Rattle.std.specs.Prelude.{◌≡◌, min, pos, ◌*ℤ◌};
ghost use Rattle.decode.specs.Decode as def;
ghost use Rattle.decode.specs.Instructions.{no_operand};
ghost use Rattle.decode.specs.Mode.{mode_number};
ghost use Rattle.word.specs.Signed.{signed4};

use crate::{Instruction, Operand, Shape};

// Twice D4.
#[tactic(auto, using(word::specs::Laws::signed4_mag))]
pub fn frame_offset(field: u16) -> i16
    ensures { result ≡ signed4 field *ℤ pos 2 }
{
    word::sign_extend(field) * 2
}

// The operand in a mode, from the last field and the second word.
#[tactic(auto, unfolding(crate::specs::Decode::operand_of))]
pub fn operand_from(mode: u8, rx: u8, second: u16) -> Operand
    ensures operand { result ≡ def.operand_of mode rx second }
    ensures number { mode_number result ≡ min mode no_operand }
{
    match mode {
        0 => Operand::Direct(second),
        1 => Operand::Indexed(second, rx),
        2 => Operand::Immediate(second),
        3 => Operand::Frame(frame_offset(rx as u16)),
        4 => Operand::Register(rx),
        5 => Operand::Short(word::sign_extend(rx as u16)),
        6 => Operand::Indirect(rx),
        7 => Operand::ByteIndirect(rx),
        _ => Operand::Nothing,
    }
}

// The instruction of a first word and a second one, which is 0 where there is none: nothing reads it then.
pub fn decoded(shape: Shape, second: u16) -> Instruction
    ensures { result ≡ def.instruction_of shape second }
{
    Instruction {
        code: shape.code,
        rd: shape.rd,
        operand: operand_from(shape.mode, shape.rx, second),
        cost: shape.cost,
        access: shape.access,
        flow: shape.flow,
    }
}
