// What the number of an instruction tells, whatever its mode.
#![tactic(auto, using(jump::specs::Laws::undefined_thirteen), unfolding(crate::specs::Instructions::row, crate::specs::Instructions::rows, crate::specs::Properties::no_row, crate::specs::Properties::row_of, crate::specs::Properties::with_code))]

ghost use Rattle.std.specs.Prelude.{◌≡◌, ◌<◌};
ghost use Rattle.decode.specs.Decode.{rd_bad};
ghost use Rattle.decode.specs.Properties.{row_of};

use crate::{DataAccess, Flow, Privilege, code, register};

// Register 15, undefined as Rd.
const PC: u16 = register::PC as u16;

// A jump's condition that is undefined.
pub const NO_CONDITION: u16 = 13;

// Whether the field Rd is undefined.
pub fn undefined_rd(code: u8, rd: u16) -> bool
    requires { rd < 16 }
    ensures { result ≡ rd_bad (row_of code).rd rd }
{
    match code {
        code::JUMP => rd == NO_CONDITION,
        code::NO | code::CALL | code::RET | code::RETI | code::SVC | code::HALT => false,
        _ => rd == PC,
    }
}

// Who may use the instruction.
pub fn privilege_of(code: u8) -> Privilege
    ensures { result ≡ (row_of code).privilege }
{
    match code {
        code::IN | code::OUT => Privilege::Ports,
        code::RETI | code::HALT => Privilege::Kernel,
        _ => Privilege::Anyone,
    }
}

// Its data access.
pub fn access_of(code: u8) -> DataAccess
    ensures { result ≡ (row_of code).access }
{
    match code {
        code::LD | code::ADD..=code::MOD | code::SHLA..=code::SHRL => DataAccess::Source,
        code::ST => DataAccess::Destination,
        code::LDFLAG => DataAccess::Flag,
        code::CALL | code::PUSH => DataAccess::Push,
        code::POP | code::RET => DataAccess::Pop,
        code::RETI => DataAccess::PopTwo,
        _ => DataAccess::None,
    }
}

// How it goes on.
pub fn flow_of(code: u8) -> Flow
    ensures { result ≡ (row_of code).flow }
{
    match code {
        code::DIV | code::MOD => Flow::Divide,
        code::SHLA..=code::SHRL => Flow::Shift,
        code::JUMP => Flow::Jump,
        code::CALL => Flow::Call,
        code::RET => Flow::Return,
        code::RETI => Flow::Resume,
        code::SVC => Flow::Trap,
        _ => Flow::Next,
    }
}
