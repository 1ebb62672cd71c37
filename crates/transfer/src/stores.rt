// The data access of ST, and what is stored.
ghost use Rattle.std.specs.Prelude.{◌≡◌};
ghost use Rattle.transfer.specs.Need as def;

use crate::Need;
use decode::Operand;
use decode::code::CALL;
use word::Width;

// What an operand in memory is: a byte in mode 7, a word in the others.
fn width_of(operand: Operand) -> Width
    ensures { result ≡ def.width_of operand }
{
    match operand {
        Operand::ByteIndirect(_) => Width::Byte,
        _ => Width::Word,
    }
}

// The place of ST.
pub fn store_need(a: u16, operand: Operand) -> Need
    ensures { result ≡ def.store_need a operand }
{
    Need::Write(width_of(operand), a)
}

// What an instruction stores.
#[tactic(auto, unfolding(crate::specs::Need::value_stored))]
pub fn value_stored(code: u8, held: u16, following: u16) -> u16
    ensures { result ≡ def.value_stored code held following }
{
    if code == CALL { following } else { held }
}
