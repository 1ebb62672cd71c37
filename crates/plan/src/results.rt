// The result of an instruction.
ghost use Rattle.std.specs.Prelude.{◌≡◌};
ghost use Rattle.plan.specs.Result as def;

use alu::Alu;
use decode::code::*;

// The result and the flags of an instruction from ADD to SHRL but CMP, by its number, as document 01 names it.
#[tactic(auto, unfolding(crate::specs::Result::alu_of))]
pub fn result(code: u8, a: u16, b: u16) -> Alu
    ensures { result ≡ def.alu_of code a b }
{
    match code {
        ADD => alu::add(a, b),
        SUB => alu::sub(a, b),
        AND => alu::and(a, b),
        OR => alu::or(a, b),
        XOR => alu::xor(a, b),
        ADDS => alu::adds(a, b),
        MUL => alu::mul(a, b),
        DIV => alu::div(a, b),
        MOD => alu::modulo(a, b),
        SHRA => alu::shra(a, b),
        SHRL => alu::shrl(a, b),
        _ => alu::shl(a, b),
    }
}
