// Results and flags of the instructions from ADD to SHRL. `a` is the register, `b` the source.
#![tactic(auto)]

ghost use Rattle.std.specs.Prelude.{◌≡◌};
ghost use Rattle.alu.specs.Alu as def;

use word::{plus, to_signed, to_word};

// A result with the arithmetic flags: V overflow, C carry, S sign, Z zero.
#[derive(Clone, Copy)]
pub struct Alu {
    pub value: u16,
    pub v: bool,
    pub c: bool,
    pub s: bool,
    pub z: bool,
}

fn with_flags(value: u16, v: bool, c: bool) -> Alu
    ensures { result ≡ def.alu value v c }
{
    Alu {
        value,
        v,
        c,
        s: 32768 <= value,
        z: value == 0,
    }
}

// V and C are 0. One call of it each for AND to MOD: a function that is given the operation reads no plainer.
fn plain(value: u16) -> Alu
    ensures { result ≡ def.plain value }
{
    with_flags(value, false, false)
}

#[tactic(auto, unfolding(crate::specs::Alu::add_of))]
pub fn add(a: u16, b: u16) -> Alu
    ensures { result ≡ def.add_of a b }
{
    let (value, carry) = a.overflowing_add(b);
    let (_, overflow) = to_signed(a).overflowing_add(to_signed(b));
    with_flags(value, overflow, carry)
}

#[tactic(auto, unfolding(crate::specs::Alu::sub_of))]
pub fn sub(a: u16, b: u16) -> Alu
    ensures { result ≡ def.sub_of a b }
{
    let (value, borrow) = a.overflowing_sub(b);
    let (_, overflow) = to_signed(a).overflowing_sub(to_signed(b));
    with_flags(value, overflow, borrow)
}

#[tactic(auto, unfolding(crate::specs::Alu::and_of))]
pub fn and(a: u16, b: u16) -> Alu
    ensures { result ≡ def.and_of a b }
{
    plain(a & b)
}

#[tactic(auto, unfolding(crate::specs::Alu::or_of))]
pub fn or(a: u16, b: u16) -> Alu
    ensures { result ≡ def.or_of a b }
{
    plain(a | b)
}

#[tactic(auto, unfolding(crate::specs::Alu::xor_of))]
pub fn xor(a: u16, b: u16) -> Alu
    ensures { result ≡ def.xor_of a b }
{
    plain(a ^ b)
}

#[tactic(auto, unfolding(crate::specs::Alu::adds_of))]
pub fn adds(a: u16, b: u16) -> Alu
    ensures { result ≡ def.adds_of a b }
{
    plain(plus(a, plus(b, b)))
}

#[tactic(auto, unfolding(crate::specs::Alu::mul_of))]
pub fn mul(a: u16, b: u16) -> Alu
    ensures { result ≡ def.mul_of a b }
{
    plain(a.wrapping_mul(b))
}

#[tactic(auto, unfolding(crate::specs::Alu::div_of))]
pub fn div(a: u16, b: u16) -> Alu
    ensures { result ≡ def.div_of a b }
{
    plain(a.checked_div(b).unwrap_or(0))
}

#[tactic(auto, unfolding(crate::specs::Alu::mod_of))]
pub fn modulo(a: u16, b: u16) -> Alu
    ensures { result ≡ def.mod_of a b }
{
    plain(a.checked_rem(b).unwrap_or(0))
}

// SHLA and SHLL.
#[tactic(auto, unfolding(crate::specs::Alu::shl_of))]
pub fn shl(a: u16, b: u16) -> Alu
    ensures { result ≡ def.shl_of a b }
{
    with_flags(a << (b % 16), false, 32768 <= a)
}

#[tactic(auto, unfolding(crate::specs::Alu::shra_of))]
pub fn shra(a: u16, b: u16) -> Alu
    ensures { result ≡ def.shra_of a b }
{
    let shifted = to_signed(a) >> (b % 16);
    with_flags(to_word(shifted), false, a % 2 == 1)
}

#[tactic(auto, unfolding(crate::specs::Alu::shrl_of))]
pub fn shrl(a: u16, b: u16) -> Alu
    ensures { result ≡ def.shrl_of a b }
{
    with_flags(a >> (b % 16), false, a % 2 == 1)
}
