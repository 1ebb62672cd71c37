// TLB entries.
ghost use Rattle.std.specs.Prelude.{◌≡◌, ◌^◌};
ghost use Rattle.mmu.specs.Answers.{right_bit};
ghost use Rattle.mmu.specs.Entry as def;
ghost use Rattle.mmu.specs.Lookup.{has_page};

use crate::Right;
use crate::bits::*;

impl Right {
    // The right's bit in an entry.
    fn bit(self) -> u32
        ensures { result ≡ 2 ^ right_bit self }
    {
        match self {
            Right::Read => READ,
            Right::Write => WRITE,
            Right::Execute => EXECUTE,
        }
    }

    // The marks that a granted access sets.
    fn marks(self) -> u32
        ensures { result ≡ def.marks self }
    {
        match self {
            Right::Write => REFERENCED | DIRTY,
            Right::Read | Right::Execute => REFERENCED,
        }
    }
}

// A valid entry with the page.
#[tactic(auto, using(crate::proofs::Masks::page_held))]
pub fn has_page(page: u16, entry: u32) -> bool
    ensures { result ≡ has_page page entry }
{
    entry / 0x10000 == u32::from(page) && entry & VALID != 0
}

#[tactic(auto, using(crate::proofs::Masks::tested))]
pub fn gives(right: Right, entry: u32) -> bool
    ensures { result ≡ def.gives right entry }
{
    entry & right.bit() != 0
}

// An entry with the marks of a granted access.
#[tactic(auto, using(crate::proofs::Masks::marks_joined))]
pub fn marked(right: Right, entry: u32) -> u32
    ensures { result ≡ def.marked right entry }
{
    entry | right.marks()
}
