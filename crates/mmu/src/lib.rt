// The MMU: TLB entries, the lookup of a page, an access.
#![tactic(auto)]

ghost use Rattle.std.specs.Prelude.{◌≡◌};
ghost use Rattle.mmu.specs.Answers.{fault_number};

mod accesses;
pub mod bits;
mod entry;
mod lookups;

pub use accesses::try_access;
pub use entry::{gives, marked};

// The numbers of the faults of an access.
const MISSING_PAGE: u8 = 10;

const VIOLATION: u8 = 11;

// What a right is asked for.
#[derive(Clone, Copy)]
pub enum Right {
    Read,
    Write,
    Execute,
}

// Why an access is not granted.
#[derive(Clone, Copy)]
pub enum Fault {
    // A word at an odd address.
    Odd,
    // No valid entry has the page.
    Missing,
    // The entry that serves lacks the right.
    Refused,
}

// The number that the kernel is entered with.
impl From<Fault> for u8 {
    ghost from_gives = { λ fault number. number ≡ fault_number fault };

    fn from(fault: Fault) -> u8 {
        match fault {
            Fault::Odd | Fault::Refused => VIOLATION,
            Fault::Missing => MISSING_PAGE,
        }
    }
}

// An access to a logical address that was not granted.
#[derive(Clone, Copy)]
pub struct Violation {
    pub fault: Fault,
    pub address: u16,
}

// The answer to an access: the physical address, or why there is none; and the TLB with its marks.
#[derive(Clone, Copy)]
pub struct Accessed {
    pub access: Result<u16, Fault>,
    pub tlb: [u32; 8],
}
