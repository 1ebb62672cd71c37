// The accesses of an instruction: the fetch of its words, and its data access.
#![tactic(auto)]

mod accesses;
mod stores;

pub use accesses::{fetch, transfer_for};
use memory::Store;
use mmu::Violation;
pub use stores::{store_need, value_stored};
use word::Width;

// The data access of an instruction: a value that needs none, or the logical address of what is read or written, or of the first of two words.
#[derive(Clone, Copy)]
pub enum Need {
    Value(u16),
    Read(Width, u16),
    ReadTwo(u16),
    Write(Width, u16),
}

// The data access done.
#[derive(Clone, Copy)]
pub struct Data {
    // The operand's value.
    pub source: u16,
    // The second word of two, else 0, which nothing reads.
    pub second: u16,
    pub store: Option<Store>,
}

// A data access, and the TLB with its marks. One access has the like, `Accessed`: each is named
// for what it is of.
#[derive(Clone, Copy)]
pub struct Transferred {
    pub transfer: Result<Data, Violation>,
    pub tlb: [u32; 8],
}
