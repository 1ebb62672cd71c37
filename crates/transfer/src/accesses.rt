// The accesses of an instruction: the fetch of its words, and its data access.
ghost use Rattle.std.specs.Prelude.{◌≡◌};
ghost use Rattle.mmu.specs.Access.{access_of};
ghost use Rattle.transfer.specs.Transfer as def;

use crate::{Data, Need, Transferred};
use memory::{Memory, Store, word_at};
use mmu::{Accessed, Right, Violation, try_access};
use word::{Width, plus};

// The fetch of a word.
pub fn fetch(on: bool, tlb: [u32; 8], a: u16) -> Accessed
    ensures { result ≡ def.fetch_of on tlb a }
{
    try_access(Width::Word, on, tlb, Right::Execute, a)
}

// The physical address of an access, which marks its entry.
fn access(
    width: Width,
    on: bool,
    tlb: &mut [u32; 8],
    right: Right,
    a: u16,
) -> Result<u16, Violation>
    ensures access { result ≡ def.granted_at (access_of width on tlb.old right a).access a }
    ensures marks { tlb.new ≡ (access_of width on tlb.old right a).tlb }
{
    let Accessed { access, tlb: marks } = try_access(width, on, *tlb, right, a);
    *tlb = marks;
    access.map_err(|fault| Violation { fault, address: a })
}

// A value that nothing else goes with.
fn loaded(source: u16) -> Data
    ensures { result ≡ def.loaded source }
{
    Data {
        source,
        second: 0,
        store: None,
    }
}

// The data access of an instruction, which marks the entries that serve.
#[tactic(auto, unfolding(crate::specs::Transfer::transfer_of))]
fn transfer(
    need: Need,
    on: bool,
    tlb: &mut [u32; 8],
    mem: &Memory,
    value: u16,
) -> Result<Data, Violation>
    ensures transfer { result ≡ (def.transfer_of need on tlb.old mem.now value).transfer }
    ensures marks { tlb.new ≡ (def.transfer_of need on tlb.old mem.now value).tlb }
{
    match need {
        Need::Value(v) => Ok(loaded(v)),
        Need::Read(width, a) => {
            let at = access(width, on, tlb, Right::Read, a)?;
            Ok(loaded(memory::read(mem, width, at)))
        }
        Need::ReadTwo(a) => {
            let first = access(Width::Word, on, tlb, Right::Read, a)?;
            let second = access(Width::Word, on, tlb, Right::Read, plus(a, 2))?;
            Ok(Data {
                source: word_at(mem, first),
                second: word_at(mem, second),
                store: None,
            })
        }
        Need::Write(width, a) => {
            let address = access(width, on, tlb, Right::Write, a)?;
            let store = Store {
                width,
                address,
                value,
            };
            Ok(Data {
                source: 0,
                second: 0,
                store: Some(store),
            })
        }
    }
}

// The access that an instruction needs, `value` being what it stores.
pub fn transfer_for(
    need: Need,
    on: bool,
    mut tlb: [u32; 8],
    mem: &Memory,
    value: u16,
) -> Transferred
    ensures { result ≡ def.transfer_of need on tlb mem.now value }
{
    let transfer = transfer(need, on, &mut tlb, mem, value);
    Transferred { transfer, tlb }
}
