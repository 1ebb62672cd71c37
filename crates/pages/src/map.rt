// The map of the pages: for each the frame in the upper half, and a bit for each right, set only where an access is granted and leaves the TLB
// as it is.
ghost use Rattle.std.specs.Prelude.{◌≡◌, ◌<◌};
ghost use Rattle.mmu.specs.Entry.{page_in};
ghost use Rattle.mmu.specs.Marks.{usable_in};
ghost use Rattle.word.specs.Word.{is_set, halves, lower, upper};
ghost use Rattle.word.specs.declared.Width.TheVariants as width;
ghost use Rattle.pages.specs.Maps.{Mapped, Placed, SelfTo, ShowsFrom, map_bit, shown_of};

use crate::NOWHERE;
use mmu::bits::VALID;
use mmu::{Right, gives, marked};
use std::array;

// The entry gives the right, and has its marks.
fn usable(right: Right, entry: u32) -> bool
    ensures { result ≡ usable_in right entry }
{
    gives(right, entry) && marked(right, entry) == entry
}

// What the map shows of an entry.
fn shown(entry: u32) -> u16
    ensures { result ≡ shown_of entry }
{
    let frame = (entry % 256) as u16;
    frame * 256
        + usable(Right::Read, entry) as u16
        + 2 * usable(Right::Write, entry) as u16
        + 4 * usable(Right::Execute, entry) as u16
}

fn page_of(entry: u32) -> usize
    ensures { result ≡ page_in entry }
{
    (entry / 65536) as usize
}

// The map of a TLB: an entry goes in after those of higher numbers.
pub fn by_tlb(tlb: [u32; 8]) -> [u16; 256]
    ensures { ShowsFrom tlb 0 result }
{
    let mut map = [0; 256];
    for entry in tlb.iter().rev() {
        let page = page_of(*entry);
        if entry / VALID % 2 == 1 && page < 256 {
            map[page] = shown(*entry);
        }
    }
    map
}

// The map where nothing is translated.
pub fn identity() -> [u16; 256]
    ensures { SelfTo 256 result }
{
    array::from_fn(|p| p as u16 * 256 + 7)
}

// The map of the pages: by the TLB where `on`.
pub fn page_map(on: bool, tlb: [u32; 8]) -> [u16; 256]
    ensures { Mapped on tlb result }
{
    if on {
        return by_tlb(tlb);
    }
    identity()
}

// The right's bit is set. Three arms: by a function from the right to its bit the fast loop takes 1.3 % more instructions.
fn is_open(right: Right, shown: u16) -> bool
    ensures { result ≡ is_set (map_bit right) shown }
{
    match right {
        Right::Read => shown % 2 == 1,
        Right::Write => shown / 2 % 2 == 1,
        Right::Execute => shown / 4 % 2 == 1,
    }
}

// The physical address, in the frame.
fn physical(shown: u16, a: u16) -> usize
    ensures { result ≡ halves (upper shown) (lower a) }
{
    (shown / 256 * 256 + a % 256) as usize
}

// The physical address, where the map gives the access.
pub fn place(map: &[u16; 256], right: Right, a: u16) -> usize
    ensures { result < 65536 → Placed map.now right width.Byte a result }
{
    let shown = map[(a / 256) as usize];
    if is_open(right, shown) {
        return physical(shown, a);
    }
    NOWHERE
}
