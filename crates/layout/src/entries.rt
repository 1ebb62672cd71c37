// TLB entries in bytes, the upper byte first.
ghost use Rattle.std.specs.Prelude.{◌≡◌, ◌+◌, ◌≤◌, length};
ghost use Rattle.layout.specs.Entries as def;
ghost use Rattle.layout.specs.EntryLaws.{entries_laid, entries_read};

use crate::{ENTRY, FRAME, MIDDLE};
use endian::Packed;

// TLB entries, three bytes for each.
pub struct Entries;

impl Packed for Entries {
    type Item = u32;

    const SIZE: usize = ENTRY;

    ghost SIZE = { 3 };

    ghost one = { def.entry_from };

    ghost many = { def.tlb_entries_from };

    ghost stored = { def.entry_bytes };

    ghost reads = { entries_read };

    ghost laid = { entries_laid };

    fn element_from(bytes: &[u8], at: usize) -> u32 {
        entry_from(bytes, at)
    }

    #[tactic(auto, unfolding(crate::specs::Entries::entry_bytes))]
    fn put_element(bytes: &mut [u8], at: usize, entry: u32) {
        endian::put_bytes(bytes, at, &entry.to_be_bytes()[1..]);
    }
}

// The entry at an offset.
pub fn entry_from(bytes: &[u8], at: usize) -> u32
    requires { at + 3 ≤ length bytes.now }
    ensures { result ≡ def.entry_from bytes.now at }
{
    u32::from_be_bytes([0, bytes[at], bytes[at + MIDDLE], bytes[at + FRAME]])
}
