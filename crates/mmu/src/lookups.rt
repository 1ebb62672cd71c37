// The lookup of a page.
ghost use Rattle.std.specs.Prelude.{◌≡◌, position};
ghost use Rattle.mmu.specs.Lookup as def;

use crate::entry::has_page;

// The number of the lowest-numbered valid entry with the page.
pub fn look_up(tlb: [u32; 8], page: u16) -> Option<usize>
    ensures { result ≡ position (λ e. def.has_page page e) tlb }
{
    tlb.iter().position(|entry| has_page(page, *entry))
}
