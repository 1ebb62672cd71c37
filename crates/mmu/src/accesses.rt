// An access: translated or not, granted or not.
ghost use Rattle.std.specs.Prelude.{◌≡◌};
ghost use Rattle.mmu.specs.Access as def;

use crate::entry::{gives, marked};
use crate::lookups::look_up;
use crate::{Accessed, Fault, Right};
use word::Width;

// The physical address by the entry that serves, which gets its marks.
#[tactic(auto, using(crate::proofs::Positions::served_below, crate::proofs::Positions::lookup_position), unfolding(crate::specs::Access::by_tlb, crate::specs::Access::by_entry))]
fn translate(tlb: &mut [u32; 8], right: Right, a: u16) -> Result<u16, Fault>
    ensures access { result ≡ (def.by_tlb tlb.old right a).access }
    ensures marks { tlb.new ≡ (def.by_tlb tlb.old right a).tlb }
{
    let Some(k) = look_up(*tlb, a / 256) else {
        return Err(Fault::Missing);
    };
    let entry = tlb[k];
    if !gives(right, entry) {
        return Err(Fault::Refused);
    }
    tlb[k] = marked(right, entry);
    Ok((entry % 256) as u16 * 256 + a % 256)
}

// An access. `on` says whether the MMU translates: the state tells it each time, and the TLB alone goes in and comes out. A part of its callers in the
// compiled library: as a call, with the TLB copied in and out, it makes a RETI half as dear again.
#[inline(always)]
#[tactic(auto, unfolding(crate::specs::Access::access_of, crate::specs::Access::aligned_access))]
pub fn try_access(width: Width, on: bool, mut tlb: [u32; 8], right: Right, a: u16) -> Accessed
    ensures { result ≡ def.access_of width on tlb right a }
{
    let access = if matches!(width, Width::Word) && a % 2 == 1 {
        Err(Fault::Odd)
    } else if on {
        translate(&mut tlb, right, a)
    } else {
        Ok(a)
    };
    Accessed { access, tlb }
}
