// Maps that are kept from one stretch of instructions to the next.
ghost use Rattle.std.specs.Prelude.{List, true, ◌≡◌, ℕ};
ghost use Rattle.pages.specs.Kept.{Kept};
ghost use Rattle.pages.specs.Maps.{Mapped};

use crate::map::{by_tlb, identity};

// The map of a machine that does not translate, that of a TLB, and this TLB.
#[derive(Drop)]
pub struct Maps {
    pub plain: [u16; 256],
    pub translated: [u16; 256],
    pub origin: [u32; 8],
    pub ghost kept: { Kept origin plain translated },
}

impl Maps {
    // The maps of a machine with this TLB.
    pub fn new(tlb: [u32; 8]) -> Maps
        ensures { result.origin ≡ tlb }
    {
        Maps {
            plain: identity(),
            translated: by_tlb(tlb),
            origin: tlb,
        }
    }

    // The maps made fit for a machine with this TLB.
    pub fn renew(&mut self, tlb: [u32; 8])
        ensures { self.new.origin ≡ tlb }
    {
        if self.origin != tlb {
            self.translated = by_tlb(tlb);
            self.origin = tlb;
        }
    }

    // The map that a machine goes by, with this TLB where it translates.
    pub fn of(&self, translates: bool) -> &[u16; 256]
        ensures { (tlb : List ℕ) → (translates ≡ true → self.now.origin ≡ tlb) → Mapped translates tlb result.now }
    {
        if translates {
            &self.translated
        } else {
            &self.plain
        }
    }
}
