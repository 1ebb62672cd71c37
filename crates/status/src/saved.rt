// What a kernel entry saves.
ghost use Rattle.std.specs.Prelude.{◌≡◌};
ghost use Rattle.status.specs.Saved as def;

use crate::Flags;
use memory::{Memory, store_word};
use word::minus;

impl Flags {
    // PC and FLAG pushed on SSP.
    #[tactic(auto, unfolding(crate::specs::Saved::pushed))]
    pub fn push(self, mem: &mut Memory, ssp: u16, saved: u16)
        ensures { mem.new ≡ def.pushed ssp self saved mem.old }
    {
        store_word(mem, minus(ssp, 2), saved);
        store_word(mem, minus(ssp, 4), self.word());
    }
}
