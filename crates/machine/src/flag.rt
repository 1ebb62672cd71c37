// FLAG in the state: loaded from a word, and with the flags of a result.
ghost use Rattle.std.specs.Prelude.{◌≡◌};
ghost use Rattle.machine.specs.Execute.{with_result};
ghost use Rattle.machine.specs.Flag.{with_flag};

use crate::State;
use alu::Alu;
use status::Flags;

impl State {
    // FLAG loaded from a word.
    pub fn load_flag(self, w: u16) -> State
        ensures { result ≡ with_flag self w }
    {
        let flags = Flags::from_word(w);
        State { flags, ..self }
    }

    // V, C, S and Z of a result.
    pub fn set_flags(self, r: Alu) -> State
        ensures { result ≡ with_result self r }
    {
        let flags = self.flags.with_result(r);
        State { flags, ..self }
    }
}
