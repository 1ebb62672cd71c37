// FLAG: as a word, from a word, with the flags of a result, in the kernel, and what it permits.
ghost use Rattle.std.specs.Prelude.{◌≡◌};
ghost use Rattle.status.specs.Flag as def;

use crate::Flags;
use alu::Alu;
use decode::Privilege;
use jump::Arithmetic;

impl Flags {
    // FLAG as a word. A method, and `from_word` beside it, as the documents name them: `From` of a number is no plainer.
    #[tactic(auto, unfolding(crate::specs::Flag::flag_word))]
    pub fn word(self) -> u16
        ensures { result ≡ def.word_of self }
    {
        128 * u16::from(self.e)
            + 64 * u16::from(self.p)
            + 32 * u16::from(self.i)
            + 8 * u16::from(self.v)
            + 4 * u16::from(self.c)
            + 2 * u16::from(self.s)
            + u16::from(self.z)
    }

    // FLAG from a word, whose other bits are dropped.
    pub fn from_word(w: u16) -> Flags
        ensures { result ≡ def.flags_from w }
    {
        Flags {
            e: w / 128 % 2 == 1,
            p: w / 64 % 2 == 1,
            i: w / 32 % 2 == 1,
            v: w / 8 % 2 == 1,
            c: w / 4 % 2 == 1,
            s: w / 2 % 2 == 1,
            z: w % 2 == 1,
        }
    }

    // V, C, S and Z of a result.
    pub fn with_result(self, r: Alu) -> Flags
        ensures { result ≡ def.flags_with self r.v r.c r.s r.z }
    {
        Flags {
            v: r.v,
            c: r.c,
            s: r.s,
            z: r.z,
            ..self
        }
    }

    // E=0 and P=1.
    pub fn in_kernel(self) -> Flags
        ensures { result ≡ def.kernel_flags self }
    {
        Flags {
            e: false,
            p: true,
            ..self
        }
    }

    // Whether an instruction may be carried out.
    pub fn permits(self, privilege: Privilege) -> bool
        ensures { result ≡ def.permitted_in privilege self.p self.i }
    {
        match privilege {
            Privilege::Anyone => true,
            Privilege::Ports => self.p | self.i,
            Privilege::Kernel => self.p,
        }
    }

    // Whether a jump is taken, by the condition of this number.
    pub fn taken(self, n: u8) -> bool
        ensures { result ≡ def.taken_on n self.v self.c self.s self.z }
    {
        let Flags { v, c, s, z, .. } = self;
        Arithmetic { v, c, s, z }.condition(n) == Some(true)
    }
}
