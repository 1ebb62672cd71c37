// Jump conditions. They are numbers and no enum, since a jump's field Rd is one, and 8 to 11 are the opposites of 0 to 3: document 01
// names a match with ranges over them.
#![tactic(auto)]

ghost use Rattle.std.specs.Prelude.{Bool, ◌≡◌, ◌<◌, ◌≤◌, Some};
ghost use Rattle.jump.specs.Jump as def;

// The arithmetic flags: V overflow, C carry, S sign, Z zero. A result and FLAG hold them among their own fields, as the definitions name them.
#[derive(Clone, Copy)]
pub struct Arithmetic {
    pub v: bool,
    pub c: bool,
    pub s: bool,
    pub z: bool,
}

impl Arithmetic {
    // Conditions 0 to 3: a flag.
    #[tactic(auto, unfolding(crate::specs::Jump::condition_of))]
    fn flag_test(self, code: u8) -> bool
        requires { code < 4 }
        ensures { Some result ≡ def.condition_of code self.v self.c self.s self.z }
    {
        match code {
            0 => self.z,
            1 => self.c,
            2 => self.s,
            _ => self.v,
        }
    }

    // Conditions 4 to 7: a comparison of signed numbers, whatever C is.
    #[tactic(auto, unfolding(crate::specs::Jump::condition_of))]
    fn signed_test(self, code: u8) -> bool
        requires { (4 ≤ code) × (code < 8) }
        ensures { Some result ≡ def.condition_of code self.v self.c self.s self.z }
    {
        let less = self.s != self.v;
        match code {
            4 => !(self.z | less),
            5 => !less,
            6 => self.z | less,
            _ => less,
        }
    }

    // What the condition with this number says of the flags, if it is defined.
    #[tactic(auto, unfolding(crate::specs::Jump::condition_of))]
    pub fn condition(self, code: u8) -> Option<bool>
        ensures { result ≡ def.condition_of code self.v self.c self.s self.z }
    {
        let Arithmetic { c, z, .. } = self;
        match code {
            12 => Some(!(z | c)),
            14 => Some(z | c),
            15 => Some(true),
            0..=3 => Some(self.flag_test(code)),
            4..=7 => Some(self.signed_test(code)),
            8..=11 => Some(!self.flag_test(code - 8)),
            _ => None,
        }
    }
}
