// The flags: S and Z of the result, the arithmetic flags as they stand in FLAG, and the jump conditions by them.
ghost use Rattle.std.specs.Prelude.{◌≡◌, ◌<◌};
ghost use mir.Val.{bool_byte};
ghost use Rattle.status.specs.Flag.{taken_on};
ghost use Rattle.hot.specs.Conditions.{HoldsBy, flag_bits, top_of};
ghost use Rattle.hot.specs.Tells as def;

use crate::Hot;
use status::Flags;

impl Hot {
    // S, the sign of the result.
    pub fn s(self) -> bool
        ensures { result ≡ def.s_of self }
    {
        32768 <= self.result
    }

    // Z: the result is 0.
    pub fn z(self) -> bool
        ensures { result ≡ def.z_of self }
    {
        self.result == 0
    }

    // V, C, S and Z in the places of FLAG, from what the loop holds of them.
    pub(crate) fn flags(self) -> u8
        ensures { (result ≡ flag_bits self.v self.c (def.s_of self) (def.z_of self)) × (result < 16) }
    {
        8 * digit(self.v) + 4 * digit(self.c) + 2 * digit(self.s()) + digit(self.z())
    }

    // A jump is taken.
    pub(crate) fn taken(self, n: u32) -> bool
        requires { n < 16 }
        ensures { result ≡ taken_on n self.v self.c (def.s_of self) (def.z_of self) }
    {
        (holds(n) >> self.flags()) % 2 == 1
    }
}

fn digit(x: bool) -> u8
    ensures { (result ≡ bool_byte x) × (result < 2) }
{
    u8::from(x)
}

// The condition of each number as a word, Dh being none: bit 8V + 4C + 2S + Z tells whether it holds with these flags. One shift
// in the loop, in place of a match.
fn holds(n: u32) -> u16
    requires { n < 16 }
    ensures { HoldsBy n result }
{
    match n {
        0 => 0xaaaa, // Z
        1 => 0xf0f0, // C
        2 => 0xcccc, // S
        3 => 0xff00, // V
        4 => 0x4411, // not (Z or S≠V)
        5 => 0xcc33, // S=V
        6 => 0xbbee, // Z or S≠V
        7 => 0x33cc, // S≠V
        8 => 0x5555, // not Z
        9 => 0x0f0f, // not C
        10 => 0x3333, // not S
        11 => 0x00ff, // not V
        12 => 0x0505, // not (Z or C)
        13 => 0x0000, // none
        14 => 0xfafa, // Z or C
        _ => 0xffff, // always
    }
}

// E, P and I in their places in FLAG.
pub fn upper_flags(f: Flags) -> u8
    ensures { result ≡ top_of f }
{
    128 * digit(f.e) + 64 * digit(f.p) + 32 * digit(f.i)
}
