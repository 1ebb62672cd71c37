// The first word of an instruction, by its entry in the decoding table.
ghost use Rattle.std.specs.Prelude.{◌≡◌};
ghost use Rattle.decode.specs.Decode as def;

use crate::Shape;
use crate::properties::{access_of, flow_of, privilege_of, undefined_rd};
use crate::table::{UNKNOWN, entries};

// What the first word of an instruction says, if it is defined.
pub fn first_word(word: u16) -> Option<Shape>
    ensures { result ≡ def.first_of word }
{
    let entry = entries()[(word / 256) as usize];
    if entry == UNKNOWN {
        return None;
    }
    let code = (entry % 32) as u8;
    let mode = entry / 0x20 % 16;
    let rd = word / 16 % 16;
    if undefined_rd(code, rd) {
        return None;
    }
    Some(Shape {
        code,
        mode: mode as u8,
        rd: rd as u8,
        rx: (word % 16) as u8,
        second: mode < 3,
        cost: (entry / 0x200 % 128) as u8,
        privilege: privilege_of(code),
        access: access_of(code),
        flow: flow_of(code),
    })
}
