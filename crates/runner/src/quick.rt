// The loop over plain instructions.
ghost use Rattle.std.specs.Prelude.{◌≡◌, ◌%◌, ◌<◌, ◌≤◌};
ghost use Rattle.runner.specs.Goes.{Leads};

use crate::Part;
use dispatch::{HIGH, high, low};
use hot::Hot;
use memory::Memory;
use pages::{NONE, fetch};

// Plain instructions, at most `allowance`, up to one that is not, PC being even, for what `hot` says of it. `top` is E, P and I in their
// places in FLAG.
pub fn quick(
    first: Hot,
    regs: &mut [u16; 16],
    map: &[u16; 256],
    mem: &mut Memory,
    top: u8,
    allowance: u16,
) -> Part<Hot>
    requires { first.pc % 2 ≡ 0 }
    ensures leads { Leads top map.now regs.old mem.old first result.steps result.states regs.new mem.new result.at }
    ensures steps { result.steps ≤ allowance }
{
    let mut hot = first;
    // Counted down, in 32 bits: the compiled loop is shorter so; with a `for` it takes 4 % more machine instructions.
    let mut left = allowance as u32;
    let mut states: u32 = 0;
    while left != 0 {
        let w = fetch(map, mem, hot.pc);
        if NONE <= w {
            break;
        }
        let byte = (w / 256) as u8;
        // Each chain in the loop itself: the compiler puts both in, and not a function over both.
        hot = if byte < HIGH {
            low(hot, regs, map, mem, top, w, byte)
        } else {
            high(hot, regs, map, mem, w, byte)
        };
        if hot.cost == 0 {
            break;
        }
        left -= 1;
        states += hot.cost;
    }
    let steps = allowance - left as u16;
    Part {
        at: hot,
        steps,
        states,
    }
}
