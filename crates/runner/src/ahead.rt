// Plain instructions from a state of the machine.
ghost use Rattle.std.specs.Prelude.{◌&&◌, false, true, ◌≡◌, ◌≤◌};
ghost use Rattle.alu.specs.Alu.{sign_of, zero_of};
ghost use Rattle.runner.specs.Goes.{Goes, Ready};
ghost use Rattle.refinement.specs.Statement.{MapOf, hot, hot_state};

use crate::Part;
use crate::quick::quick;
use hot::{Hot, upper_flags};
use machine::{Condition, State};
use memory::Memory;
use pages::{Maps, page_map};
use status::Flags;

// The registers by their numbers, SP among them: sixteen places, so that four bits name one without a test. They are copied one by one:
// by `copy_from_slice` a tick of one step takes a fifth more machine instructions.
fn spread(state: State) -> [u16; 16]
    ensures { hot state result state.pc state.flags.v state.flags.c state.flags.s state.flags.z ≡ state }
{
    let r = state.regs;
    let sp = state.sp();
    [
        r[0], r[1], r[2], r[3], r[4], r[5], r[6], r[7], r[8], r[9], r[10], r[11], r[12], sp, 0, 0,
    ]
}

// The state put together, the registers copied as in `spread`.
fn gather(mut base: State, rs: [u16; 16], h: Hot) -> State
    ensures { result ≡ hot_state base rs h }
{
    base.regs = [
        rs[0], rs[1], rs[2], rs[3], rs[4], rs[5], rs[6], rs[7], rs[8], rs[9], rs[10], rs[11],
        rs[12],
    ];
    base.pc = h.pc;
    base.flags = Flags {
        v: h.v,
        c: h.c,
        s: h.s(),
        z: h.z(),
        ..base.flags
    };
    base.set_sp(rs[13])
}

// A result with these S and Z. No result has both.
fn result_of(s: bool, z: bool) -> u16
    ensures { (s && z) ≡ false → (sign_of result ≡ s) × (zero_of result ≡ z) }
{
    if s {
        return 32768;
    }
    if z { 0 } else { 1 }
}

// Plain instructions of a machine that is ready for them, by a map of its pages.
fn stretch(state: State, mem: &mut Memory, allowance: u16, map: &[u16; 256]) -> Part<State>
    requires { Ready state × MapOf state map.now }
    ensures goes { Goes state mem.old result.steps result.states result.at mem.new }
    ensures steps { result.steps ≤ allowance }
{
    let mut regs = spread(state);
    let flags = state.flags;
    let first = Hot {
        pc: state.pc,
        v: flags.v,
        c: flags.c,
        result: result_of(flags.s, flags.z),
        cost: 0,
    };
    let gone = quick(first, &mut regs, map, mem, upper_flags(flags), allowance);
    Part {
        at: gather(state, regs, gone.at),
        steps: gone.steps,
        states: gone.states,
    }
}

// Whether plain instructions may be carried out: the machine runs, no interrupt is due, its S and Z are those of a result, and PC is even, as it
// then stays.
fn ready(state: State) -> bool
    ensures { result ≡ true → Ready state }
{
    let flags = state.flags;
    state.condition == Condition::Running
        && !state.interrupted()
        && !(flags.s && flags.z)
        && state.pc % 2 == 0
}

// The map that the machine goes by. That of its TLB is needed only where it translates.
fn fit(maps: &mut Maps, state: State) -> &[u16; 256]
    ensures { MapOf state result.now }
{
    let on = state.translates();
    if on {
        maps.renew(state.tlb);
    }
    maps.of(on)
}

// Plain instructions, where there may be any.
pub fn ahead(state: State, mem: &mut Memory, allowance: u16, maps: Option<&mut Maps>) -> Part<State>
    ensures goes { Goes state mem.old result.steps result.states result.at mem.new }
    ensures steps { result.steps ≤ allowance }
{
    if allowance == 0 || !ready(state) {
        return Part {
            at: state,
            steps: 0,
            states: 0,
        };
    }
    match maps {
        Some(kept) => stretch(state, mem, allowance, fit(kept, state)),
        None => {
            let map = page_map(state.translates(), state.tlb);
            stretch(state, mem, allowance, &map)
        }
    }
}
