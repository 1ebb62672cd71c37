// The instructions that move: stores, jumps, the stack. PC is even before and after each; one that would make it odd is left to the machine.
ghost use Rattle.std.specs.Prelude.{◌≡◌, ◌%◌, ◌*◌, ◌+◌, ◌/◌, ◌<◌, get_or};
ghost use Rattle.decode.specs.Code.{CALL, JUMP, NO, PUSH, RET, ST};
ghost use Rattle.mmu.specs.declared.Right.TheVariants as right;
ghost use Rattle.pages.specs.Accesses.{Reads};
ghost use Rattle.source.specs.Fields.{mode_of};
ghost use Rattle.word.specs.Word.{upper};
ghost use Rattle.word.specs.declared.Width.TheVariants as width;
ghost use Rattle.hot.specs.Tells.{Added, Led, Stored, Tells, Told};

use crate::Hot;
use memory::Memory;
use mmu::Right;
use pages::{NONE, NOWHERE, fetch, place, read, word_at, write};
use source::{SP, USP, frame_place, indexed_place, register, rx, wide};
use word::{Width, minus, plus};

// The number of no condition.
const NONE_HOLDS: u32 = decode::NO_CONDITION as u32;

// What is added to the second word of a jump or of CALL: nothing, or Rx.
fn added(regs: &[u16; 16], mode: u32, pc: u16, w: u32) -> u32
    ensures { result < 65536 → Added regs.now mode pc w result }
{
    if mode == 0 {
        return 0;
    }
    rx(regs, plus(pc, 4), w)
}

// The word at SP.
fn top(regs: &[u16; 16], map: &[u16; 256], mem: &Memory) -> u32
    ensures { result < 65536 → Reads map.now mem.now right.Read width.Word (get_or regs.now 13 0) result }
{
    read(map, mem, Width::Word, wide(regs[SP]))
}

impl Hot {
    // To another address, if that is even.
    fn to_even(self, pc: u16, cost: u32) -> Hot
        ensures { Led self pc cost result }
    {
        if pc % 2 == 1 {
            return self.stop();
        }
        self.to(pc, cost)
    }

    // A jump, PC being even.
    pub fn jump(self, regs: &[u16; 16], map: &[u16; 256], mem: &Memory, w: u32, mode: u32) -> Hot
        requires { (self.pc % 2 ≡ 0) × (upper w ≡ JUMP * 8 + mode) × (mode < 2) }
        ensures { Tells map.now regs.now mem.now self w regs.now mem.now result }
    {
        let n = w / 16 % 16;
        if n == NONE_HOLDS {
            return self.stop();
        }
        let add = added(regs, mode, self.pc, w);
        if NONE <= add {
            return self.stop();
        }
        let i = place(map, Right::Execute, plus(self.pc, 2));
        if NOWHERE <= i {
            return self.stop();
        }
        if self.taken(n) {
            return self.to_even(plus(word_at(mem, i), add as u16), 5);
        }
        self.to(plus(self.pc, 4), 4)
    }

    // CALL, PC being even.
    pub fn call(
        self,
        regs: &mut [u16; 16],
        map: &[u16; 256],
        mem: &mut Memory,
        w: u32,
        mode: u32,
    ) -> Hot
        requires { (self.pc % 2 ≡ 0) × (upper w ≡ CALL * 8 + mode) × (mode < 2) }
        ensures { Tells map.now regs.old mem.old self w regs.new mem.new result }
    {
        let add = added(regs, mode, self.pc, w);
        if NONE <= add {
            return self.stop();
        }
        let d = fetch(map, mem, plus(self.pc, 2));
        if NONE <= d {
            return self.stop();
        }
        let target = plus(d as u16, add as u16);
        if target % 2 == 1 {
            return self.stop();
        }
        let sp = minus(regs[SP], 2);
        if write(map, mem, Width::Word, sp as u32, plus(self.pc, 4)) {
            regs[SP] = sp;
            return self.to(target, 6);
        }
        self.stop()
    }

    pub fn push(self, regs: &mut [u16; 16], map: &[u16; 256], mem: &mut Memory, w: u32) -> Hot
        requires { (self.pc % 2 ≡ 0) × (upper w ≡ PUSH * 8) }
        ensures { Tells map.now regs.old mem.old self w regs.new mem.new result }
    {
        let v = register(regs, w / 16);
        if NONE <= v {
            return self.stop();
        }
        let sp = minus(regs[SP], 2);
        if write(map, mem, Width::Word, sp as u32, v as u16) {
            regs[SP] = sp;
            return self.to(plus(self.pc, 2), 5);
        }
        self.stop()
    }

    pub fn pop(self, regs: &mut [u16; 16], map: &[u16; 256], mem: &Memory, w: u32) -> Hot
        requires { (self.pc % 2 ≡ 0) × (upper w ≡ PUSH * 8 + 4) }
        ensures { Tells map.now regs.old mem.now self w regs.new mem.now result }
    {
        let d = (w / 16 % 16) as usize;
        if USP <= d {
            return self.stop();
        }
        let x = top(regs, map, mem);
        if NONE <= x {
            return self.stop();
        }
        regs[SP] = plus(regs[SP], 2);
        regs[d] = x as u16;
        self.to(plus(self.pc, 2), 6)
    }

    pub fn ret(self, regs: &mut [u16; 16], map: &[u16; 256], mem: &Memory, w: u32) -> Hot
        requires { (self.pc % 2 ≡ 0) × (upper w ≡ RET * 8) }
        ensures { Tells map.now regs.old mem.now self w regs.new mem.now result }
    {
        let x = top(regs, map, mem);
        if x % 2 == 1 {
            return self.stop();
        }
        if NONE <= x {
            return self.stop();
        }
        regs[SP] = plus(regs[SP], 2);
        self.to(x as u16, 6)
    }

    // Rd stored at an address.
    fn store_at(
        self,
        regs: &[u16; 16],
        map: &[u16; 256],
        mem: &mut Memory,
        w: u32,
        width: Width,
        a: u32,
        next: u16,
        cost: u32,
    ) -> Hot
        ensures { Stored map.now regs.now mem.old self w width a next cost mem.new result }
    {
        let v = register(regs, w / 16);
        if NONE <= v {
            return self.stop();
        }
        if write(map, mem, width, a, v as u16) {
            return self.to(next, cost);
        }
        self.stop()
    }

    // ST, PC being even.
    pub fn store(
        self,
        regs: &[u16; 16],
        map: &[u16; 256],
        mem: &mut Memory,
        w: u32,
        mode: u32,
    ) -> Hot
        requires { (self.pc % 2 ≡ 0) × (w / 2048 ≡ ST) × (mode_of w ≡ mode) }
        ensures { Tells map.now regs.now mem.old self w regs.now mem.new result }
    {
        let after = plus(self.pc, 2);
        let beyond = plus(self.pc, 4);
        match mode {
            0 => {
                let a = fetch(map, mem, after);
                self.store_at(regs, map, mem, w, Width::Word, a, beyond, 6)
            }
            1 => {
                let a = indexed_place(regs, beyond, fetch(map, mem, after), w);
                self.store_at(regs, map, mem, w, Width::Word, a, beyond, 6)
            }
            3 => {
                let a = wide(frame_place(regs, w));
                self.store_at(regs, map, mem, w, Width::Word, a, after, 6)
            }
            6 => self.store_at(regs, map, mem, w, Width::Word, rx(regs, after, w), after, 5),
            7 => self.store_at(regs, map, mem, w, Width::Byte, rx(regs, after, w), after, 5),
            _ => self.stop(),
        }
    }

    // NO.
    pub fn no(self, regs: &[u16; 16], map: &[u16; 256], mem: &Memory, w: u32) -> Hot
        requires { (self.pc % 2 ≡ 0) × (upper w ≡ NO * 8) }
        ensures { Tells map.now regs.now mem.now self w regs.now mem.now result }
    {
        self.to(plus(self.pc, 2), 3)
    }

    // LD Rd,FLAG, `top` being E, P and I in their places in FLAG.
    pub fn load_flag(
        self,
        regs: &mut [u16; 16],
        map: &[u16; 256],
        mem: &[u8],
        top: u8,
        w: u32,
    ) -> Hot
        requires { (self.pc % 2 ≡ 0) × (upper w ≡ ST * 8 + 4) }
        ensures { Told top map.now regs.old mem.now self w regs.new mem.now result }
    {
        let d = (w / 16 % 16) as usize;
        if USP <= d {
            return self.stop();
        }
        regs[d] = u16::from(top) + u16::from(self.flags());
        self.to(plus(self.pc, 2), 4)
    }
}
