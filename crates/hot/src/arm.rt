// The instructions: PC, the arithmetic flags, the registers and memory after one, or nothing changed where it is not carried out here.
ghost use Rattle.std.specs.Prelude.{◌≡◌, ◌%◌, ◌*◌, ◌+◌, ◌/◌, ◌<◌, set};
ghost use Rattle.source.specs.Rows.{add_cost, load_cost};
ghost use Rattle.source.specs.Fields.{mode_of};
ghost use Rattle.word.specs.Word.{upper};
ghost use Rattle.hot.specs.Tells as def;

use crate::Hot;
use alu::Alu;
use decode::code;
use memory::Memory;
use pages::NONE;
use source::{Source, USP, source_of};

impl Hot {
    // To another address, in these states. It changes the value that it was given, so that V and C go along as they are: the compiled loop is shorter so.
    pub(crate) fn to(mut self, pc: u16, cost: u32) -> Hot
        ensures { result ≡ def.to self pc cost }
    {
        self.pc = pc;
        self.cost = cost;
        self
    }

    // Not carried out.
    pub fn stop(self) -> Hot
        ensures { result ≡ def.stop_of self }
    {
        self.to(self.pc, 0)
    }

    // LD and ADD to SHRL, PC being even.
    pub fn op(
        self,
        regs: &mut [u16; 16],
        map: &[u16; 256],
        mem: &Memory,
        w: u32,
        code: u8,
        mode: u32,
    ) -> Hot
        requires { (self.pc % 2 ≡ 0) × (upper w ≡ code * 8 + mode) × (mode < 8) }
        ensures { def.Tells map.now regs.old mem.now self w regs.new mem.now result }
    {
        let x = source_of(regs, map, mem, self.pc, w, mode);
        self.operate(regs, w, code, mode, x)
    }

    // LD and ADD to SHRL, by code and mode, with their operand. `plan::result` is the plain one: here states and flags go along in the loop.
    pub(crate) fn operate(self, regs: &mut [u16; 16], w: u32, code: u8, mode: u32, x: Source) -> Hot
        requires { (x.cost ≡ add_cost (mode_of w)) × (w / 2048 ≡ code) × (mode_of w ≡ mode) }
        ensures { def.Operates regs.old self w x regs.new result }
    {
        // The operand before Rd: the compiled loop is faster so.
        if NONE <= x.value {
            return self.stop();
        }
        let d = (w / 16 % 16) as usize;
        if USP <= d {
            return self.stop();
        }
        let a = regs[d];
        let b = x.value as u16;
        match code {
            code::LD => self.load(regs, d, b, x.next, load_cost(mode, x.cost)),
            code::ADD => with(regs, d, alu::add(a, b), x.next, x.cost),
            code::SUB => with(regs, d, alu::sub(a, b), x.next, x.cost),
            code::CMP => flagged(alu::sub(a, b), x.next, x.cost),
            code::AND => with(regs, d, alu::and(a, b), x.next, x.cost),
            code::OR => with(regs, d, alu::or(a, b), x.next, x.cost),
            code::XOR => with(regs, d, alu::xor(a, b), x.next, x.cost),
            code::ADDS => with(regs, d, alu::adds(a, b), x.next, x.cost + 1),
            code::MUL => with(regs, d, alu::mul(a, b), x.next, x.cost + 50),
            code::DIV => self.divide(regs, d, b, alu::div(a, b), x.next, x.cost + 66),
            code::MOD => self.divide(regs, d, b, alu::modulo(a, b), x.next, x.cost + 66),
            code::SHLA | code::SHLL => with(
                regs,
                d,
                alu::shl(a, b),
                x.next,
                x.cost + 1 + x.value % 16,
            ),
            code::SHRA => with(regs, d, alu::shra(a, b), x.next, x.cost + 1 + x.value % 16),
            code::SHRL => with(regs, d, alu::shrl(a, b), x.next, x.cost + 1 + x.value % 16),
            _ => self.stop(),
        }
    }

    fn load(self, regs: &mut [u16; 16], d: usize, v: u16, pc: u16, cost: u32) -> Hot
        requires { d < 16 }
        ensures value { result ≡ def.to self pc cost }
        ensures written { regs.new ≡ set regs.old d v }
    {
        regs[d] = v;
        self.to(pc, cost)
    }

    // A quotient or a remainder, where the divisor is not 0.
    fn divide(self, regs: &mut [u16; 16], d: usize, b: u16, r: Alu, pc: u16, cost: u32) -> Hot
        requires { d < 16 }
        ensures { def.Divided regs.old self d b r pc cost regs.new result }
    {
        if b == 0 {
            return self.stop();
        }
        with(regs, d, r, pc, cost)
    }
}

// The states of LD: one less than those of ADD with a register.
fn load_cost(mode: u32, cost: u32) -> u32
    ensures { cost ≡ add_cost mode → result ≡ load_cost mode }
{
    if mode == 4 { 4 } else { cost }
}

// The flags of a result.
fn flagged(r: Alu, pc: u16, cost: u32) -> Hot
    ensures { result ≡ def.flagged r pc cost }
{
    Hot {
        pc,
        v: r.v,
        c: r.c,
        result: r.value,
        cost,
    }
}

// A result to a register.
fn with(regs: &mut [u16; 16], d: usize, r: Alu, pc: u16, cost: u32) -> Hot
    requires { d < 16 }
    ensures value { result ≡ def.flagged r pc cost }
    ensures written { regs.new ≡ set regs.old d r.value }
{
    regs[d] = r.value;
    flagged(r, pc, cost)
}
