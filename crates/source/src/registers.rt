// The registers.
ghost use Rattle.std.specs.Prelude.{◌≡◌, ◌%◌};
ghost use Rattle.source.specs.Fields.{register_value, rx_value};

use pages::NONE;

// The places of FP and of SP among the registers. USP and PC are no places here.
pub const FP: usize = decode::register::FP as usize;

pub const SP: usize = decode::register::SP as usize;

pub const USP: usize = decode::register::USP as usize;

const PC: u32 = decode::register::PC as u32;

pub fn wide(x: u16) -> u32
    ensures { result ≡ x }
{
    u32::from(x)
}

// A register below 14, by the lowest four bits of `n`.
pub fn register(regs: &[u16; 16], n: u32) -> u32
    ensures { result ≡ register_value regs.now (n % 16) }
{
    let k = (n % 16) as usize;
    if k < USP {
        return wide(regs[k]);
    }
    NONE
}

// Rs or Rx, by the lowest four bits of `w`: a register below 14, with 15 the address of the following instruction, with 14 none.
pub fn rx(regs: &[u16; 16], next: u16, w: u32) -> u32
    ensures { result ≡ rx_value regs.now next (w % 16) }
{
    let x = register(regs, w);
    if x < NONE {
        return x;
    }
    if w % 16 == PC {
        return wide(next);
    }
    // None.
    x
}
