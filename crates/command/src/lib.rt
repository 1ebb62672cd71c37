// The commands of a bench card: what stands at a position of a card.
#![tactic(auto)]

mod commands;
mod kind;
mod parser;

pub use commands::Commands;
pub use parser::parse;

// A command of a card, with its operands.
#[derive(Clone, Copy)]
pub enum Command {
    // 01: a byte stored at a physical address.
    Byte(u16, u8),
    // 02: a register by its number, and its value.
    Register(u8, u16),
    // 03: lines added to those pending, and the input byte.
    Lines(u16, u8),
    // 04: a run of this allowance.
    Run(u16),
    // 05: a TLB entry by its number, and its bits.
    Entry(u8, u32),
    // 06: the MMU switched.
    Mmu(bool),
    // 07: FLAG.
    Flag(u16),
    // 08: this many milliseconds pass.
    Time(u16),
}

// A command that stands at a position of a card, and the position of the next.
#[derive(Clone, Copy)]
pub struct Parsed {
    pub command: Command,
    pub next: usize,
}
