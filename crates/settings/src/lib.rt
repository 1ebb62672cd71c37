// What the commands 02, 03, 05, 06 and 08 of a card do to the state.
#![tactic(auto)]

ghost use Rattle.std.specs.Prelude.{◌≡◌, set};
ghost use Rattle.machine.specs.State.{with_mmu, with_tlb};
ghost use Rattle.settings.specs.Settings as def;

use decode::register::*;
use machine::{Ports, State};

// 02: register 13 is SSP whatever P is, so this is not what an instruction writes.
#[tactic(auto, unfolding(crate::specs::Settings::with_register))]
pub fn assign_register(mut state: State, number: u8, value: u16) -> State
    ensures { result ≡ def.with_register state number value }
{
    match number {
        SP => state.ssp = value,
        USP => state.usp = value,
        0..=FP => state.regs[number as usize] = value,
        _ => state.pc = value,
    }
    state
}

// 03: lines that are pending already stay so.
pub fn add_lines(mut state: State, lines: u16, byte: u8) -> State
    ensures { result ≡ def.with_lines state lines byte }
{
    state.pending |= lines;
    state.ports.input = byte;
    state
}

// 05.
pub fn set_entry(mut state: State, number: u8, bits: u32) -> State
    ensures { result ≡ with_tlb state (set state.tlb number bits) }
{
    if number < 8 {
        state.tlb[number as usize] = bits;
    }
    state
}

// 06.
pub fn set_mmu(state: State, on: bool) -> State
    ensures { result ≡ with_mmu state on }
{
    State { mmu: on, ..state }
}

// 08: milliseconds pass.
#[tactic(auto, using(crate::specs::Laws::time_at_once))]
pub fn pass_time(mut state: State, ms: u16) -> State
    ensures { result ≡ def.after_time ms state }
{
    let passed = state.timers.pass(ms);
    state.pending |= passed.lines;
    state.timers = passed.timers;
    state
}
