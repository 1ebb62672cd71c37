// The image of a state.
ghost use Rattle.std.specs.Prelude.{◌≡◌, ◌+◌, ◌≤◌, length};
ghost use Rattle.std.proofs.lemmas.List.Edits.{sets};
ghost use Rattle.image.specs.Image as def;
ghost use Rattle.layout.specs.Layout.{ssp_at, timer_size};

use endian::{Words, put_bytes, put_elements, put_word};
use layout::{CAUSE, Entries, INPUT, Image, REGS, SSP, TIMER0, TIMER1, TLB, VIOLATION};
use machine::State;
use timer::Timer;

// The fields between the registers and the TLB.
#[tactic(auto, unfolding(endian::specs::Bytes::word_bytes))]
fn put_between(image: &mut Image, state: State)
    ensures { image.new ≡ sets image.old ssp_at (def.between_of state) }
{
    let words = [
        state.ssp,
        state.usp,
        state.pc,
        state.flags.word(),
        state.pending,
    ];
    put_elements::<Words>(image, SSP, &words);
    let bytes = [
        state.ports.input,
        state.ports.output,
        state.mmu as u8,
        state.condition as u8,
    ];
    put_bytes(image, INPUT, &bytes);
    put_word(image, VIOLATION, state.fault.violation);
    put_bytes(image, CAUSE, &[state.fault.cause, state.fault.missed]);
}

// By its offset, as its definition goes.
fn put_timer(image: &mut [u8], at: usize, timer: Timer)
    requires { at + timer_size ≤ length image.old }
    ensures { image.new ≡ sets image.old at (def.timer_bytes timer) }
{
    let words = [timer.count, timer.period, timer.control, timer.fired as u16];
    put_elements::<Words>(image, at, &words);
}

// The image written over another.
pub fn write_image(image: &mut Image, state: State)
    ensures { image.new ≡ def.image_of state }
{
    put_elements::<Words>(image, REGS, &state.regs);
    put_between(image, state);
    put_elements::<Entries>(image, TLB, &state.tlb);
    put_timer(image, TIMER0, state.timers.timer0);
    put_timer(image, TIMER1, state.timers.timer1);
}
