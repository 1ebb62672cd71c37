// A state out of its image.
ghost use Rattle.std.specs.Prelude.{◌≡◌, ◌+◌, ◌≤◌, length};
ghost use Rattle.image.specs.Decode as def;
ghost use Rattle.layout.specs.Layout.{timer_size};

use endian::{Words, elements_from, word_from};
use fault::FaultRecord;
use layout::{
    CAUSE, CONDITION, CONTROL, COUNT, ENTRIES, Entries, FIRED, FLAG, INPUT, Image, MISSED, MMU,
    OUTPUT, PC, PENDING, PERIOD, REGISTERS, REGS, SSP, TIMER0, TIMER1, TLB, USP, VIOLATION,
};
use machine::{Condition, Ports, State};
use status::Flags;
use timer::{Timer, Timers};

// What the byte of a condition is read as: beyond 2 too, which is the image's and not the condition's. A function: neither `From` nor
// `Condition` is of this crate.
#[tactic(auto, unfolding(crate::specs::Decode::condition_from))]
fn condition_from(n: u8) -> Condition
    ensures { result ≡ def.condition_from n }
{
    match n {
        0 => Condition::Running,
        1 => Condition::Halted,
        _ => Condition::Lost,
    }
}

// By its offset, as its definition goes.
fn timer_from(image: &[u8], at: usize) -> Timer
    requires { at + timer_size ≤ length image.now }
    ensures { result ≡ def.timer_from image.now at }
{
    Timer {
        count: word_from(image, at + COUNT),
        period: word_from(image, at + PERIOD),
        control: word_from(image, at + CONTROL),
        fired: word_from(image, at + FIRED) == 1,
    }
}

// The state of an image.
#[tactic(auto, unfolding(crate::specs::Decode::state_from))]
pub fn read_image(image: &Image) -> State
    ensures { result ≡ def.state_from image.now }
{
    let mut regs = [0; REGISTERS];
    elements_from::<Words>(image, REGS, &mut regs);
    let mut tlb = [0; ENTRIES];
    elements_from::<Entries>(image, TLB, &mut tlb);
    State {
        regs,
        ssp: word_from(image, SSP),
        usp: word_from(image, USP),
        pc: word_from(image, PC),
        flags: Flags::from_word(word_from(image, FLAG)),
        pending: word_from(image, PENDING),
        ports: Ports {
            input: image[INPUT],
            output: image[OUTPUT],
        },
        mmu: image[MMU] == 1,
        condition: condition_from(image[CONDITION]),
        fault: FaultRecord {
            violation: word_from(image, VIOLATION),
            cause: image[CAUSE],
            missed: image[MISSED],
        },
        tlb,
        timers: Timers {
            timer0: timer_from(image, TIMER0),
            timer1: timer_from(image, TIMER1),
        },
    }
}
