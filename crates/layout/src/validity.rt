// The tests of an image's fields.
ghost use Rattle.std.specs.Prelude.{◌≡◌, ◌+◌, ◌≤◌, length};
ghost use Rattle.layout.specs.Layout.{timer_size, tlb_at};
ghost use Rattle.layout.specs.Valid as def;

use crate::{
    CAUSE, CONDITION, CONTROL, COUNT, ENTRY, FIRED, FLAG, Image, MIDDLE, MMU, PENDING, PERIOD,
    TIMER0, TIMER1, TLB,
};
use endian::word_from;

// FLAG within its values.
#[tactic(auto, unfolding(crate::specs::Valid::flag_good))]
pub fn flag_good(w: u16) -> bool
    ensures { result ≡ def.flag_good w }
{
    w < 256 && w / 16 % 2 == 0
}

// Pending lines within their values.
#[tactic(auto, unfolding(crate::specs::Valid::pending_good))]
pub fn pending_good(w: u16) -> bool
    ensures { result ≡ def.pending_good w }
{
    w < 1024
}

// Bits 14 and 13 of the TLB entry with this middle byte.
#[tactic(auto, unfolding(crate::specs::Valid::zeros_good))]
pub fn zeros_good(middle: u8) -> bool
    ensures { result ≡ def.zeros_good middle }
{
    middle / 32 % 4 == 0
}

// Those of every entry.
fn all_zeros(image: &Image) -> bool
    ensures { result ≡ def.all_zeros image.now tlb_at 8 }
{
    image[TLB..TIMER0]
        .as_chunks::<ENTRY>()
        .0
        .iter()
        .all(|entry| zeros_good(entry[MIDDLE]))
}

// A timer's control within its values.
#[tactic(auto, unfolding(crate::specs::Valid::control_good))]
fn control_good(w: u16) -> bool
    ensures { result ≡ def.control_good w }
{
    w % 32768 / 2 == 0
}

// A timer's count below its period, or 0 where that is 0.
#[tactic(auto, unfolding(crate::specs::Valid::count_good))]
fn count_good(count: u16, period: u16) -> bool
    ensures { result ≡ def.count_good count period }
{
    if period == 0 {
        count == 0
    } else {
        count < period
    }
}

// The timer at an offset, as its definition goes.
#[tactic(auto, unfolding(crate::specs::Valid::timer_good))]
fn timer_good(image: &[u8], at: usize) -> bool
    requires { at + timer_size ≤ length image.now }
    ensures { result ≡ def.timer_good image.now at }
{
    count_good(word_from(image, at + COUNT), word_from(image, at + PERIOD))
        && control_good(word_from(image, at + CONTROL))
        && word_from(image, at + FIRED) < 2
}

// Every field within its values.
#[tactic(auto, unfolding(crate::specs::Valid::good_image))]
pub fn good_image(image: &Image) -> bool
    ensures { result ≡ def.good_image image.now }
{
    flag_good(word_from(image, FLAG))
        && pending_good(word_from(image, PENDING))
        && image[MMU] < 2
        && image[CONDITION] < 3
        && image[CAUSE] < 4
        && all_zeros(image)
        && timer_good(image, TIMER0)
        && timer_good(image, TIMER1)
}
