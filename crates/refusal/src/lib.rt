// Refusals: why a call is refused, and tests one after the other.
#![tactic(auto)]

mod tests;

pub use tests::{between, good_if, refused};

// Why a call is refused, in the order of the tests, by its number.
#[derive(Clone, Copy, Debug, PartialEq, Eq)]
pub enum Cause {
    // Memory is not 65,536 bytes.
    MemoryLength = 1,
    // The image does not have an image's size.
    ImageLength,
    // An image field is beyond its values.
    ImageField,
    // The card is over 4,096 bytes.
    CardLength,
    // The first bad command of a card: an unknown byte, operands cut short, an operand beyond its values.
    CommandUnknown,
    CommandShort,
    CommandBeyond,
    // The report is too short.
    ReportLength,
    // A setting of the winder is beyond its values, or there are fewer places than ticks.
    WinderSetting,
    // The width of a window is beyond its values.
    WindowWidth,
}

// A cause, and its place: the position of the first bad command, or 0.
#[derive(Clone, Copy, Debug, PartialEq, Eq)]
pub struct Refusal {
    pub cause: Cause,
    pub place: u16,
}

// What the tests of a call say.
pub type Validity = Result<(), Refusal>;
