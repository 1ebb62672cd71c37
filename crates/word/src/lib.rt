// Words of 16 bits: sums and differences that wrap, words and four-bit fields as signed numbers; the widths of an access.
#![tactic(auto)]

mod signed;
mod word;

pub use signed::{sign_extend, to_signed, to_word};
pub use word::{minus, plus};

// What an access is to.
#[derive(Clone, Copy)]
pub enum Width {
    Byte,
    Word,
}
