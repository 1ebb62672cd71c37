// Bench cards: their calls, and what their commands do.
#![tactic(auto)]

mod calls;
mod effects;
mod validity;

pub use calls::{perform, run_card};
use refusal::Validity;
pub use validity::validate_card;

// The tests of a card's call, and the report bytes that its runs need: a refused card has both, so this is no `Result<usize, Refusal>`.
#[derive(Clone, Copy)]
pub struct CallValidity {
    pub validity: Validity,
    pub needed: usize,
}
