// The commands of a card, one after the other.
ghost use Rattle.std.specs.Prelude.{◌≡◌, ◌≤◌, length};
ghost use Rattle.command.specs.Card.{card_size};

use crate::{Command, parse};
use refusal::Refusal;

// The commands from a position of a card on, to its end; a bad one is the last.
#[derive(Drop)]
pub struct Commands<'a> {
    card: &'a [u8],
    at: usize,
    ghost short: { length card.now ≤ card_size },
    ghost inside: { at ≤ length card.now },
}

impl<'a> Commands<'a> {
    // Those of a whole card.
    pub fn new(card: &'a [u8]) -> Commands<'a>
        requires { length card.now ≤ card_size }
        ensures card { result.card.now ≡ card.now }
        ensures at { result.at ≡ 0 }
    {
        Commands { card, at: 0 }
    }
}

impl<'a> Iterator for Commands<'a> {
    ghost use Rattle.command.specs.Commands.{Gives, left};

    type Item = Result<Command, Refusal>;

    ghost next_gives = { Gives };

    ghost remaining = { left };

    fn next(&mut self) -> Option<Result<Command, Refusal>> {
        match parse(&self.card[self.at..], self.at) {
            Ok(None) => None,
            Ok(Some(parsed)) => {
                self.at = parsed.next;
                Some(Ok(parsed.command))
            }
            Err(refusal) => {
                self.at = self.card.len();
                Some(Err(refusal))
            }
        }
    }
}
