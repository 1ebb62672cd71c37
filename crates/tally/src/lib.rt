// The tests of a card by itself, and its runs counted.
#![tactic(auto)]

ghost use Rattle.std.specs.Prelude.{◌≡◌, ◌≤◌, length};
ghost use Rattle.command.specs.Card as def;

use command::{Command, Commands};
use refusal::{Cause, Validity};

// The tests of a card by itself, and the number of its runs: a refused card has both, so this is no `Result<usize, Refusal>`. Named for what
// it counts, as `CallValidity` of card is.
#[derive(Clone, Copy)]
pub struct CardValidity {
    pub validity: Validity,
    pub runs: usize,
}

// The most bytes that a card has.
const CARD: usize = 4096;

// 1 for a run.
fn is_run(command: Command) -> usize
    ensures { result ≡ def.is_run command }
{
    matches!(command, Command::Run(_)) as usize
}

// The commands of a card that is not too long.
fn count_commands(card: &[u8]) -> CardValidity
    requires { length card.now ≤ def.card_size }
    ensures value { result ≡ record { validity = (def.read_from card.now 0).validity; runs = def.runs_in (def.read_from card.now 0).commands } }
    ensures bound { result.runs ≤ def.card_size }
{
    let mut runs = 0;
    for command in Commands::new(card) {
        match command {
            Ok(command) => runs += is_run(command),
            Err(refusal) => {
                return CardValidity {
                    validity: Err(refusal),
                    runs,
                };
            }
        }
    }
    CardValidity {
        validity: Ok(()),
        runs,
    }
}

// Refusals 4 to 7, and the runs.
pub fn count(card: &[u8]) -> CardValidity
    ensures value { result ≡ record { validity = (def.reading_of card.now).validity; runs = def.runs_in (def.reading_of card.now).commands } }
    ensures bound { result.runs ≤ def.card_size }
{
    if card.len() <= CARD {
        count_commands(card)
    } else {
        CardValidity {
            validity: refusal::refused(Cause::CardLength),
            runs: 0,
        }
    }
}
