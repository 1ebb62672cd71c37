// The tests of a card's call.
ghost use Rattle.std.specs.Prelude.{◌≡◌, ◌*◌};
ghost use Rattle.card.specs.Call.{card_valid};
ghost use Rattle.command.specs.Card.{reading_of, runs_in};
ghost use Rattle.report.specs.Layout.{report_size};

use crate::CallValidity;
use report::REPORT;

// Refusals 1 to 8, and the report bytes needed.
#[tactic(auto, unfolding(crate::specs::Call::card_valid))]
pub fn validate_card(memory: usize, image: &[u8], card: &[u8], report: usize) -> CallValidity
    ensures { result ≡ record { validity = card_valid memory image.now card.now report; needed = report_size * runs_in (reading_of card.now).commands } }
{
    let counted = tally::count(card);
    let needed = REPORT * counted.runs;
    let validity = call::validate_machine(memory, image)
        .and(counted.validity)
        .and(call::report_fits(report, needed));
    CallValidity { validity, needed }
}
