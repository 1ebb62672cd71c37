// The commands of a card.
ghost use Rattle.std.specs.Prelude.{◌≡◌, ◌+◌, ◌≤◌, length};
ghost use Rattle.command.specs.Card.{card_size};
ghost use Rattle.command.specs.Command as def;

use crate::Parsed;
use crate::kind::Kind;
use refusal::{Cause, Refusal};

// A bad command.
fn bad(cause: Cause, at: usize) -> Refusal
    requires { at ≤ card_size }
    ensures { result ≡ def.refusal cause at }
{
    Refusal {
        cause,
        place: at as u16,
    }
}

// What stands at position `at` of a card, `rest` being the card from there on: a command, or none, where the card ends.
#[tactic(auto, unfolding(crate::specs::Command::parsed_of))]
pub fn parse(rest: &[u8], at: usize) -> Result<Option<Parsed>, Refusal>
    requires { at + length rest.now ≤ card_size }
    ensures { result ≡ def.parsed_of at rest.now }
{
    let Some(&byte) = rest.first() else {
        return Ok(None);
    };
    let kind = Kind::try_from(byte).map_err(|cause| bad(cause, at))?;
    let count = kind.operands();
    if rest.len() <= count {
        return Err(bad(Cause::CommandShort, at));
    }
    if !kind.good(rest) {
        return Err(bad(Cause::CommandBeyond, at));
    }
    Ok(Some(Parsed {
        command: kind.command(rest),
        next: at + 1 + count,
    }))
}
