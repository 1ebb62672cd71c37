// A card's call on lent buffers.
ghost use Rattle.std.specs.Prelude.{◌++◌, ◌≡◌, ◌≤◌, drop, length};
ghost use Rattle.card.specs.Call as def;
ghost use Rattle.card.specs.Inside.{filled_of, image_effect};
ghost use Rattle.image.specs.Image.{image_of};
ghost use Rattle.call.specs.Call.{buffers, called};

use crate::effects::execute;
use crate::validity::validate_card;
use call::Answer;
use command::Commands;
use layout::Image;
use memory::Memory;

// The commands of a card on buffers that are valid.
fn execute_valid(memory: &mut Memory, image: &mut Image, commands: Commands<'_>, report: &mut [u8])
    requires { filled_of commands ≤ length report.old }
    ensures memory { memory.new ≡ (image_effect commands.entry image.old memory.old).memory }
    ensures image { image.new ≡ image_of (image_effect commands.entry image.old memory.old).state }
    ensures report { report.new ≡ (image_effect commands.entry image.old memory.old).reports ++ drop (filled_of commands.entry) report.old }
{
    let state = image::read_image(image);
    let last = execute(state, memory, commands, report);
    image::write_image(image, last);
}

// A card, the reports at the front of `report`, the bytes behind them kept; it gives the number of report bytes filled.
#[tactic(auto, unfolding(crate::specs::Call::card_call))]
pub fn perform(memory: &mut [u8], image: &mut [u8], card: &[u8], report: &mut [u8]) -> Answer
    ensures { called result (buffers memory.new image.new report.new) ≡ def.card_call memory.old image.old card.now report.old }
{
    let checked = validate_card(memory.len(), image, card, report.len());
    checked.validity?;
    let memory = memory.as_mut_array().unwrap();
    let image = image.as_mut_array().unwrap();
    execute_valid(memory, image, Commands::new(card), report);
    Ok(checked.needed as u32)
}

// A card: the filled front part of the report is handed back, empty on a refusal. Whether the card was refused, `validate_card` tells:
// this could never fail, so it hands back no `Result`.
pub fn run_card<'a>(
    memory: &mut [u8],
    image: &mut [u8],
    card: &[u8],
    report: &'a mut [u8],
) -> &'a mut [u8]
    ensures part { result.now ≡ def.filled_part memory.old image.old card.now report.old }
    ensures memory { memory.new ≡ (def.card_call memory.old image.old card.now report.old).lent.memory }
    ensures image { image.new ≡ (def.card_call memory.old image.old card.now report.old).lent.image }
{
    let filled = perform(memory, image, card, report).unwrap_or(0);
    &mut report[..filled as usize]
}
