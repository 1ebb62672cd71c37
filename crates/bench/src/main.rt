// Runs a bench card: reads it from standard input and writes its listing to standard output.
#![tactic(auto)]

ghost use Rattle.std.specs.Prelude.{◌≡◌};
ghost use Rattle.bench.specs.Bench.{bench_of};

use layout::{FLAG, IMAGE};

// Bit P of FLAG.
const PRIVILEGED: u8 = 0x40;

// The listing of a card on zero memory and an image that is zero but FLAG 0040h.
fn list_card<'a>(card: &[u8], text: &'a mut [u8; 65536]) -> &'a [u8]
    ensures { result.now ≡ bench_of card.now }
{
    let mut memory = [0u8; 65536];
    let mut image = [0u8; IMAGE];
    image[FLAG + 1] = PRIVILEGED;
    let mut report = [0u8; 16380];
    let checked = card::validate_card(memory.len(), &image, card, report.len());
    let filled = card::run_card(&mut memory, &mut image, card, &mut report);
    let written = listing::write_listing(checked.validity, filled, text);
    &text[..written]
}

// A card has at most 4,096 bytes; one more is enough to refuse it. A read that fails prints nothing, and what can't be written ends the program
// without a word, both with status 0: so `main` returns no `Result`.
fn main(rt: HostRuntime) {
    let mut card = [0u8; 4097];
    let input = input::read_input(&mut rt.stdin(), &mut card);
    if input.complete() {
        let mut text = [0u8; 65536];
        let _ = rt.write_all(list_card(&card[..input.count], &mut text));
    }
}
