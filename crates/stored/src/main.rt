// Runs stored cards. Standard input holds cases, one behind the other, numbers upper byte first: how many bytes the memory lacks (2) and the
// image (1), FLAG (2), the report's length (2), the card's length (2), the card. The rest of memory and image is zero. The listing of each
// case is written to standard output.
#![tactic(auto)]

ghost use Rattle.std.specs.Prelude.{◌<◌, ◌≤◌, length, IfSome};
ghost use Rattle.layout.specs.Layout.{image_size};

use endian::word_from;
use layout::{FLAG, IMAGE};
use std::cmp::min;
use std::io;

// A case: the lengths of memory, image and report, the bytes of FLAG, and the card.
#[derive(Clone, Copy)]
struct Case<'a> {
    memory: usize,
    image: usize,
    report: usize,
    flag: [u8; 2],
    card: &'a [u8],
    ghost within: { (memory ≤ 65536) × (image ≤ image_size) × (report ≤ 16380) },
}

impl<'a> Case<'a> {
    // The first case, and what stands behind it.
    fn first(cases: &'a [u8]) -> Option<(Case<'a>, &'a [u8])>
        ensures { IfSome result (λ r. length r.1.now < length cases.now) }
    {
        let (front, behind) = cases.split_first_chunk::<9>()?;
        let long = min(word_from(front, 7) as usize, behind.len());
        let (card, rest) = behind.split_at(long);
        let case = Case {
            memory: 65536 - word_from(front, 0) as usize,
            image: IMAGE.saturating_sub(front[2] as usize),
            report: min(word_from(front, 5) as usize, 16380),
            flag: [front[3], front[4]],
            card,
        };
        Some((case, rest))
    }

    // Writes its listing. `list_card` of bench is like it, and has a theorem of its own about its one start.
    fn list(&self, rt: &impl Print) -> io::Result<()> {
        let mut memory = [0u8; 65536];
        let mut image = [0u8; IMAGE];
        image[FLAG] = self.flag[0];
        image[FLAG + 1] = self.flag[1];
        let mut report = [0u8; 16380];
        let mut text = [0u8; 65536];
        let checked = card::validate_card(
            self.memory,
            &image[..self.image],
            self.card,
            self.report,
        );
        let filled = card::run_card(
            &mut memory[..self.memory],
            &mut image[..self.image],
            self.card,
            &mut report[..self.report],
        );
        let written = listing::write_listing(checked.validity, filled, &mut text);
        rt.write_all(&text[..written])
    }
}

// Stops where a listing can't be written.
fn run_all(rt: &impl Print, cases: &[u8]) -> io::Result<()> {
    let mut left = cases;
    while let Some((case, rest)) = Case::first(left) {
        case.list(rt)?;
        left = rest;
    }
    Ok(())
}

// A read that fails prints nothing, and what can't be written ends the program without a word, both with status 0: so `main` returns no `Result`.
fn main(rt: HostRuntime) {
    let mut cases = [0u8; 65536];
    let input = input::read_input(&mut rt.stdin(), &mut cases);
    if input.complete() {
        let _ = run_all(&rt, &cases[..input.count]);
    }
}
