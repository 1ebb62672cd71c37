// The line of a run.
ghost use Rattle.listing.specs.Listing as def;
ghost use Rattle.text.specs.Writer.{Wrote};

use endian::word_from;
use report::{ENDING, FLAG, NUMBER, PC, REPORT, STATES, STEPS};
use text::Writer;

// By the number that a report has for it, as C has it.
#[tactic(auto, unfolding(crate::specs::Listing::ending_text))]
fn put_ending(to: &mut Writer<'_>, ending: u8)
    ensures { Wrote to.old to.new (def.ending_text ending) }
{
    to.put_text(match ending {
        0 => b"spent",
        1 => b"entered",
        2 => b"halted",
        _ => b"lost",
    })
}

// The number entered, or `-` where there is none: the bytes of a report are numbers, as C has them.
#[tactic(auto, unfolding(crate::specs::Listing::number_text))]
fn put_number(to: &mut Writer<'_>, number: u8)
    ensures { Wrote to.old to.new (def.number_text number) }
{
    if number == 255 {
        to.put(b'-')
    } else {
        to.put_decimal(3, number as u64)
    }
}

// How a run ended, by its report.
fn put_outcome(to: &mut Writer<'_>, report: &[u8; REPORT])
    ensures { Wrote to.old to.new (def.outcome_text report.now) }
{
    put_ending(to, report[ENDING]);
    to.put(b' ');
    put_number(to, report[NUMBER]);
    to.put(b' ');
}

// Its steps and states.
fn put_counts(to: &mut Writer<'_>, report: &[u8; REPORT])
    ensures { Wrote to.old to.new (def.counts_text report.now) }
{
    let high = word_from(report, STATES);
    let low = word_from(report, STATES + 2);
    to.put_decimal(5, word_from(report, STEPS) as u64);
    to.put(b' ');
    to.put_decimal(10, high as u64 * 65536 + low as u64);
    to.put(b' ');
}

// Its PC and FLAG, which end the line.
fn put_registers(to: &mut Writer<'_>, report: &[u8; REPORT])
    ensures { Wrote to.old to.new (def.registers_text report.now) }
{
    to.put_hex(word_from(report, PC));
    to.put(b' ');
    to.put_hex(word_from(report, FLAG));
    to.put(b'\n');
}

pub fn put_line(to: &mut Writer<'_>, report: &[u8; REPORT])
    ensures { Wrote to.old to.new (def.line_of report.now) }
{
    put_outcome(to, report);
    put_counts(to, report);
    put_registers(to, report);
}
