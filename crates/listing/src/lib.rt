// The listing of a bench card.
#![tactic(auto)]

ghost use Rattle.std.specs.Prelude.{◌≡◌, min, ◌/◌, length};
ghost use Rattle.refusal.specs.Refusal.{cause_number};
ghost use Rattle.report.specs.Layout.{report_size};
ghost use Rattle.listing.specs.Listing as def;
ghost use Rattle.text.specs.Writer.{Wrote};

use line::put_line;
use refusal::{Refusal, Validity};
use report::REPORT;
use text::Writer;

mod line;

// How many runs a report tells of, in a line.
fn put_runs(to: &mut Writer<'_>, runs: u64)
    ensures { Wrote to.old to.new (def.runs_text runs) }
{
    to.put_text(b"runs ");
    to.put_decimal(20, runs);
    to.put(b'\n');
}

// A line for each run of a report.
fn put_lines(to: &mut Writer<'_>, report: &[u8])
    ensures { Wrote to.old to.new (def.lines_of (length report.now / report_size) report.now) }
{
    let (runs, _) = report.as_chunks::<REPORT>();
    for run in runs {
        put_line(to, run);
    }
}

// Why a card is refused, and where.
fn put_refused(to: &mut Writer<'_>, refusal: Refusal)
    ensures { Wrote to.old to.new (def.refused_text (cause_number refusal.cause) refusal.place) }
{
    to.put_text(b"refused ");
    to.put_decimal(10, u8::from(refusal.cause) as u64);
    to.put(b' ');
    to.put_decimal(10, refusal.place as u64);
    to.put(b'\n');
}

#[tactic(auto, unfolding(crate::specs::Listing::listing_of))]
fn put_listing(to: &mut Writer<'_>, validity: Validity, report: &[u8])
    ensures { Wrote to.old to.new (def.listing_of validity report.now) }
{
    match validity {
        Ok(()) => {
            put_runs(to, (report.len() / REPORT) as u64);
            put_lines(to, report);
        }
        Err(refusal) => put_refused(to, refusal),
    }
}

// The listing of a card by what its call's tests say and by the part of the report that it filled, written to the front of `text` and cut
// where that ends. Answers how many bytes were written, which callers that lend a buffer go by.
#[tactic(auto, using(crate::proofs::Whole::sets_over))]
pub fn write_listing(validity: Validity, report: &[u8], text: &mut [u8]) -> usize
    ensures count { result ≡ min (length (def.listing_of validity report.now)) (length text.old) }
    ensures text { text.new ≡ def.over text.old (def.listing_of validity report.now) }
{
    let mut to = Writer::new(text, 0);
    put_listing(&mut to, validity, report);
    to.position()
}
