// The calls of the interface for C, each with its answer in one number: runs, cards, views, looks, simulations of a winder and the load of its motor, on
// buffers that the caller lends. `tac_c` exports them.
#![tactic(auto)]

ghost use Rattle.std.specs.Prelude.{◌≡◌};
ghost use Rattle.call.specs.Call.{buffers, called};
ghost use Rattle.card.specs.Call.{card_call};
ghost use Rattle.direct.specs.Call.{run_call};
ghost use Rattle.load.specs.Call.{busiest_call};
ghost use Rattle.look.specs.Call.{fault_call};
ghost use Rattle.view.specs.Call.{view_call};
ghost use Rattle.winder.specs.Call.{lent, settings, wind_call};
ghost use Rattle.tac.specs.Packed as def;

use call::Answer;
use winder::Settings;

// An answer in one number: a refusal's number × 2^32 + P, or what the call gives.
fn pack(answer: Answer) -> u64
    ensures number { result ≡ def.packed answer }
    ensures unpacked { def.Unpacked result answer }
{
    match answer {
        Err(refusal) => { u8::from(refusal.cause) as u64 * 0x1_0000_0000 + refusal.place as u64 }
        Ok(given) => given as u64,
    }
}

// A run of at most `allowance` steps.
pub fn tac_run(memory: &mut [u8], image: &mut [u8], allowance: u16, report: &mut [u8]) -> u64
    ensures { called result (buffers memory.new image.new report.new) ≡ def.packed_call (run_call memory.old image.old allowance report.old) }
{
    pack(direct::run(memory, image, allowance, report))
}

// A bench card.
pub fn tac_card(memory: &mut [u8], image: &mut [u8], card: &[u8], report: &mut [u8]) -> u64
    ensures { called result (buffers memory.new image.new report.new) ≡ def.packed_call (card_call memory.old image.old card.now report.old) }
{
    pack(card::perform(memory, image, card, report))
}

// The report of a run of no step; memory and image are read alone.
pub fn tac_view(memory: &[u8], image: &[u8], report: &mut [u8]) -> u64
    ensures { called result (buffers memory.now image.now report.new) ≡ def.packed_call (view_call memory.now image.now report.old) }
{
    pack(view::view(memory, image, report))
}

// A look at the fault record; the image is read alone.
pub fn tac_fault(image: &[u8]) -> u64
    ensures { called result image.now ≡ def.packed_call (fault_call image.now) }
{
    pack(look::look(image))
}

// A simulation of the winder.
pub fn tac_wind(
    memory: &mut [u8],
    image: &mut [u8],
    turns: u32,
    notches: u32,
    rundown: u32,
    ticks: u32,
    steps: u32,
    places: &mut [u8],
) -> u64
    ensures { called result (lent memory.new image.new places.new) ≡ def.packed_call (wind_call memory.old image.old (settings turns notches rundown ticks steps) places.old) }
{
    let tried = Settings {
        turns,
        notches,
        rundown,
        ticks,
        steps,
    };
    pack(winder::wind(memory, image, tried, places))
}

// The records on in the busiest window of so many ticks; the records are read alone.
pub fn tac_busiest(records: &[u8], width: u32) -> u64
    ensures { called result records.now ≡ def.packed_call (busiest_call records.now width) }
{
    pack(load::busiest(records, width))
}
