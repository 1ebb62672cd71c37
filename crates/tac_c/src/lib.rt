// The calls of `tac`, exported for C under the same names and with the same clauses: a crate is a library for others or one for C, not both.
#![tactic(auto)]

ghost use Rattle.std.specs.Prelude.{◌≡◌};
ghost use Rattle.call.specs.Call.{buffers, called};
ghost use Rattle.card.specs.Call.{card_call};
ghost use Rattle.direct.specs.Call.{run_call};
ghost use Rattle.load.specs.Call.{busiest_call};
ghost use Rattle.look.specs.Call.{fault_call};
ghost use Rattle.view.specs.Call.{view_call};
ghost use Rattle.winder.specs.Call.{lent, settings, wind_call};
ghost use Rattle.tac.specs.Packed as def;

// A run of at most `allowance` steps.
#[unsafe(no_mangle)]
pub extern "C" fn tac_run(
    memory: &mut [u8],
    image: &mut [u8],
    allowance: u16,
    report: &mut [u8],
) -> u64
    ensures { called result (buffers memory.new image.new report.new) ≡ def.packed_call (run_call memory.old image.old allowance report.old) }
{
    tac::tac_run(memory, image, allowance, report)
}

// A bench card.
#[unsafe(no_mangle)]
pub extern "C" fn tac_card(
    memory: &mut [u8],
    image: &mut [u8],
    card: &[u8],
    report: &mut [u8],
) -> u64
    ensures { called result (buffers memory.new image.new report.new) ≡ def.packed_call (card_call memory.old image.old card.now report.old) }
{
    tac::tac_card(memory, image, card, report)
}

// The report of a run of no step; memory and image are read alone.
#[unsafe(no_mangle)]
pub extern "C" fn tac_view(memory: &[u8], image: &[u8], report: &mut [u8]) -> u64
    ensures { called result (buffers memory.now image.now report.new) ≡ def.packed_call (view_call memory.now image.now report.old) }
{
    tac::tac_view(memory, image, report)
}

// A look at the fault record; the image is read alone.
#[unsafe(no_mangle)]
pub extern "C" fn tac_fault(image: &[u8]) -> u64
    ensures { called result image.now ≡ def.packed_call (fault_call image.now) }
{
    tac::tac_fault(image)
}

// A simulation of the winder.
#[unsafe(no_mangle)]
pub extern "C" fn tac_wind(
    memory: &mut [u8],
    image: &mut [u8],
    turns: u32,
    notches: u32,
    rundown: u32,
    ticks: u32,
    steps: u32,
    places: &mut [u8],
) -> u64
    ensures { called result (lent memory.new image.new places.new) ≡ def.packed_call (wind_call memory.old image.old (settings turns notches rundown ticks steps) places.old) }
{
    tac::tac_wind(memory, image, turns, notches, rundown, ticks, steps, places)
}

// The records on in the busiest window of so many ticks; the records are read alone.
#[unsafe(no_mangle)]
pub extern "C" fn tac_busiest(records: &[u8], width: u32) -> u64
    ensures { called result records.now ≡ def.packed_call (busiest_call records.now width) }
{
    tac::tac_busiest(records, width)
}
