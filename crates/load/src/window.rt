// Windows of a run of records, and the records on in them.
ghost use Rattle.std.specs.Prelude.{◌≡◌};
ghost use Rattle.load.specs.Load as def;

// Records on, by ones.
fn on(tick: u8) -> usize
    ensures { result ≡ def.on_of tick }
{
    usize::from(tick == 1)
}

// Records on. By `filter` and `count` they take two to eight times as long.
fn load_of(records: &[u8]) -> usize
    ensures { result ≡ def.load_of records.now }
{
    let mut load = 0;
    for tick in records {
        load += on(*tick);
    }
    load
}

// The records on in the busiest window: the first one, moved on record by record.
pub fn busiest_load(records: &[u8], width: usize) -> usize
    ensures { result ≡ def.busiest_of records.now width }
{
    let filled = width.min(records.len());
    let mut load = load_of(&records[..filled]);
    let mut most = load;
    // A zip of the records that enter and those that leave takes a quarter more time.
    for (start, enters) in records[filled..].iter().enumerate() {
        load = load + on(*enters) - on(records[start]);
        most = most.max(load);
    }
    most
}
