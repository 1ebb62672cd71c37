// Pending lines: bit n is interrupt n.
ghost use Rattle.std.specs.Prelude.{◌≡◌};
ghost use Rattle.status.specs.Pending as def;

// The lines without one of them.
pub fn without(lines: u16, line: u8) -> u16
    ensures { result ≡ def.without lines line }
{
    if line < 16 {
        lines.saturating_sub(1 << line)
    } else {
        0
    }
}
