// Sums and differences that wrap at 65,536.
ghost use Rattle.std.specs.Prelude.{◌≡◌};
ghost use Rattle.word.specs.Word as word;

pub fn plus(a: u16, b: u16) -> u16
    ensures { result ≡ word.plus a b }
{
    a.wrapping_add(b)
}

pub fn minus(a: u16, b: u16) -> u16
    ensures { result ≡ word.minus a b }
{
    a.wrapping_sub(b)
}
