// Bytes and numbers as text. `Display` and `write!` can't take their place: no contract says which bytes those print, and what `listing::write_listing`
// promises, and the theorems of `lines`, are about each byte.
#![tactic(auto)]

ghost use Rattle.std.specs.Prelude.{[], ◌∷◌, ◌≡◌, ◌<◌, ◌≤◌, length};
ghost use Rattle.text.specs.Text as def;

// Writes to a buffer, piece behind piece, and cuts the text where the buffer ends.
#[derive(Drop)]
pub struct Writer<'a> {
    text: &'a mut [u8],
    at: usize,
    ghost inside: { at ≤ length text.now },
}

impl<'a> Writer<'a> {
    ghost use Rattle.text.specs.Writer.{Wrote};

    // A writer from `at` on.
    pub fn new(text: &'a mut [u8], at: usize) -> Writer<'a>
        requires { at ≤ length text.old }
        ensures same { result.text.ghost_name ≡ text.entry.ghost_name }
        ensures text { result.text.now ≡ text.old }
        ensures at { result.at ≡ at }
    {
        Writer { text, at }
    }

    // Where the next byte goes.
    pub fn position(&self) -> usize
        ensures { result ≡ self.now.at }
    {
        self.at
    }

    // A byte, where there is room for it.
    pub fn put(&mut self, b: u8)
        ensures { Wrote self.old self.new (b ∷ []) }
    {
        if self.at < self.text.len() {
            self.text[self.at] = b;
            self.at += 1;
        }
    }

    // Bytes, as many as there is room for.
    pub fn put_text(&mut self, bytes: &[u8])
        ensures { Wrote self.old self.new bytes.now }
    {
        for b in bytes {
            self.put(*b);
        }
    }

    // The decimal digits of a number that has at most `k`.
    pub fn put_decimal(&mut self, k: usize, n: u64)
        ensures { Wrote self.old self.new (def.decimal_of k n) }
    {
        if k == 0 {
            return;
        }
        if n >= 10 {
            self.put_decimal(k - 1, n / 10);
        }
        self.put(digit((n % 10) as u8));
    }

    // Four hexadecimal digits.
    #[tactic(auto, unfolding(crate::specs::Text::hex_of))]
    pub fn put_hex(&mut self, w: u16)
        ensures { Wrote self.old self.new (def.hex_of w) }
    {
        let digits = [
            digit((w / 4096 % 16) as u8),
            digit((w / 256 % 16) as u8),
            digit((w / 16 % 16) as u8),
            digit((w % 16) as u8),
        ];
        self.put_text(&digits);
    }
}

// `0` to `9`, then `A` to `F`.
fn digit(d: u8) -> u8
    requires { d < 16 }
    ensures { result ≡ def.digit_of d }
{
    if d < 10 { b'0' + d } else { b'A' + (d - 10) }
}
