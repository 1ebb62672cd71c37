// Words and four-bit fields as signed numbers, by arithmetic alone: `cast_signed` and `cast_unsigned` of std branch by the sign.
ghost use Rattle.std.specs.Prelude.{◌≡◌};
ghost use Rattle.word.specs.Signed.{signed, signed4, word};

// The signed number that has the bits of `w`: 65,536 less where the uppermost of them is set.
pub fn to_signed(w: u16) -> i16
    ensures { result ≡ signed w }
{
    let top = (w / 32768) as i32;
    (w as i32 - top * 65536) as i16
}

// The word that has the bits of `x`: x modulo 65,536.
pub fn to_word(x: i16) -> u16
    ensures { result ≡ word x }
{
    ((x as i32 + 65536) % 65536) as u16
}

// The lowest four bits of `field` as a signed number, -8 to 7: 16 less where the uppermost of them is set.
#[tactic(auto, unfolding(crate::specs::Signed::signed4))]
pub fn sign_extend(field: u16) -> i16
    ensures { result ≡ signed4 field }
{
    let bits = (field % 16) as i16;
    bits - bits / 8 * 16
}
