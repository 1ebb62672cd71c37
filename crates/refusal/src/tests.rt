// A test, and the number of a cause.
ghost use Rattle.std.specs.Prelude.{◌≡◌};
ghost use Rattle.refusal.specs.Refusal as def;

use crate::{Cause, Refusal, Validity};

// The cause's number.
impl From<Cause> for u8 {
    ghost from_gives = { λ c n. n ≡ def.cause_number c };

    fn from(cause: Cause) -> u8 {
        cause as u8
    }
}

// Refused, P being 0.
pub fn refused(cause: Cause) -> Validity
    ensures { result ≡ def.refused cause 0 }
{
    Err(Refusal { cause, place: 0 })
}

// Good, or refused with P 0.
pub fn good_if(good: bool, cause: Cause) -> Validity
    ensures { result ≡ def.good_if good cause }
{
    if good { Ok(()) } else { refused(cause) }
}

// Whether x is from low to high, both included.
pub fn between(low: u32, high: u32, x: u32) -> bool
    ensures { result ≡ def.between low high x }
{
    (low..=high).contains(&x)
}
