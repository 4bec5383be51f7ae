// The tests for the refusals 1 and 2, with which every call begins that is given a source.
ghost use Rattle.std.specs.Prelude.{◌≤◌, ◌≡◌, length, OnOk};
ghost use Rattle.syntax.specs.Limits.{max_length};
ghost use Rattle.syntax.specs.Tests.{source_refusal, tested_of};
ghost use Rattle.syntax.specs.declared.answer.Refusal.TheVariants.{NotUtf8};

use crate::answer::Refusal;
use crate::limits::MAX_LENGTH;
use utf8::{Utf8Error, check};

impl From<Utf8Error> for Refusal {
    ghost from_gives = { λ error refusal. refusal ≡ NotUtf8 error.valid_up_to };

    fn from(error: Utf8Error) -> Refusal {
        Refusal::NotUtf8(error.valid_up_to as u64)
    }
}

// The refusals 1 and 2 of a source, tested in this order.
pub fn test_source(source: &[u8]) -> Result<(), Refusal>
    ensures tested { result ≡ tested_of (source_refusal source.now) }
    ensures short { OnOk result (length source.now ≤ max_length) }
{
    let length = source.len();
    if MAX_LENGTH < length {
        return Err(Refusal::TooLong(length as u64));
    }
    check(source)?;
    Ok(())
}
