// What the reader over a borrowed source answers, call by call. The definition Next in specs/ gives the value of each case, and
// says which answer is right.
ghost use Rattle.std.specs.Prelude.{◌≡◌};
ghost use Rattle.syntax.specs.Next.{value_of};

use crate::answer::Refusal;

// An entry's start, and where its reading stopped.
#[derive(Clone, Copy, Debug, PartialEq, Eq)]
pub struct Extent {
    pub start: usize,
    pub stop: usize,
}

// The next entry, if one is left; or that the tree that was lent is too short to read it, with the words needed.
pub type Next = Result<Option<Extent>, Refusal>;

// The value that comes with an answer for a source of this length: an entry's start, the end if none is left, or the words needed.
pub fn value(next: Next, length: usize) -> u64
    ensures { result ≡ value_of length next }
{
    match next {
        Ok(Some(extent)) => extent.start as u64,
        Ok(None) => length as u64,
        Err(refusal) => refusal.value(),
    }
}
