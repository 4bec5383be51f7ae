// errors.rs: its macro, and why reading stops.
ghost use Rattle.std.specs.Prelude.{◌≡◌};
ghost use Rattle.syntax.specs.Errors.{fault_at};
ghost use Rattle.entry.specs.declared.errors.Stop.TheVariants.{Error};

use crate::source::Source;
use syntax::errors::{ErrorKind, ParserError};

// An error, or an opening that nests too deep. The source then stands where reading stopped: at that opening, if it is one.
#[derive(Drop)]
pub enum Stop {
    Error(ParserError),
    TooDeep,
}

impl Source<'_> {
    // An error whose position is the one byte here.
    pub(crate) fn error<T>(self, kind: ErrorKind) -> Result<T, Stop>
        ensures { result ≡ Err (Error (fault_at kind self.entry.ptr)) }
    {
        Err(Stop::Error(ParserError {
            start: self.ptr as u32,
            end: self.ptr as u32 + 1,
            kind,
        }))
    }
}
