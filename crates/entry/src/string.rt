// The string literal of expression.rs.
ghost use Rattle.std.specs.Prelude.{◌≡◌, true};
ghost use Rattle.syntax.specs.Byte as Byte;
ghost use Rattle.syntax.specs.Bytes.{starts_with};
ghost use Rattle.syntax.specs.Reader.{repeat};
ghost use Rattle.syntax.specs.Expression.{string_turn, string_literal};
ghost use Rattle.entry.specs.Reads.{rest, Finds};
ghost use Rattle.entry.specs.Scan.{Escapes};

use crate::errors::Stop;
use crate::source::Source;
use syntax::errors::ErrorKind;

impl Source<'_> {
    // An escape, whose backslash stands here.
    fn skip_escape(&mut self) -> Result<(), Stop>
        requires { starts_with Byte.backslash (rest self.old) ≡ true }
        ensures { Escapes self.old self.new result }
    {
        let next = self.ptr + 1;
        match self.bytes.get(next).copied() {
            Some(b'\\' | b'{' | b'"') => {
                self.ptr += 2;
                Ok(())
            }
            Some(b'u') => {
                self.ptr += 2;
                self.skip_unicode_escape_sequence(4)
            }
            Some(b'U') => {
                self.ptr += 2;
                self.skip_unicode_escape_sequence(6)
            }
            Some(b) => self.error(ErrorKind::UnknownEscapeSequence(b)),
            None => self.error(ErrorKind::UnknownEscapeSequence(b' ')),
        }
    }

    // A string's text, up to its quote or the end of the source.
    fn skip_string(&mut self) -> Result<(), Stop>
        ensures { Finds self.old self.new (repeat string_turn tt (rest self.old)) result }
    {
        while let Some(b) = self.bytes.get(self.ptr).copied() {
            match b {
                b'\\' => self.skip_escape()?,
                b'"' => break,
                b'\n' => return self.error(ErrorKind::UnterminatedStringLiteral),
                _ => self.ptr += 1,
            }
        }
        Ok(())
    }

    // A string literal, from its opening through its closing quote.
    pub(crate) fn skip_string_literal(&mut self) -> Result<(), Stop>
        ensures { Finds self.old self.new (string_literal (rest self.old)) result }
    {
        self.expect_byte(b'"')?;
        self.skip_string()?;
        self.expect_byte(b'"')
    }
}
