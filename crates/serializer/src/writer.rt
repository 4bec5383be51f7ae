// The text writer, over the crate output: with no output it tells how long a text is.
ghost use Rattle.std.specs.Prelude.{◌+◌, ◌-◌, ◌*◌, ◌≤◌, ◌<◌, ◌^◌, ◌≡◌, [], ◌∷◌, length, replicate};
ghost use Rattle.syntax.specs.Byte as Byte;
ghost use Rattle.syntax.specs.Bytes.{ascii};
ghost use Rattle.syntax.specs.Serializer.{last_of, literal, newline, star, indent_width, if};
ghost use Rattle.serializer.specs.Writer.{begun, bytes, place_of, Room, HasWritten};

use output::text::Output;

// How many bytes have been written, the last of them, and the indent level. At the start the last is 0, as in the definition: no test asks
// for that byte, and an Option would be opened at every line. The output is lent to each method: what becomes of a slice is not known where
// a struct holds it in another one, and by reference each contract would keep two references.
#[derive(Drop)]
pub struct TextWriter {
    pub at: usize,
    last: u8,
    indent_level: usize,
}

// The last byte after an item.
fn last_of(last: u8, item: &[u8]) -> u8
    ensures { result ≡ last_of last item.now }
{
    item.last().copied().unwrap_or(last)
}

impl TextWriter {
    pub fn new() -> TextWriter
        ensures { place_of result ≡ begun }
    {
        TextWriter {
            at: 0,
            last: 0,
            indent_level: 0,
        }
    }

    pub fn indent(&mut self)
        requires { self.old.indent_level < 2 ^ 63 }
        ensures { self.new ≡ (record self.old { indent_level = self.old.indent_level + 1 }) }
    {
        self.indent_level += 1;
    }

    pub fn dedent(&mut self)
        requires { 1 ≤ self.old.indent_level }
        ensures { self.new ≡ (record self.old { indent_level = self.old.indent_level - 1 }) }
    {
        self.indent_level -= 1;
    }

    fn write_bytes(&mut self, output: &mut [u8], item: &[u8])
        requires { self.old.at + length item.now < 2 ^ 63 }
        ensures { HasWritten output.old output.new self.old self.new (bytes item.now) }
    {
        let mut lent = Output {
            bytes: output,
            at: self.at,
        };
        lent.put_bytes(item);
        self.at = lent.at;
        self.last = last_of(self.last, item);
    }

    fn write_indent(&mut self, output: &mut [u8])
        requires { self.old.at + indent_width * self.old.indent_level < 2 ^ 63 }
        ensures { HasWritten output.old output.new self.old self.new
            (bytes (replicate (indent_width * self.old.indent_level) Byte.space)) }
    {
        if self.indent_level == 0 {
            return;
        }
        let mut lent = Output {
            bytes: output,
            at: self.at,
        };
        lent.put_indent(self.indent_level);
        self.at = lent.at;
        self.last = b' ';
    }

    // The indent, where a line begins.
    fn begin_line(&mut self, output: &mut [u8])
        requires { Room (place_of self.old) (literal []) }
        ensures { HasWritten output.old output.new self.old self.new (literal []) }
    {
        if self.last == b'\n' {
            self.write_indent(output);
        }
    }

    pub fn newline(&mut self, output: &mut [u8])
        requires { Room (place_of self.old) newline }
        ensures { HasWritten output.old output.new self.old self.new newline }
    {
        if self.last == b'\r' {
            // It would be taken for a part of the line end.
            self.write_bytes(output, b"\r");
        }
        self.write_bytes(output, b"\n");
    }

    // Always inlined, since most pieces are short: without it, writing comments of short lines takes a quarter to a third more instructions.
    #[inline(always)]
    pub fn write_literal(&mut self, output: &mut [u8], item: &[u8])
        requires { Room (place_of self.old) (literal item.now) }
        ensures { HasWritten output.old output.new self.old self.new (literal item.now) }
    {
        self.begin_line(output);
        self.write_bytes(output, item);
    }

    // The Rust's write_char_into_indent with '*', after a line end: the last space of the indent is replaced.
    pub fn star(&mut self, output: &mut [u8])
        requires le_indent { 1 ≤ self.old.indent_level }
        requires room { Room (place_of self.old) star }
        ensures { HasWritten output.old output.new self.old self.new star }
    {
        self.write_indent(output);
        self.at -= 1;
        self.write_bytes(output, b"*");
    }
}
