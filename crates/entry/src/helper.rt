// helper.rs: what stands at a place of a source, and moves over it.
ghost use Rattle.std.specs.Prelude.{◌≡◌, ◌≤◌, ◌||◌, length, drop, ◌==◌};
ghost use Rattle.syntax.specs.Byte as Byte;
ghost use Rattle.utf8.specs.Utf8.{width_of_first};
ghost use Rattle.syntax.specs.Bytes.{starts_with, starts, eol, run, all, is_letter, is_digit, is_name_part, is_callee_part};
ghost use Rattle.syntax.specs.Helper.{take_byte_if, skip_blank, skip_blank_block, expect_byte, skip_digits, skip_eol, skip_blank_inline};
ghost use Rattle.syntax.specs.Helper.{number, skip_unicode_escape_sequence};
ghost use Rattle.syntax.specs.Pattern.{is_continuation};
ghost use Rattle.entry.specs.Place.{Tests, Starting, Counted, Went, is_eol};
ghost use Rattle.entry.specs.Entry.{identifier};
ghost use Rattle.entry.specs.Reads.{rest, Passes, Skips, Goes, Finds};

use crate::border::BlankBlock;
use crate::bytes::{is_callee_part, is_name_part, is_number_byte, is_space};
use crate::errors::Stop;
use crate::source::Source;
use syntax::errors::{CharRange, ErrorKind};

// The first bytes of characters of two, three and four bytes follow these.
const LAST_OF_ONE: u8 = 0x7F;

const LAST_OF_TWO: u8 = 0xDF;

const LAST_OF_THREE: u8 = 0xEF;

// How many bytes a character takes, by its first byte.
#[tactic(auto, unfolding(utf8::specs::Utf8::width_of_first))]
fn width(first: u8) -> usize
    ensures { result ≡ width_of_first first }
{
    match first {
        ..=LAST_OF_ONE => 1,
        ..=LAST_OF_TWO => 2,
        ..=LAST_OF_THREE => 3,
        _ => 4,
    }
}

#[tactic(auto, unfolding(syntax::specs::Pattern::is_continuation))]
pub fn is_byte_pattern_continuation(b: u8) -> bool
    ensures { result ≡ is_continuation b }
{
    !matches!(b, b'.' | b'}' | b'[' | b'*')
}

// Whether each byte of a name may stand in a callee.
pub fn is_callee(name: &[u8]) -> bool
    ensures { result ≡ all is_callee_part name.now }
{
    name.iter().all(|&b| is_callee_part(b))
}

// How many bytes at the start pass a test.
pub(crate) fn count_while<F: Fn(u8) -> bool>(bytes: &[u8], test: F) -> usize
    requires { F.IsAlwaysCallable test }
    ensures { Counted (F.post test) bytes.now result }
{
    bytes.iter().position(|&b| !test(b)).unwrap_or(bytes.len())
}

// Whether this byte stands at a place.
fn is_byte_at(source: &[u8], at: usize, b: u8) -> bool
    ensures { Tests (starts_with b) source.now at result }
{
    source.get(at).is_some_and(|&x| x == b)
}

// How long the line end is that stands at a place, 0 where none does. By place, and no Option: over a slice of what is left blank lines
// took half as long again.
fn eol_width(source: &[u8], at: usize) -> usize
    requires { at ≤ length source.now }
    ensures { result ≡ eol (drop at source.now) }
{
    if is_byte_at(source, at, b'\n') {
        return 1;
    }
    if !is_byte_at(source, at, b'\r') {
        return 0;
    }
    if is_byte_at(source, at + 1, b'\n') {
        2
    } else {
        0
    }
}

// Past blank lines, in a source of any length.
pub(crate) fn blank_block(source: &[u8], at: usize) -> BlankBlock
    requires { at ≤ length source.now }
    ensures { Went source.now at (skip_blank_block (drop at source.now)) result.count result.end }
{
    let mut end = at;
    let mut next = at;
    let mut count = 0;
    loop {
        if is_byte_at(source, next, b' ') {
            next += 1;
            continue;
        }
        let n = eol_width(source, next);
        if n == 0 {
            return BlankBlock { end, count };
        }
        next += n;
        end = next;
        count += 1;
    }
}

impl Source<'_> {
    // Whether a byte stands here that passes a test.
    pub(crate) fn starts<F: Fn(u8) -> bool>(self, test: F) -> bool
        requires { F.IsAlwaysCallable test }
        ensures { Starting (F.post test) (rest self.entry) result }
    {
        self.bytes.get(self.ptr).is_some_and(|&b| test(b))
    }

    pub(crate) fn is_current_byte(self, b: u8) -> bool
        ensures { Tests (starts_with b) self.entry.bytes.now self.entry.ptr result }
    {
        self.starts(|c| c == b)
    }

    pub(crate) fn is_identifier_start(self) -> bool
        ensures { Tests (starts is_letter) self.entry.bytes.now self.entry.ptr result }
    {
        self.starts(|b| b.is_ascii_alphabetic())
    }

    pub(crate) fn is_number_start(self) -> bool
        ensures { Tests (starts (λ b. is_digit b || b == Byte.minus)) self.entry.bytes.now self.entry.ptr result }
    {
        self.starts(is_number_byte)
    }

    pub(crate) fn take_byte_if(&mut self, b: u8) -> bool
        ensures { Goes self.old self.new (take_byte_if b (rest self.old)) result }
    {
        if self.is_current_byte(b) {
            self.ptr += 1;
            true
        } else {
            false
        }
    }

    pub(crate) fn skip_eol(&mut self) -> bool
        ensures { Goes self.old self.new (skip_eol (rest self.old)) result }
    {
        let n = eol_width(self.bytes, self.ptr);
        self.ptr += n;
        0 < n
    }

    // Whether a line ends here, by a line end or with the source.
    pub(crate) fn is_eol(mut self) -> bool
        ensures { result ≡ is_eol (rest self.entry) }
    {
        self.ptr == self.bytes.len() || self.skip_eol()
    }

    pub(crate) fn expect_byte(&mut self, b: u8) -> Result<(), Stop>
        ensures { Finds self.old self.new (expect_byte b (rest self.old)) result }
    {
        if !self.is_current_byte(b) {
            return self.error(ErrorKind::ExpectedToken(b));
        }
        self.ptr += 1;
        Ok(())
    }

    // Past the bytes that pass a test. Answers how many.
    fn skip_while<F: Fn(u8) -> bool>(&mut self, test: F) -> usize
        requires { F.IsAlwaysCallable test }
        ensures { Skips (F.post test) self.old self.new result }
    {
        let n = count_while(&self.bytes[self.ptr..], test);
        self.ptr += n;
        n
    }

    pub(crate) fn skip_blank_inline(&mut self) -> usize
        ensures { Goes self.old self.new (skip_blank_inline (rest self.old)) result }
    {
        self.skip_while(is_space)
    }

    pub(crate) fn skip_blank(&mut self)
        ensures { Goes self.old self.new (skip_blank (rest self.old)) tt }
    {
        let mut ptr = self.ptr;
        loop {
            if is_byte_at(self.bytes, ptr, b' ') {
                ptr += 1;
                continue;
            }
            let n = eol_width(self.bytes, ptr);
            if n == 0 {
                break;
            }
            ptr += n;
        }
        self.ptr = ptr;
    }

    // Answers how many line ends it passed.
    pub fn skip_blank_block(&mut self) -> usize
        ensures { Goes self.old self.new (skip_blank_block (rest self.old)) result }
    {
        let block = blank_block(self.bytes, self.ptr);
        self.ptr = block.end;
        block.count
    }

    pub(crate) fn skip_digits(&mut self) -> Result<(), Stop>
        ensures { Finds self.old self.new (skip_digits (rest self.old)) result }
    {
        if self.skip_while(|b| b.is_ascii_digit()) == 0 {
            return self.error(ErrorKind::ExpectedCharRange(CharRange::Digits));
        }
        Ok(())
    }

    // The number of get_number_literal.
    pub(crate) fn skip_number(&mut self) -> Result<(), Stop>
        ensures { Finds self.old self.new (number (rest self.old)) result }
    {
        self.take_byte_if(b'-');
        self.skip_digits()?;
        if self.take_byte_if(b'.') {
            self.skip_digits()?;
        }
        Ok(())
    }

    // Past bytes that may stand in an identifier.
    pub(crate) fn skip_name(&mut self)
        ensures { Passes self.old self.new (run is_name_part (rest self.old)) }
    {
        self.skip_while(is_name_part);
    }

    // Past the bytes of get_identifier.
    pub(crate) fn skip_identifier(&mut self) -> Result<(), Stop>
        ensures { Finds self.old self.new (identifier (rest self.old)) result }
    {
        if !self.is_identifier_start() {
            return self.error(ErrorKind::ExpectedCharRange(CharRange::Letters));
        }
        self.ptr += 1;
        self.skip_name();
        Ok(())
    }

    pub(crate) fn skip_unicode_escape_sequence(&mut self, length: usize) -> Result<(), Stop>
        ensures { Finds self.old self.new (skip_unicode_escape_sequence length (rest self.old)) result }
    {
        let start = self.ptr;
        let rest = &self.bytes[start..];
        // By `count_while`, since `skip_while` knows no limit.
        let n = count_while(&rest[..length.min(rest.len())], |b| b.is_ascii_hexdigit());
        self.ptr += n;
        if n == length {
            return Ok(());
        }
        let wrong = self.bytes.get(self.ptr).map_or(0, |&b| width(b));
        let end = self.ptr + wrong;
        self.error(ErrorKind::InvalidUnicodeEscapeSequence(start as u32, end as u32))
    }
}
