// pattern.rs: patterns. The common indent is known only where a pattern ends. Until then a text at the start of a line is marked
// from the line's start on, by a kind of its own; at the end the marks are settled. get_pattern itself stands in expression.rt.
ghost use Rattle.syntax.specs.Limits.{max_length};
ghost use Rattle.std.specs.Prelude.{◌≡◌, ◌+◌, ◌-◌, ◌<◌, ◌≤◌, min, false, length, drop};
ghost use Rattle.syntax.specs.Byte as Byte;
ghost use Rattle.syntax.specs.Bytes.{starts_with, spaces};
ghost use Rattle.syntax.specs.Pattern.{goes_on, get_text_slice, trimmed, with_text, text_turn};
ghost use Rattle.entry.specs.Marks.{Holds};
ghost use Rattle.entry.specs.Tree.{marks_in};
ghost use Rattle.entry.specs.Settle.{is_trimmed, NoLines, Settled, Trimmable, Trimmed};
ghost use Rattle.entry.specs.Reads.{rest, Room};
ghost use Rattle.entry.specs.Slice.{width_of};
ghost use Rattle.entry.specs.Texts.{starts_line, is_part, least_of, lines_of, after_placeable, standing, stands, Started, Ready};
ghost use Rattle.entry.specs.Texts.{Texted, Turns, in_pattern, Ends, Ended};

use crate::errors::Stop;
use crate::helper::is_byte_pattern_continuation;
use crate::marks::Marks;
use crate::parser::Parser;
use crate::source::Source;
use crate::text::{TextElementPosition, TextElementTermination, TextSlice, get_text_slice};
use syntax::errors::ErrorKind;
use syntax::kind::Kind;
use syntax::layout::SIZES;

// What is known while a pattern is read: where the next text stands; the count of marks through the last element that is not blank;
// the common indent; the count of marks through the last text at the start of a line, behind which none has to be settled.
#[derive(Clone, Copy)]
pub struct Reading {
    pub role: TextElementPosition,
    pub last_non_blank: Option<usize>,
    pub common_indent: Option<usize>,
    pub lines: usize,
}

impl Reading {
    // After a placeable, which ends after n marks.
    pub fn with_placeable(self, n: usize) -> Self
        ensures { result ≡ after_placeable self n }
    {
        Reading {
            role: TextElementPosition::Continuation,
            last_non_blank: Some(n),
            common_indent: least_indent(self.role, 0, self.common_indent),
            ..self
        }
    }
}

// The kind, until its pattern ends, of the mark that opens a text at the start of a line.
const LINE_START: u32 = 200;

// The common indent after a line's first element, which has this indent.
fn least_indent(role: TextElementPosition, indent: usize, common: Option<usize>) -> Option<usize>
    ensures { result ≡ least_of (starts_line role) indent common }
{
    if role != TextElementPosition::LineStart {
        return common;
    }
    Some(common.map_or(indent, |least| least.min(indent)))
}

// The count of marks through the last text at the start of a line, after one that ends after n marks.
fn lines_with(role: TextElementPosition, n: usize, lines: usize) -> usize
    ensures { result ≡ lines_of (starts_line role) n lines }
{
    if role == TextElementPosition::LineStart {
        n
    } else {
        lines
    }
}

// Whether a text is an element of its pattern.
fn is_element(role: TextElementPosition, slice: TextSlice) -> bool
    ensures { result ≡ is_part (starts_line role) slice }
{
    slice.size != 0
        && (role != TextElementPosition::LineStart
            || (!slice.blank || slice.ending == TextElementTermination::LineFeed))
}

// Whether a line goes on with the pattern, by its indent and the byte after it.
fn goes_on(indent: usize, b: u8) -> bool
    ensures { result ≡ goes_on indent b }
{
    if indent == 0 {
        return b == b'\r' || b == b'\n';
    }
    is_byte_pattern_continuation(b)
}

// How many spaces stand at a place; those past `most` don't count.
fn indent(bytes: &[u8], at: usize, most: usize) -> usize
    ensures { result ≡ min (spaces (drop at bytes.now)) most }
{
    let Some(rest) = bytes.get(at..) else {
        return 0;
    };
    rest.iter().take(most).take_while(|&&b| b == b' ').count()
}

fn is_trimmed(b: u8) -> bool
    ensures { result ≡ is_trimmed b }
{
    matches!(b, b' ' | b'\r' | b'\n')
}

// How long a text is without the blanks and line ends that it ends with.
fn trimmed_length(text: &[u8]) -> usize
    ensures { result ≡ trimmed text.now }
{
    match text.iter().rposition(|&b| !is_trimmed(b)) {
        Some(last) => last + 1,
        None => 0,
    }
}

impl Source<'_> {
    // To the first text or placeable of a pattern: on the line, or on a line of its own after blank lines.
    pub(crate) fn start_pattern(&mut self) -> Reading
        ensures { Started self.old self.new result }
    {
        self.skip_blank_inline();
        let role = if self.skip_eol() {
            self.skip_blank_block();
            TextElementPosition::LineStart
        } else {
            TextElementPosition::InitialLineStart
        };
        Reading {
            role,
            last_non_blank: None,
            common_indent: None,
            lines: 0,
        }
    }
}

impl Marks<'_> {
    // Each text that starts a line, among the marks from `from` on, loses the common indent. From `to` on there is none.
    fn settle(&mut self, source: &[u8], from: usize, to: usize, common: usize)
        requires from_le_count { from ≤ self.old.count }
        requires room { Holds self.old 0 }
        requires short { length source.now ≤ max_length }
        requires none_after { NoLines (drop (to - from) (drop from (marks_in self.old.capacity self.old.count self.old.words.now))) }
        ensures { Settled source.now from common self.old self.new }
    {
        let places = SIZES + self.capacity;
        let words = &mut *self.words;
        // By index: over both arrays by `iter_mut` and `zip` the proof did not close, since nothing is known of what these leave.
        for i in from..to.min(self.count) {
            if words[SIZES + i] == LINE_START {
                let start = words[places + i] as usize;
                words[SIZES + i] = Kind::Text.number();
                words[places + i] = (start + indent(source, start, common)) as u32;
            }
        }
    }
}

impl Parser<'_, '_, '_> {
    // If the last two marks are a text's, the text is trimmed.
    fn trim(&mut self)
        requires { Trimmable self.old }
        ensures same { self.new.tree.ghost_name ≡ self.old.tree.ghost_name }
        ensures reads { Trimmed self.old self.new }
    {
        let last = self.tree.count - 1;
        if self.tree.kind(last) == Kind::Text.closing() {
            let start = self.tree.place(last - 1);
            let end = self.tree.place(last);
            let length = trimmed_length(&self.source.bytes[start..end]);
            self.tree.words[SIZES + self.tree.capacity + last] = (start + length) as u32;
        }
    }

    // The state after a text, which follows an indent from `start` on, with its marks if it is an element of the pattern.
    fn with_text(&mut self, st: Reading, start: usize, slice: TextSlice) -> Reading
        requires order { start ≤ self.old.source.ptr }
        requires within { self.old.source.ptr + width_of slice ≤ length self.old.source.bytes.now }
        requires room { Holds self.old.tree.now 2 }
        ensures same { self.new.tree.ghost_name ≡ self.old.tree.ghost_name }
        ensures reads { Texted st start slice self.old self.new result }
    {
        let indent = self.source.ptr - start;
        let end = self.source.ptr + slice.size;
        self.source.ptr = end + slice.ending.crlf_width();
        let role = slice.ending.next_position();
        if !is_element(st.role, slice) {
            return Reading { role, ..st };
        }
        let opening = if st.role == TextElementPosition::LineStart {
            LINE_START
        } else {
            Kind::Text.number()
        };
        self.tree.put(opening, start);
        self.tree.close_at(Kind::Text, end);
        let lines = lines_with(st.role, self.tree.count, st.lines);
        if slice.blank {
            return Reading { role, lines, ..st };
        }
        Reading {
            role,
            last_non_blank: Some(self.tree.count),
            common_indent: least_indent(st.role, indent, st.common_indent),
            lines,
        }
    }

    // A text, which follows an indent from `start` on.
    fn get_text(&mut self, st: Reading, start: usize) -> Result<Reading, Stop>
        requires { Ready self.old st start }
        ensures same { self.new.tree.ghost_name ≡ self.old.tree.ghost_name }
        ensures reads { Turns (standing start self.old.tree.now.count st) self.old self.new
            (λ d. with_text d (self.old.source.ptr - start) (get_text_slice (rest self.old.source)))
            (in_pattern result) }
    {
        match get_text_slice(&self.source.bytes[self.source.ptr..]) {
            Ok(slice) => Ok(self.with_text(st, start, slice)),
            Err(length) => {
                self.source.ptr += length;
                self.source.error(ErrorKind::UnbalancedClosingBrace)
            }
        }
    }

    // What stands at a place of a pattern where no placeable starts: a text, or the pattern's end.
    pub(crate) fn text_turn(&mut self, st: Reading) -> Result<Option<Reading>, Stop>
        requires room { Room self.old 1 }
        requires inside { self.old.source.ptr < length self.old.source.bytes.now }
        requires no_brace { starts_with Byte.open_brace (rest self.old.source) ≡ false }
        ensures same { self.new.tree.ghost_name ≡ self.old.tree.ghost_name }
        ensures reads { Turns (stands self.old st) self.old self.new (λ d. text_turn d (rest self.old.source)) result }
    {
        let start = self.source.ptr;
        if st.role == TextElementPosition::LineStart {
            let indent = self.source.skip_blank_inline();
            let Some(&b) = self.source.bytes.get(self.source.ptr) else {
                return Ok(None);
            };
            if !goes_on(indent, b) {
                self.source.ptr = start;
                return Ok(None);
            }
        }
        Ok(Some(self.get_text(st, start)?))
    }

    // The pattern ends, whose opening mark is the one after `before` marks. Its marks through the last element that is not blank are
    // settled; without such an element there is no pattern.
    pub(crate) fn end_pattern(&mut self, st: Reading, before: usize) -> bool
        requires { Ends before self.old st }
        ensures same { self.new.tree.ghost_name ≡ self.old.tree.ghost_name }
        ensures reads { Ended before self.old self.new st result }
    {
        let Some(last) = st.last_non_blank else {
            self.tree.count = before;
            return false;
        };
        self.tree.count = last;
        let source = self.source.bytes;
        let common = st.common_indent.unwrap_or(source.len());
        self.tree.settle(source, before + 1, st.lines, common);
        self.trim();
        self.tree.close(Kind::Pattern);
        true
    }
}
