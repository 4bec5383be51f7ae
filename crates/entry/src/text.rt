// pattern.rs: get_text_slice, which is handed the bytes that remain.
ghost use Rattle.std.specs.Prelude.{◌≡◌, ◌≤◌, ◌==◌, length};
ghost use Rattle.std.specs.List.{list_all};
ghost use Rattle.syntax.specs.Byte as Byte;
ghost use Rattle.syntax.specs.Limits.{max_length};
ghost use Rattle.entry.specs.Slice.{Sliced, slice_as, crlf_width, position_after};

use memchr::memchr3;

// What ended a text.
#[derive(Clone, Copy, PartialEq, Eq, Debug)]
pub enum TextElementTermination {
    LineFeed,
    Crlf,
    PlaceableStart,
    Eof,
}

// Where in its pattern a text stands.
#[derive(Clone, Copy, PartialEq, Eq, Debug)]
pub enum TextElementPosition {
    InitialLineStart,
    LineStart,
    Continuation,
}

// A text that was found: its length, whether it is blank, and what ended it.
#[derive(Clone, Copy)]
pub struct TextSlice {
    pub size: usize,
    pub blank: bool,
    pub ending: TextElementTermination,
}

impl TextElementTermination {
    // Where the text after one that ended so stands.
    pub fn next_position(self) -> TextElementPosition
        ensures { result ≡ position_after self }
    {
        match self {
            TextElementTermination::LineFeed | TextElementTermination::Crlf => {
                TextElementPosition::LineStart
            }
            TextElementTermination::PlaceableStart | TextElementTermination::Eof => {
                TextElementPosition::Continuation
            }
        }
    }

    // At CRLF the carriage return is no part of the text, and is passed with it.
    pub fn crlf_width(self) -> usize
        ensures { result ≡ crlf_width self }
    {
        usize::from(self == TextElementTermination::Crlf)
    }
}

fn is_blank(line: &[u8]) -> bool
    ensures { result ≡ list_all (λ b. b == Byte.space) line.now }
{
    line.iter().all(|&b| b == b' ')
}

// The first `size` bytes, of which those of the text's line are blank or not.
fn slice(line: &[u8], size: usize, ending: TextElementTermination) -> TextSlice
    ensures { result ≡ slice_as size (list_all (λ b. b == Byte.space) line.now) ending }
{
    TextSlice {
        size,
        blank: is_blank(line),
        ending,
    }
}

// A text, or how far it is to a closing brace that stands in it.
pub fn get_text_slice(rest: &[u8]) -> Result<TextSlice, usize>
    requires { length rest.now ≤ max_length }
    ensures { Sliced rest.now result }
{
    let Some(end) = memchr3(b'\n', b'{', b'}', rest) else {
        return Ok(slice(rest, rest.len(), TextElementTermination::Eof));
    };
    let text = &rest[..end];
    match rest[end] {
        b'}' => Err(end),
        b'{' => Ok(slice(text, end, TextElementTermination::PlaceableStart)),
        _ if text.last() == Some(&b'\r') => {
            Ok(slice(&text[..end - 1], end - 1, TextElementTermination::Crlf))
        }
        _ => Ok(slice(text, end + 1, TextElementTermination::LineFeed)),
    }
}
