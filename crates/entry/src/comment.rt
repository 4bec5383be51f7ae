// comment.rs: comments, line by line.
ghost use Rattle.std.specs.Prelude.{◌≡◌, true, not, ◌&&◌, ◌||◌, ◌==◌, nat_eq};
ghost use Rattle.syntax.specs.Comment.{level_of, line_length, line_end_used, get_comment};
ghost use Rattle.entry.specs.Place.{is_eol};
ghost use Rattle.entry.specs.Marks.{Holds};
ghost use Rattle.entry.specs.Line.{LineRead};
ghost use Rattle.entry.specs.Level.{number_if};
ghost use Rattle.entry.specs.Did.{result_by};
ghost use Rattle.entry.specs.Reads.{rest, Passes, Counts, Entered, Reads};
ghost use Rattle.syntax.specs.Byte as Byte;
ghost use Rattle.memchr.specs.Find.{IsFirstByte, is_byte};

use crate::errors::Stop;
use crate::helper::count_while;
use crate::parser::Parser;
use crate::source::Source;
use memchr::memchr;
use syntax::errors::ErrorKind;
use syntax::kind::Kind;

// How many '#' each line of a comment starts with.
#[derive(Clone, Copy, PartialEq, Eq, Debug)]
pub enum Level {
    Regular = 1,
    Group = 2,
    Resource = 3,
}

// A line's end is mostly near: so far it is looked for byte by byte, which takes less time than a call of memchr.
const NEAR: usize = 16;

// Where the first line feed stands.
fn line_feed(rest: &[u8]) -> Option<usize>
    ensures { IsFirstByte (is_byte Byte.line_feed) rest.now result }
{
    let most = NEAR.min(rest.len());
    let near = count_while(&rest[..most], |b| b != b'\n');
    if near < most {
        return Some(near);
    }
    Some(most + memchr(b'\n', &rest[most..])?)
}

// How long a line's text is, which ends before a line feed, before a CRLF, or with the source.
fn line_length(rest: &[u8]) -> usize
    ensures { result ≡ line_length rest.now }
{
    match line_feed(rest) {
        Some(end) if rest[..end].last() == Some(&b'\r') => end - 1,
        Some(end) => end,
        None => rest.len(),
    }
}

impl Source<'_> {
    // Past the '#' here, of which there are three at most.
    fn get_comment_level(&mut self) -> Option<Level>
        ensures { Counts self.old self.new (level_of (rest self.old)) (number_if result) }
    {
        let rest = &self.bytes[self.ptr..];
        let hashes = rest.iter().take(3).take_while(|&&b| b == b'#').count();
        self.ptr += hashes;
        match hashes {
            0 => None,
            1 => Some(Level::Regular),
            2 => Some(Level::Group),
            _ => Some(Level::Resource),
        }
    }

    // To the end of a line's text.
    fn get_comment_line(&mut self)
        ensures { Passes self.old self.new (line_length (rest self.old)) }
    {
        self.ptr += line_length(&self.bytes[self.ptr..]);
    }

    // Past a line's end, whose line feed is left where neither a comment nor the end of the source follows.
    fn skip_line_end(&mut self)
        requires { is_eol (rest self.old) ≡ true }
        ensures { Passes self.old self.new (line_end_used (rest self.old)) }
    {
        self.skip_eol();
        if self.ptr < self.bytes.len() && !self.is_current_byte(b'#') {
            self.ptr -= 1;
        }
    }
}

// Whether a comment ends here: a line of another level is none of its lines. It has no level before its first.
fn is_over(level: Option<Level>, line_level: Option<Level>) -> bool
    ensures { result ≡ (nat_eq (number_if line_level) 0
        || (not (number_if level == 0) && not (nat_eq (number_if line_level) (number_if level)))) }
{
    line_level.is_none() || (level.is_some() && line_level != level)
}

impl Parser<'_, '_, '_> {
    // A line of a comment, after its '#' and the space that follows them. Where it is known to be empty its end stands here. Its marks come
    // last, as those of a name do.
    fn put_comment_line(&mut self, empty: bool)
        requires room { Holds self.old.tree.now 2 }
        requires ends { empty ≡ true → is_eol (rest self.old.source) ≡ true }
        ensures same { self.new.tree.ghost_name ≡ self.old.tree.ghost_name }
        ensures reads { LineRead self.old self.new }
    {
        let start = self.source.ptr;
        if empty {
            self.source.skip_line_end();
            self.tree.text(Kind::CommentLine, start, start);
            return;
        }
        self.source.get_comment_line();
        let end = self.source.ptr;
        self.source.skip_line_end();
        self.tree.text(Kind::CommentLine, start, end);
    }

    // A comment, with a text for each of its lines. Answers its level, none where no '#' stands.
    pub(crate) fn get_comment(&mut self) -> Result<Option<Level>, Stop>
        requires { Entered self.old }
        ensures same { self.new.tree.ghost_name ≡ self.old.tree.ghost_name }
        ensures reads { Reads (λ l. l) self.old self.new (result_by number_if result) (get_comment (rest self.old.source)) }
    {
        let mut level = None;
        loop {
            let start = self.source.ptr;
            let line_level = self.source.get_comment_level();
            if is_over(level, line_level) {
                self.source.ptr = start;
                return Ok(level);
            }
            if self.source.ptr == self.source.bytes.len() {
                return Ok(line_level);
            }
            let empty = self.source.is_eol();
            if !empty && !self.source.take_byte_if(b' ') {
                if level.is_none() {
                    return self.source.error(ErrorKind::ExpectedToken(b' '));
                }
                self.source.ptr = start;
                return Ok(level);
            }
            self.put_comment_line(empty);
            level = line_level;
        }
    }
}
