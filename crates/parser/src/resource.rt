// core.rs: a file, entry by entry.
ghost use Rattle.std.specs.Prelude.{◌+◌, ◌*◌, ◌<◌, ◌≤◌, ◌≡◌, [], ◌∷◌, length};
ghost use Rattle.syntax.specs.Kind.{number_of};
ghost use Rattle.syntax.specs.Core as Core;
ghost use Rattle.syntax.specs.Limits.{max_open};
ghost use Rattle.entry.specs.Level.{number};
ghost use Rattle.parser.specs.Call.{Sized, DidParse};
ghost use Rattle.parser.specs.Resource.{regular, Attachable, joined, Holds, Closable, Closed, EntryClosed};
ghost use Rattle.parser.specs.Resource.{past, Same, Troubled, Junked, Held, Turned};

use crate::junk::skip_to_next_entry_start;
use crate::marks::get_entry;
use entry::border::{Entry, Level, Stop, skip_blank_lines};
use syntax::errors::ParserError;
use syntax::kind::Kind;
use syntax::layout::SIZES;
use syntax::limits::MAX_OPEN;

// How many marks and errors were read.
#[derive(Clone, Copy, Debug, PartialEq, Eq)]
pub struct Counts {
    pub marks: usize,
    pub errors: usize,
}

// A file that is read up to a place: its marks and errors so far stand in the lent slices.
#[derive(Drop)]
pub struct Resource<'s, 't> {
    pub source: &'s [u8],
    pub tree: &'t mut [u32],
    pub errors: &'t mut [u32],
    pub at: usize,
    pub marks: usize,
    pub error_count: usize,
    // Where the opening mark stands of the comment that is attached if a message or a term comes next.
    pub comment: Option<usize>,
}

// A comment before which n marks stand, if it is a regular one.
#[tactic(auto, unfolding(crate::specs::Resource::regular))]
fn last_comment(level: Level, n: usize) -> Option<usize>
    ensures { result ≡ regular (number level) n }
{
    (level == Level::Regular).then_some(n)
}

// The kind of a comment of a level that is not attached.
fn comment_kind(level: Level) -> Kind
    ensures { number_of result ≡ 2 + number level }
{
    match level {
        Level::Regular => Kind::Comment,
        Level::Group => Kind::GroupComment,
        Level::Resource => Kind::ResourceComment,
    }
}

impl Resource<'_, '_> {
    // Attaches the last comment, which n marks end: its opening and its closing mark change their kinds.
    fn attach_comment(&mut self, n: usize)
        requires { Attachable self.old.tree.now self.old.comment n }
        ensures { self.new ≡ joined n self.old }
    {
        if let Some(i) = self.comment.take() {
            self.tree[SIZES + i] = Kind::AttachedComment.number();
            self.tree[SIZES + (n - 1)] = Kind::AttachedComment.closing();
        }
    }

    // Gives the entry that the n-th mark opens its kind, and closes it.
    fn close(&mut self, n: usize, kind: Kind)
        requires room { Holds self.old 1 }
        requires n_lt_marks { n < self.old.marks }
        ensures { Closed n (number_of kind) self.old.comment self.old.tree.now self.old self.new }
    {
        self.tree[SIZES + n] = kind.number();
        self.put(kind.closing(), 0);
    }

    // Closes an entry: the last comment is attached to a message or a term.
    fn close_entry(&mut self, n: usize, entry: Entry)
        requires { Closable n self.old }
        ensures { EntryClosed entry n self.old self.new }
    {
        match entry {
            Entry::Message => {
                self.attach_comment(n);
                self.close(n, Kind::Message);
            }
            Entry::Term => {
                self.attach_comment(n);
                self.close(n, Kind::Term);
            }
            Entry::Comment(level) => {
                self.comment = last_comment(level, n);
                self.close(n, comment_kind(level));
            }
        }
    }

    // Junk, from here through to the next entry, and its error. Reading stopped at k.
    fn put_junk(&mut self, e: ParserError, k: usize)
        requires { Troubled self.old k }
        ensures { Junked e k self.old self.new }
    {
        let start = self.at;
        let end = skip_to_next_entry_start(self.source, k);
        self.put(Kind::Junk.number(), start);
        self.put(Kind::Junk.closing(), end);
        self.put_error(e, start, end);
        self.at = end;
        self.comment = None;
    }

    // An entry, or junk; or the place of an opening that nests too deep.
    fn parse_entry(&mut self) -> Result<(), usize>
        requires held { Held self.old.source.now self.old }
        requires at_in_bounds { self.old.at < length self.old.source.now }
        ensures same { Same self.old self.new }
        ensures turned { Turned self.old.source.now self.old self.new result }
    {
        let entry_start = self.at;
        let n = self.marks;
        self.put(Kind::Message.number(), 0);
        let read = get_entry(self.source, entry_start, MAX_OPEN, self.tree, self.marks);
        match read.entry {
            Ok(entry) => {
                self.at = read.at;
                self.marks = read.marks;
                self.close_entry(n, entry);
                Ok(())
            }
            Err(Stop::Error(e)) => {
                self.marks = n;
                self.put_junk(e, read.at);
                Ok(())
            }
            Err(Stop::TooDeep) => Err(read.at),
        }
    }

    // Past blank lines. A comment after which there are two line ends is not attached.
    fn skip_blank_block(&mut self)
        ensures { self.new ≡ past self.old }
    {
        let block = skip_blank_lines(self.source, self.at);
        self.at = block.end;
        if 2 <= block.count {
            self.comment = None;
        }
    }
}

// A file: its entries, and junk where one cannot be read. It ends at an opening that nests too deep, and answers its place.
pub fn parse(source: &[u8], tree: &mut [u32], errors: &mut [u32]) -> Result<Counts, usize>
    requires { Sized source.now tree.old errors.old }
    ensures { DidParse source.now tree.old tree.new errors.old errors.new result
        (Core.parse max_open source.now) }
{
    let mut resource = Resource {
        source,
        tree,
        errors,
        at: 0,
        marks: 0,
        error_count: 0,
        comment: None,
    };
    resource.skip_blank_block();
    // No iterator: each turn moves the place from which the next goes on.
    while resource.at < source.len() {
        resource.parse_entry()?;
        resource.skip_blank_block();
    }
    let Resource {
        marks,
        error_count: errors,
        ..
    } = resource;
    Ok(Counts { marks, errors })
}
