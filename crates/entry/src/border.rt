// What the crate above calls. The functions ask nothing: each tests what the readers ask, and says what it did in every case.
ghost use Rattle.std.specs.Prelude.{◌≡◌};
ghost use Rattle.entry.specs.Border.{readable, DidTry, roomy, DidPut, Skipped};

pub use crate::comment::Level;
pub use crate::errors::Stop;
use crate::helper::blank_block;
use crate::marks::Marks;
use crate::parser::Parser;
pub use crate::parser_core::Entry;
use crate::source::Source;
use syntax::layout::{MARKS_A_BYTE, tree_words};
use syntax::limits::MAX_LENGTH;

// What came of reading an entry: what it is, or why reading stopped; the place after it, or where reading stopped; and, of an entry
// that was read, the count of marks.
#[derive(Drop)]
pub struct EntryRead {
    pub entry: Result<Entry, Stop>,
    pub at: usize,
    pub marks: usize,
}

// Where a block of blank lines ends, and how many line ends it has.
#[derive(Clone, Copy)]
pub struct BlankBlock {
    pub end: usize,
    pub count: usize,
}

// Whether an entry can be read at a place, after n marks, in a source and a tree of these lengths.
fn is_readable(length: usize, words: usize, at: usize, n: usize) -> bool
    ensures { result ≡ readable length words at n }
{
    length <= MAX_LENGTH
        && (at <= length && (n <= MARKS_A_BYTE * at + 1 && tree_words(length) <= words))
}

// Reads the entry at a place into the tree, after n marks, with `left` openings allowed. None is read where the source is too
// long, the place lies past its end, the tree is too short, or more marks stand before than eight for each byte and the entry's.
pub fn read_entry(
    source: &[u8],
    at: usize,
    left: usize,
    tree: &mut [u32],
    n: usize,
) -> Option<EntryRead>
    ensures { DidTry source.now at left n tree.old tree.new result }
{
    let length = source.len();
    if !is_readable(length, tree.len(), at, n) {
        return None;
    }
    let mut marks = Marks {
        words: tree,
        capacity: MARKS_A_BYTE * length,
        count: n,
    };
    let mut parser = Parser {
        source: Source {
            bytes: source,
            ptr: at,
        },
        tree: &mut marks,
    };
    let entry = parser.get_entry(left);
    let at = parser.source.ptr;
    Some(EntryRead {
        entry,
        at,
        marks: marks.count,
    })
}

// Past the blank lines at a place, of which there are none past the end.
pub fn skip_blank_lines(source: &[u8], at: usize) -> BlankBlock
    ensures { Skipped source.now at result }
{
    if source.len() < at {
        return BlankBlock { end: at, count: 0 };
    }
    blank_block(source, at)
}

// Whether a tree of this length holds `cap` marks, and one more after n.
fn has_room(words: usize, cap: usize, n: usize) -> bool
    ensures { result ≡ roomy words cap n }
{
    n < cap && cap < words / 2
}

// Writes a mark after n others, if there is room, and answers how many there are then.
pub fn put_mark(tree: &mut [u32], cap: usize, n: usize, kind: u32, place: u32) -> usize
    ensures { DidPut cap n kind place tree.old tree.new result }
{
    if !has_room(tree.len(), cap, n) {
        return n;
    }
    let mut marks = Marks {
        words: tree,
        capacity: cap,
        count: n,
    };
    marks.put(kind, place as usize);
    marks.count
}
