// A source entry by entry: the one after a place, and the first place.
ghost use Rattle.std.specs.Prelude.{◌≤◌, ◌<◌, ◌≡◌, length, drop};
ghost use Rattle.syntax.specs.Limits.{max_length, max_open};
ghost use Rattle.syntax.specs.Expression.{level};
ghost use Rattle.syntax.specs.Core.{get_entry};
ghost use Rattle.syntax.specs.Layout.{tree_layout};
ghost use Rattle.syntax.specs.Next.{stop_of, first_place, stopped, next_answer, place_after, Scratched, NextTree};
ghost use Rattle.parser.specs.Next.{Stoppable, stopped_at, DidAsk};

use crate::junk::skip_to_next_entry_start;
use crate::marks::get_entry;
use entry::border::{EntryRead, Stop, skip_blank_lines};
use syntax::answer::Refusal;
use syntax::layout::tree_words;
use syntax::limits::{MAX_LENGTH, MAX_OPEN};
use syntax::next::{Extent, Next};
use syntax::test::test_source;

// What a call answers, and the place from which the next one goes on.
#[derive(Drop)]
pub struct Asked {
    pub next: Next,
    pub at: usize,
}

// Where an entry's reading stopped, for junk its end; nowhere if it nests too deep.
fn stopped_at(source: &[u8], start: usize, read: EntryRead) -> Option<Extent>
    requires { Stoppable source.now read }
    ensures { result ≡ stopped_at source.now start read }
{
    let stop = match read.entry {
        Ok(_) => read.at,
        Err(Stop::Error(_)) => skip_to_next_entry_start(source, read.at),
        Err(Stop::TooDeep) => return None,
    };
    Some(Extent { start, stop })
}

// The entry at a place. Its marks are read into the tree, as scratch.
fn entry_at(source: &[u8], start: usize, tree: &mut [u32]) -> Option<Extent>
    requires { (length source.now ≤ max_length) × (start < length source.now) × (tree_layout (length source.now) ≤ length tree.old) }
    ensures { (result ≡ stopped start
        (stop_of (drop start source.now) (get_entry (level max_open) (drop start source.now))))
        × Scratched (tree_layout (length source.now)) tree.old tree.new }
{
    let read = get_entry(source, start, MAX_OPEN, tree, 0);
    stopped_at(source, start, read)
}

fn answer(source: &[u8], at: usize, tree: &mut [u32]) -> Next
    ensures { (result ≡ next_answer source.now at (length tree.old))
        × NextTree source.now at tree.old tree.new }
{
    let length = source.len();
    if MAX_LENGTH < length {
        return Ok(None);
    }
    let block = skip_blank_lines(source, at);
    let start = block.end;
    if length <= start {
        return Ok(None);
    }
    let words = tree_words(length);
    if tree.len() < words {
        return Err(Refusal::TreeTooShort(words as u64));
    }
    Ok(entry_at(source, start, tree))
}

fn place_after(source: &[u8], at: usize, next: Next) -> usize
    ensures { result ≡ place_after source.now at next }
{
    match next {
        Ok(Some(extent)) => extent.stop,
        Ok(None) => source.len(),
        Err(_) => at,
    }
}

// The entry after a place, past blank lines. None is left at the end, where one nests too deep, and in a source that the
// reading call refuses as too long. It takes the time of that entry.
pub fn next_entry(source: &[u8], at: usize, tree: &mut [u32]) -> Asked
    ensures { DidAsk source.now at tree.old tree.new result }
{
    let next = answer(source, at, tree);
    let place = place_after(source, at, next);
    Asked { next, at: place }
}

// The place before the first entry; the end, where none is left, of a source that the reading call refuses as too long or not
// UTF-8.
pub fn first_place(source: &[u8]) -> usize
    ensures { result ≡ first_place source.now }
{
    match test_source(source) {
        Ok(()) => 0,
        Err(_) => source.len(),
    }
}
