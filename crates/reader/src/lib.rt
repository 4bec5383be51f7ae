// A thin reader over a borrowed source, as the Rust's Parser is: it answers, call by call, where the next entry starts and
// where its reading stopped. `next_entry` does the work.
#![tactic(auto)]

ghost use Rattle.std.specs.Prelude.{◌≡◌, length};
ghost use Rattle.syntax.specs.Next.{first_place, next_answer, Answered, NextTree};
ghost use Rattle.reader.specs.Moved.{moved};

use parser::next::{first_place, next_entry};
use syntax::next::Next;

// The place from which the next call goes on: where the last entry's reading stopped, at first `first_place`.
#[derive(Drop)]
pub struct Reader<'a> {
    source: &'a [u8],
    at: usize,
}

impl<'a> Reader<'a> {
    // A reader before the first entry; at the end if the reading call refuses the source as too long or not UTF-8.
    pub fn new(source: &'a [u8]) -> Self
        ensures { (result.source ≡ source.entry) × (result.at ≡ first_place source.now) }
    {
        let at = first_place(source);
        Reader { source, at }
    }

    // The entry after the place, read with a lent tree, in which it leaves scratch. It takes the time of that entry.
    pub fn next(&mut self, tree: &mut [u32]) -> Next
        ensures { Answered (length self.old.source.now) result
            (next_answer self.old.source.now self.old.at (length tree.old))
            × (self.new ≡ moved self.old (length tree.old))
            × NextTree self.old.source.now self.old.at tree.old tree.new }
    {
        let asked = next_entry(self.source, self.at, tree);
        self.at = asked.at;
        asked.next
    }
}

// The entry after a place, for callers that hold no reader. They start at `first_place`.
pub fn entry_after(source: &[u8], at: usize, tree: &mut [u32]) -> Next
    ensures { Answered (length source.now) result
        (next_answer source.now at (length tree.old))
        × NextTree source.now at tree.old tree.new }
{
    let mut reader = Reader { source, at };
    reader.next(tree)
}
