// The functions of crate entry that write marks, where what they test holds.
ghost use Rattle.std.specs.Prelude.{◌<◌, ◌^◌, [], ◌∷◌, length, drop};
ghost use Rattle.syntax.specs.Layout.{tree_capacity};
ghost use Rattle.syntax.specs.Expression.{level};
ghost use Rattle.syntax.specs.Core.{get_entry};
ghost use Rattle.entry.specs.Tree.{word};
ghost use Rattle.entry.specs.Did.{told, result_by, plain, Did};
ghost use Rattle.entry.specs.Entry.{entry_of};
ghost use Rattle.parser.specs.Place.{Entered};
ghost use Rattle.parser.specs.Resource.{Holds, Wrote};

use crate::resource::Resource;
use entry::border::{EntryRead, put_mark, read_entry};
use syntax::layout::MARKS_A_BYTE;

// What stands in an entry: the marks of its node are the caller's to write.
pub fn get_entry(source: &[u8], at: usize, left: usize, tree: &mut [u32], n: usize) -> EntryRead
    requires { Entered source.now tree.old (tree_capacity (length source.now)) at n }
    ensures { Did plain (tree_capacity (length source.now)) at n tree.old tree.new
        (told (result_by entry_of result.entry) result.at result.marks) (get_entry (level left) (drop at source.now)) }
{
    // What is required is what is tested.
    read_entry(source, at, left, tree, n).unwrap()
}

impl Resource<'_, '_> {
    // Writes a mark.
    pub fn put(&mut self, kind: u32, place: usize)
        requires room { Holds self.old 1 }
        requires place_bound { place < 2 ^ 32 }
        ensures { Wrote (word kind place ∷ []) self.old self.new }
    {
        let cap = MARKS_A_BYTE * self.source.len();
        self.marks = put_mark(self.tree, cap, self.marks, kind, place as u32);
    }
}
