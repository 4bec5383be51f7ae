// Marks in a lent tree: two words of sizes, then as many kinds as the tree holds, then as many places.
ghost use Rattle.std.specs.Prelude.{◌+◌, ◌*◌, ◌<◌, ◌≤◌, ◌^◌, [], ◌∷◌, length};
ghost use Rattle.entry.specs.Tree.{word, Step, Fits};

use syntax::kind::Kind;
use syntax::layout::SIZES;

#[derive(Drop)]
pub struct Marks<'t> {
    pub words: &'t mut [u32],
    pub capacity: usize,
    pub count: usize,
    pub ghost layout: { 2 + 2 * capacity ≤ length words.now },
}

// Stores the i-th mark, by the number of its kind.
fn store(words: &mut [u32], capacity: usize, i: usize, kind: u32, place: usize)
    requires room { Fits words.old capacity i 1 }
    requires place_bound { place < 2 ^ 32 }
    ensures { Step capacity i words.old words.new (word kind place ∷ []) }
{
    words[SIZES + i] = kind;
    words[SIZES + capacity + i] = place as u32;
}

impl Marks<'_> {
    ghost use Rattle.std.specs.Prelude.{◌≡◌, slice_index};
    ghost use Rattle.syntax.specs.Kind.{number_of, closing};
    ghost use Rattle.entry.specs.Marks.{Holds, Wrote, Put};

    // The number of the i-th mark's kind.
    pub(crate) fn kind(&self, i: usize) -> u32
        requires { 2 + i < length self.now.words.now }
        ensures { result ≡ slice_index self.now.words.now (2 + i) }
    {
        self.words[SIZES + i]
    }

    pub(crate) fn place(&self, i: usize) -> usize
        requires { 2 + self.now.capacity + i < length self.now.words.now }
        ensures { result ≡ slice_index self.now.words.now (2 + self.now.capacity + i) }
    {
        self.words[SIZES + self.capacity + i] as usize
    }

    // A mark, by the number of its kind.
    pub(crate) fn put(&mut self, kind: u32, place: usize)
        requires room { Holds self.old 1 }
        requires place_bound { place < 2 ^ 32 }
        ensures { Wrote self.old self.new (word kind place ∷ []) }
    {
        store(self.words, self.capacity, self.count, kind, place);
        self.count += 1;
    }

    pub(crate) fn open(&mut self, kind: Kind)
        requires { Holds self.old 1 }
        ensures { Wrote self.old self.new (word (number_of kind) 0 ∷ []) }
    {
        self.put(kind.number(), 0);
    }

    pub(crate) fn close(&mut self, kind: Kind)
        requires { Holds self.old 1 }
        ensures { Wrote self.old self.new (word (closing (number_of kind)) 0 ∷ []) }
    {
        self.close_at(kind, 0);
    }

    // The closing mark of a text that ends at a place.
    pub(crate) fn close_at(&mut self, kind: Kind, place: usize)
        requires room { Holds self.old 1 }
        requires place_bound { place < 2 ^ 32 }
        ensures { Wrote self.old self.new (word (closing (number_of kind)) place ∷ []) }
    {
        self.put(kind.closing(), place);
    }

    // The two marks of a text. The tree and the count are read once: after a write each would be read anew.
    pub(crate) fn text(&mut self, kind: Kind, start: usize, end: usize)
        requires room { Holds self.old 2 }
        requires start_bound { start < 2 ^ 32 }
        requires end_bound { end < 2 ^ 32 }
        ensures { Wrote self.old self.new
            (word (number_of kind) start ∷ word (closing (number_of kind)) end ∷ []) }
    {
        let words = &mut *self.words;
        let capacity = self.capacity;
        let first = self.count;
        store(words, capacity, first, kind.number(), start);
        store(words, capacity, first + 1, kind.closing(), end);
        self.count = first + 2;
    }

    // An opening mark before those from the `from`-th on, which move up by one.
    pub(crate) fn insert(&mut self, from: usize, kind: Kind)
        requires from_le_count { from ≤ self.old.count }
        requires room { Holds self.old 1 }
        ensures { Put from (number_of kind) self.old self.new }
    {
        let kinds = SIZES + from;
        let places = SIZES + self.capacity + from;
        let more = self.count - from;
        self.words.copy_within(kinds..kinds + more, kinds + 1);
        self.words.copy_within(places..places + more, places + 1);
        self.words[kinds] = kind.number();
        self.words[places] = 0;
        self.count += 1;
    }
}
