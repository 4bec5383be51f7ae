// The marks of a tree that the check has accepted. Crate tree tells what stands at a mark of any words; the tests that are made there would
// cost a tenth of the writing.
ghost use Rattle.std.specs.Prelude.{◌<◌, ◌≡◌, true, eqb, ltb};
ghost use Rattle.utf8.specs.Utf8.{is_boundary};
ghost use Rattle.syntax.specs.Kind.{number_of, closing};
ghost use Rattle.syntax.specs.Layout.{count, marks_in};
ghost use Rattle.syntax.specs.Tests.{sizes_fit};
ghost use Rattle.syntax.specs.Serializer.{text_of};
ghost use Rattle.tree.specs.Walk.{kind_at, node_at, TextAt};
ghost use Rattle.serializer.specs.Walk.{IsKind};

use syntax::kind::{CLOSING, Kind};
use syntax::layout::SIZES;

// A tree over a source.
#[derive(Clone, Copy)]
pub struct Nodes<'a> {
    pub source: &'a [u8],
    pub tree: &'a [u32],
    ghost fit: { sizes_fit tree.now ≡ true },
}

impl<'a> Nodes<'a> {
    fn number_at(self, mark: usize) -> u32
        requires { mark < count self.tree.now }
        ensures { result ≡ kind_at (marks_in self.entry.tree.now) mark }
    {
        self.tree[SIZES + mark]
    }

    // The kind of the node that starts at a mark.
    pub fn kind_at(self, mark: usize) -> Kind
        requires mark_bound { mark < count self.tree.now }
        requires is_kind { IsKind (kind_at (marks_in self.tree.now) mark) }
        ensures { number_of result ≡ kind_at (marks_in self.entry.tree.now) mark }
    {
        // What is required is what is tested.
        Kind::try_from(self.number_at(mark)).unwrap()
    }

    // Whether a node of a kind starts at a mark.
    pub fn is_at(self, mark: usize, kind: Kind) -> bool
        requires { mark < count self.tree.now }
        ensures { result ≡ eqb (kind_at (marks_in self.entry.tree.now) mark) (number_of kind) }
    {
        self.number_at(mark) == kind.number()
    }

    // Whether a node starts at a mark; else one ends there.
    pub fn is_open(self, mark: usize) -> bool
        requires { mark < count self.tree.now }
        ensures { result ≡ ltb (kind_at (marks_in self.entry.tree.now) mark) (closing 0) }
    {
        self.number_at(mark) < CLOSING
    }

    // The text of the T node that starts at a mark.
    pub fn text_at(self, mark: usize) -> &'a [u8]
        requires { TextAt (is_boundary self.source.now) (marks_in self.tree.now) mark }
        ensures { result.now ≡ text_of self.entry.source.now (node_at (marks_in self.entry.tree.now) mark) }
    {
        let places = SIZES + self.tree[1] as usize;
        let start = self.tree[places + mark] as usize;
        let end = self.tree[places + (mark + 1)] as usize;
        &self.source[start..end]
    }
}
