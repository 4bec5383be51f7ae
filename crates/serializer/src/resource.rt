// The serializer's entries, and the file as a whole.
ghost use Rattle.std.specs.Prelude.{◌≡◌, true, false, [], ◌∷◌, length};
ghost use Rattle.std.proofs.lemmas.List.Edits.{sets};
ghost use Rattle.std.proofs.Math.Option.{none};
ghost use Rattle.utf8.specs.Utf8.{is_boundary};
ghost use Rattle.syntax.specs.Kind as Number;
ghost use Rattle.syntax.specs.Kind.{number_of};
ghost use Rattle.syntax.specs.Limits.{max_open};
ghost use Rattle.syntax.specs.Layout.{marks_in};
ghost use Rattle.syntax.specs.Shape.{verdict};
ghost use Rattle.syntax.specs.Tests.{sizes_fit};
ghost use Rattle.syntax.specs.Serializer.{nodes, entry, wrote_by, resource, serialize};
ghost use Rattle.serializer.specs.Writer.{begun, Room, HasWritten};
ghost use Rattle.serializer.specs.Serialize.{state_of, IsReady, DidNode};
ghost use Rattle.tree.specs.Walk.{entries};
ghost use Rattle.serializer.specs.Resource.{junk_in};

use crate::serializer::Serializer;
use crate::walk::Nodes;
use syntax::kind::Kind;

impl<'a> Serializer<'a> {
    // Junk, which is passed over where it is not asked for.
    fn serialize_junk(&mut self, with_junk: bool)
        requires { IsReady self.old (Number.junk ∷ []) (junk_in self.old.nodes.source.now with_junk) }
        ensures { DidNode self.old self.new (junk_in self.old.nodes.source.now with_junk) }
    {
        if with_junk {
            self.serialize_text();
            return;
        }
        self.mark += 2;
    }

    // `wrote` says that an entry that is no junk was written last.
    fn serialize_entry(&mut self, with_junk: bool, wrote: bool)
        requires { IsReady self.old entries (entry self.old.nodes.source.now with_junk wrote) }
        ensures { DidNode self.old self.new (entry self.old.nodes.source.now with_junk wrote) }
    {
        match self.nodes.kind_at(self.mark) {
            Kind::Message => self.serialize_message(),
            Kind::Term => self.serialize_term(),
            Kind::Comment => self.serialize_free_comment(b"#", wrote),
            Kind::GroupComment => self.serialize_free_comment(b"##", wrote),
            Kind::ResourceComment => self.serialize_free_comment(b"###", wrote),
            Kind::AttachedComment => self.serialize_comment(b"#"),
            _ => self.serialize_junk(with_junk),
        }
    }

    fn serialize_resource(&mut self, with_junk: bool)
        requires accepted { verdict (is_boundary self.old.nodes.source.now) max_open (marks_in self.old.nodes.tree.now) ≡ none }
        requires begun { state_of self.old ≡ (record { writer = begun; mark = 0 }) }
        requires room { Room begun
            (resource self.old.nodes.source.now with_junk false (nodes (marks_in self.old.nodes.tree.now))) }
        ensures same_reference { self.new.output.ghost_name ≡ self.old.output.ghost_name }
        ensures wrote { HasWritten self.old.output.now self.new.output.now self.old.writer self.new.writer
            (resource self.old.nodes.source.now with_junk false (nodes (marks_in self.old.nodes.tree.now))) }
    {
        let count = self.nodes.tree[0] as usize;
        let mut wrote_non_junk_entry = false;
        while self.mark < count {
            let kind = self.nodes.kind_at(self.mark);
            self.serialize_entry(with_junk, wrote_non_junk_entry);
            wrote_non_junk_entry = wrote_by(wrote_non_junk_entry, kind);
        }
    }
}

// Whether an entry that is no junk was written last, after one of a kind. An attached comment is a part of its message or term.
fn wrote_by(wrote_non_junk_entry: bool, kind: Kind) -> bool
    ensures { result ≡ wrote_by [] wrote_non_junk_entry (number_of kind) }
{
    match kind {
        Kind::Junk => false,
        Kind::AttachedComment => wrote_non_junk_entry,
        _ => true,
    }
}

// The text of a tree that the check has accepted, and its length.
pub fn serialize_with_options(
    source: &[u8],
    tree: &[u32],
    output: &mut [u8],
    with_junk: bool,
) -> usize
    requires fit { sizes_fit tree.now ≡ true }
    requires accepted { verdict (is_boundary source.now) max_open (marks_in tree.now) ≡ none }
    requires room { Room begun (resource source.now with_junk false (nodes (marks_in tree.now))) }
    ensures stored { output.new ≡ sets output.old 0 (serialize source.now with_junk (marks_in tree.now)) }
    ensures length { result ≡ length (serialize source.now with_junk (marks_in tree.now)) }
{
    let nodes = Nodes { source, tree };
    let mut serializer = Serializer::new(nodes, output);
    serializer.serialize_resource(with_junk);
    serializer.writer.at
}
