// The serializer's messages and terms, with their attributes.
ghost use Rattle.std.specs.Prelude.{◌+◌, ◌≡◌, true, [], ◌∷◌};
ghost use Rattle.utf8.specs.Utf8.{is_boundary};
ghost use Rattle.syntax.specs.Kind as Number;
ghost use Rattle.syntax.specs.Layout.{marks_in};
ghost use Rattle.syntax.specs.Shape.{named};
ghost use Rattle.syntax.specs.Serializer.{nodes, attribute, attributes};
ghost use Rattle.serializer.specs.Writer.{place_of, Room};
ghost use Rattle.tree.specs.Walk.{node_at, inner_at, TextAt};
ghost use Rattle.serializer.specs.Serialize.{IsReady, DidGo, DidNode, DidNodeIn};
ghost use Rattle.serializer.specs.Message.{naming, values, message_in, term_in, IsReadyFor, Valued};

use crate::serializer::Serializer;
use syntax::kind::Kind;

impl Serializer<'_> {
    // The name of a message, of a term or of an attribute, and the equals sign; the value is next.
    fn serialize_name(&mut self)
        requires text_at { TextAt (is_boundary self.old.nodes.source.now) (marks_in self.old.nodes.tree.now) (self.old.mark + 1) }
        requires room { Room (place_of self.old.writer)
            (naming self.old.nodes.source.now (node_at (marks_in self.old.nodes.tree.now) (self.old.mark + 1))) }
        ensures { DidGo self.old self.new
            (naming self.old.nodes.source.now (node_at (marks_in self.old.nodes.tree.now) (self.old.mark + 1)))
            (self.old.mark + 3) }
    {
        self.mark += 1;
        self.serialize_text();
        self.writer.write_literal(self.output, b" =");
    }

    // An attribute, on a line of its own.
    fn serialize_attribute(&mut self)
        requires { IsReady self.old (Number.attribute ∷ []) (attribute self.old.nodes.source.now) }
        ensures { DidNode self.old self.new (attribute self.old.nodes.source.now) }
    {
        self.writer.newline(self.output);
        self.writer.write_literal(self.output, b".");
        self.serialize_name();
        self.serialize_pattern();
        self.mark += 1;
    }

    // The attributes of a message or of a term, up to its end.
    fn serialize_attributes(&mut self)
        requires { IsReadyFor self.old 2 (attributes self.old.nodes.source.now) }
        ensures { DidNodeIn self.old self.new (attributes self.old.nodes.source.now) }
    {
        self.writer.indent();
        while self.nodes.is_at(self.mark, Kind::Attribute) {
            self.serialize_attribute();
        }
        self.writer.dedent();
        self.mark += 1;
    }

    // The value of a message or of a term, if there is one.
    fn serialize_value(&mut self)
        requires { IsReadyFor self.old 1 (values self.old.nodes.source.now) }
        ensures went { DidGo self.old self.new
            (values self.old.nodes.source.now (nodes (inner_at (marks_in self.old.nodes.tree.now) self.old.mark))) self.new.mark }
        ensures valued { Valued self.old.nodes.source.now self.old.nodes.tree.now self.old.mark self.new.mark }
    {
        if self.nodes.is_at(self.mark, Kind::Pattern) {
            self.serialize_pattern();
        }
    }

    // A message; or a term, after its dash. A comment that is attached is an entry of its own.
    pub fn serialize_message(&mut self)
        requires { IsReady self.old named (message_in self.old.nodes.source.now) }
        ensures { DidNode self.old self.new (message_in self.old.nodes.source.now) }
    {
        self.serialize_name();
        self.serialize_value();
        self.serialize_attributes();
        self.writer.newline(self.output);
    }

    pub fn serialize_term(&mut self)
        requires { IsReady self.old (Number.term ∷ []) (term_in self.old.nodes.source.now) }
        ensures { DidNode self.old self.new (term_in self.old.nodes.source.now) }
    {
        self.writer.write_literal(self.output, b"-");
        self.serialize_message();
    }
}
