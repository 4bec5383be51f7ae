// The serializer: it walks over the marks of a tree that the check has accepted, and writes their normal text.
ghost use Rattle.std.specs.Prelude.{ℕ, ◌+◌, ◌-◌, ◌*◌, ◌^◌, ◌≤◌, ◌<◌, ◌≡◌, true, ◌||◌, ◌&&◌, not, List, [], ◌∷◌, length, eqb};
ghost use Rattle.utf8.specs.Utf8.{is_boundary};
ghost use Rattle.syntax.specs.Byte as Byte;
ghost use Rattle.syntax.specs.Kind as Number;
ghost use Rattle.syntax.specs.Kind.{number_of};
ghost use Rattle.syntax.specs.Bytes.{ascii};
ghost use Rattle.syntax.specs.Layout.{marks_in};
ghost use Rattle.syntax.specs.Shape.{inline};
ghost use Rattle.syntax.specs.Serializer.{Node, nodes, if, literal, newline, star, blank_line, has_newline, is_select};
ghost use Rattle.syntax.specs.Serializer.{multiline_element, is_multiline, leading_dot, name, comment, free_comment};
ghost use Rattle.laws.specs.Text.{element_of, expression_of, variant_of, inline_of};
ghost use Rattle.serializer.specs.Writer.{begun, place_of, Room, HasWritten};
ghost use Rattle.tree.specs.Walk.{node_at, after, At, NodeAt, TextAt, OneAt, elements, expressions, variants, references};
ghost use Rattle.serializer.specs.Comment.{CommentAt, line_of};
ghost use Rattle.serializer.specs.Serialize.{one_if, state_of, output_of, IsReady, DidGo, DidNode, Begun, pattern_in, select_in};
ghost use Rattle.serializer.specs.Serialize.{arguments_in, pattern_start, opening_braces, closing_braces, braces_of};
ghost use Rattle.serializer.specs.Serialize.{sigil, quoted, reference_of, key_at, argument_name, Named};

use crate::walk::Nodes;
use crate::writer::TextWriter;
use syntax::kind::Kind;
use tree::marks::after_node;

// A tree over a source, the output and the writer of its text, and the mark that is next. The loops over a node's children are by `while`:
// each turn moves the mark by what it wrote, and an iterator would have to hold the serializer.
#[derive(Drop)]
pub struct Serializer<'a> {
    pub nodes: Nodes<'a>,
    pub output: &'a mut [u8],
    pub writer: TextWriter,
    pub mark: usize,
}

// Crate entry trims a text by the same test; shared, it would be a public function of three bytes in a third crate.
fn matches_fluent_ws(b: u8) -> bool
    ensures { result ≡ (eqb b Byte.space || (eqb b Byte.carriage_return || eqb b Byte.line_feed)) }
{
    matches!(b, b' ' | b'\r' | b'\n')
}

// Whether a comment's line has only blanks.
fn is_blank_line(text: &[u8]) -> bool
    ensures { result ≡ blank_line [] text.now }
{
    text.iter().all(|&b| matches_fluent_ws(b))
}

fn has_newline(text: &[u8]) -> bool
    ensures { result ≡ has_newline [] text.now }
{
    text.contains(&b'\n')
}

impl Nodes<'_> {
    // Whether the expression at a mark is a select, or a placeable around one, at any depth.
    fn is_select_expr(self, mark: usize) -> bool
        requires { NodeAt (marks_in self.tree.now) mark }
        ensures { (source : List ℕ) (n : ℕ) (more : List Node) → length (node_at (marks_in self.entry.tree.now) mark).inner < n
            → result ≡ is_select source n (node_at (marks_in self.entry.tree.now) mark ∷ more) }
    {
        self.is_at(mark, Kind::Select)
            || self.is_at(mark, Kind::Placeable) && self.is_select_expr(mark + 1)
    }

    // Whether the pattern at a mark starts with a text that starts with a dot.
    fn has_leading_text_dot(self, mark: usize) -> bool
        requires { At (is_boundary self.source.now) (marks_in self.tree.now) mark Number.pattern }
        ensures { result ≡ leading_dot self.entry.source.now (nodes (node_at (marks_in self.entry.tree.now) mark).inner) }
    {
        let first = mark + 1;
        if !self.is_at(first, Kind::Text) {
            return false;
        }
        self.text_at(first).first() == Some(&b'.')
    }

    // Whether the element at a mark is a text with a newline, or a select.
    fn is_multiline_element(self, mark: usize) -> bool
        requires { OneAt (is_boundary self.source.now) elements (marks_in self.tree.now) mark }
        ensures { result ≡ multiline_element self.entry.source.now (node_at (marks_in self.entry.tree.now) mark) }
    {
        if self.is_at(mark, Kind::Text) {
            let text = self.text_at(mark);
            return has_newline(text);
        }
        // The first step of is_select_expr, so that most placeables are passed without a call.
        let inner = mark + 1;
        self.is_at(inner, Kind::Select)
            || self.is_at(inner, Kind::Placeable) && self.is_select_expr(inner + 1)
    }

    // The mark after the element at a mark. A text is two marks, and most elements are texts.
    fn after_element(self, mark: usize) -> usize
        requires { NodeAt (marks_in self.tree.now) mark }
        ensures { result ≡ after (marks_in self.entry.tree.now) mark }
    {
        if self.is_at(mark, Kind::Text) {
            return mark + 2;
        }
        after_node(self.tree, mark)
    }

    // Whether the pattern at a mark has such an element. By `while`, since only the node at a mark tells where the next one is.
    fn is_multiline(self, mark: usize) -> bool
        requires { At (is_boundary self.source.now) (marks_in self.tree.now) mark Number.pattern }
        ensures { result ≡ is_multiline self.entry.source.now (nodes (node_at (marks_in self.entry.tree.now) mark).inner) }
    {
        let mut next = mark + 1;
        while self.is_open(next) {
            if self.is_multiline_element(next) {
                return true;
            }
            next = self.after_element(next);
        }
        false
    }

    pub fn starts_on_new_line(self, mark: usize) -> bool
        requires { At (is_boundary self.source.now) (marks_in self.tree.now) mark Number.pattern }
        ensures { result
            ≡ (not (leading_dot self.entry.source.now (nodes (node_at (marks_in self.entry.tree.now) mark).inner))
            && is_multiline self.entry.source.now (nodes (node_at (marks_in self.entry.tree.now) mark).inner)) }
    {
        if self.has_leading_text_dot(mark) {
            return false;
        }
        self.is_multiline(mark)
    }
}

impl TextWriter {
    // The newline before a free comment, where an entry that is no junk was written. This, `separate` and `mark_default` each write
    // another piece where a test holds; one function for them would have to be given the writing.
    fn newline_after_entry(&mut self, output: &mut [u8], wrote_non_junk_entry: bool)
        requires { Room (place_of self.old) (if wrote_non_junk_entry newline) }
        ensures { HasWritten output.old output.new self.old self.new (if wrote_non_junk_entry newline) }
    {
        if wrote_non_junk_entry {
            self.newline(output);
        }
    }

    // A line of serialize_comment.
    fn write_comment_line(&mut self, output: &mut [u8], prefix: &[u8], line: &[u8])
        requires { Room (place_of self.old) (line_of prefix.now line.now) }
        ensures { HasWritten output.old output.new self.old self.new (line_of prefix.now line.now) }
    {
        self.write_literal(output, prefix);
        if is_blank_line(line) {
            self.newline(output);
            return;
        }
        self.write_literal(output, b" ");
        self.write_literal(output, line);
        self.newline(output);
    }

    // The comma before an argument that is not the first.
    fn separate(&mut self, output: &mut [u8], argument_written: bool)
        requires { Room (place_of self.old) (if argument_written (literal (ascii ", "))) }
        ensures { HasWritten output.old output.new self.old self.new (if argument_written (literal (ascii ", "))) }
    {
        if argument_written {
            self.write_literal(output, b", ");
        }
    }

    // The star of a default variant.
    fn mark_default(&mut self, output: &mut [u8], default: bool)
        requires le_indent { 1 ≤ self.old.indent_level }
        requires room { Room (place_of self.old) (if default star) }
        ensures { HasWritten output.old output.new self.old self.new (if default star) }
    {
        if default {
            self.star(output);
        }
    }

    // What stands before the name of a variable or of a term.
    fn write_sigil(&mut self, output: &mut [u8], kind: Kind)
        requires { Room (place_of self.old) (sigil (number_of kind)) }
        ensures { HasWritten output.old output.new self.old self.new (sigil (number_of kind)) }
    {
        match kind {
            Kind::VariableReference => self.write_literal(output, b"$"),
            Kind::TermReference => self.write_literal(output, b"-"),
            _ => {}
        }
    }

    // What stands before the elements of a pattern: a new line, which is indented, or a blank.
    fn begin_pattern(&mut self, output: &mut [u8], start_on_newline: bool)
        requires room { Room (place_of self.old) (pattern_start start_on_newline) }
        requires indent_bound { self.old.indent_level < 2 ^ 63 }
        ensures { Begun output.old output.new self.old self.new start_on_newline }
    {
        if start_on_newline {
            self.newline(output);
            self.indent();
            return;
        }
        self.write_literal(output, b" ");
    }

    // The indent as before the pattern.
    fn end_pattern(&mut self, start_on_newline: bool)
        requires { one_if start_on_newline ≤ self.old.indent_level }
        ensures { self.new ≡ (record self.old { indent_level = self.old.indent_level - one_if start_on_newline }) }
    {
        if start_on_newline {
            self.dedent();
        }
    }
}

impl<'a> Serializer<'a> {
    pub fn new(nodes: Nodes<'a>, output: &'a mut [u8]) -> Serializer<'a>
        ensures nodes { result.nodes ≡ nodes.entry }
        ensures same_reference { result.output.ghost_name ≡ output.entry.ghost_name }
        ensures output { output_of result ≡ output.old }
        ensures begun { state_of result ≡ (record { writer = begun; mark = 0 }) }
    {
        Serializer {
            nodes,
            output,
            writer: TextWriter::new(),
            mark: 0,
        }
    }

    pub fn serialize_comment(&mut self, prefix: &[u8])
        requires comment_at { CommentAt (is_boundary self.old.nodes.source.now) (marks_in self.old.nodes.tree.now) self.old.mark }
        requires room { Room (place_of self.old.writer)
            (comment self.old.nodes.source.now prefix.now (node_at (marks_in self.old.nodes.tree.now) self.old.mark).inner) }
        ensures { DidNode self.old self.new (λ n. comment self.old.nodes.source.now prefix.now n.inner) }
    {
        self.mark += 1;
        while self.nodes.is_at(self.mark, Kind::CommentLine) {
            let line = self.nodes.text_at(self.mark);
            self.writer.write_comment_line(self.output, prefix, line);
            self.mark += 2;
        }
        self.mark += 1;
    }

    pub fn serialize_free_comment(&mut self, prefix: &[u8], wrote_non_junk_entry: bool)
        requires comment_at { CommentAt (is_boundary self.old.nodes.source.now) (marks_in self.old.nodes.tree.now) self.old.mark }
        requires room { Room (place_of self.old.writer)
            (free_comment self.old.nodes.source.now wrote_non_junk_entry prefix.now
            (node_at (marks_in self.old.nodes.tree.now) self.old.mark).inner) }
        ensures { DidNode self.old self.new
            (λ n. free_comment self.old.nodes.source.now wrote_non_junk_entry prefix.now n.inner) }
    {
        self.writer
            .newline_after_entry(self.output, wrote_non_junk_entry);
        self.serialize_comment(prefix);
        self.writer.newline(self.output);
    }

    // The text of a T node.
    pub fn serialize_text(&mut self)
        requires text_at { TextAt (is_boundary self.old.nodes.source.now) (marks_in self.old.nodes.tree.now) self.old.mark }
        requires room { Room (place_of self.old.writer)
            (name self.old.nodes.source.now (node_at (marks_in self.old.nodes.tree.now) self.old.mark)) }
        ensures { DidNode self.old self.new (name self.old.nodes.source.now) }
    {
        let text = self.nodes.text_at(self.mark);
        self.writer.write_literal(self.output, text);
        self.mark += 2;
    }

    // The opening braces of a pattern's placeable, by the kind of the expression in it.
    fn begin_placeable(&mut self, kind: Kind)
        requires room { Room (place_of self.old.writer) (literal (opening_braces (number_of kind))) }
        requires mark_bound { self.old.mark < 2 ^ 63 }
        ensures { DidGo self.old self.new (literal (opening_braces (number_of kind))) (self.old.mark + braces_of (number_of kind)) }
    {
        match kind {
            // Placeables around each other stand without blanks between the braces.
            Kind::Placeable => {
                self.writer.write_literal(self.output, b"{{ ");
                self.mark += 2;
            }
            _ => {
                self.writer.write_literal(self.output, b"{ ");
                self.mark += 1;
            }
        }
    }

    fn end_placeable(&mut self, kind: Kind)
        requires room { Room (place_of self.old.writer) (literal (closing_braces (number_of kind))) }
        requires mark_bound { self.old.mark < 2 ^ 63 }
        ensures { DidGo self.old self.new (literal (closing_braces (number_of kind))) (self.old.mark + braces_of (number_of kind)) }
    {
        match kind {
            Kind::Placeable => {
                self.writer.write_literal(self.output, b" }}");
                self.mark += 2;
            }
            // A select ends in a newline.
            Kind::Select => {
                self.writer.write_literal(self.output, b"}");
                self.mark += 1;
            }
            _ => {
                self.writer.write_literal(self.output, b" }");
                self.mark += 1;
            }
        }
    }

    fn serialize_string_literal(&mut self)
        requires { IsReady self.old (Number.string ∷ []) (quoted self.old.nodes.source.now) }
        ensures { DidNode self.old self.new (quoted self.old.nodes.source.now) }
    {
        self.writer.write_literal(self.output, b"\"");
        self.serialize_text();
        self.writer.write_literal(self.output, b"\"");
    }

    // A reference up to its arguments: its sigil, its name, and the name of the attribute if there is one.
    fn serialize_reference(&mut self)
        requires { IsReady self.old references (reference_of self.old.nodes.source.now) }
        ensures went { DidGo self.old self.new
            (reference_of self.old.nodes.source.now (node_at (marks_in self.old.nodes.tree.now) self.old.mark)) self.new.mark }
        ensures named { Named self.old.nodes.source.now self.old.nodes.tree.now self.old.mark self.new.mark }
    {
        self.writer
            .write_sigil(self.output, self.nodes.kind_at(self.mark));
        self.mark += 1;
        self.serialize_text();
        if self.nodes.is_at(self.mark, Kind::Identifier) {
            self.writer.write_literal(self.output, b".");
            self.serialize_text();
        }
    }

    // The key of a variant, from the star up to the closing bracket; the pattern is next.
    fn serialize_variant_key(&mut self)
        requires one_at { OneAt (is_boundary self.old.nodes.source.now) variants (marks_in self.old.nodes.tree.now) self.old.mark }
        requires le_indent { 1 ≤ self.old.writer.indent_level }
        requires room { Room (place_of self.old.writer)
            (key_at self.old.nodes.source.now (marks_in self.old.nodes.tree.now) self.old.mark) }
        ensures { DidGo self.old self.new
            (key_at self.old.nodes.source.now (marks_in self.old.nodes.tree.now) self.old.mark) (self.old.mark + 3) }
    {
        self.writer.mark_default(
            self.output,
            self.nodes.is_at(self.mark, Kind::DefaultVariant),
        );
        self.writer.write_literal(self.output, b"[");
        self.mark += 1;
        self.serialize_text();
        self.writer.write_literal(self.output, b"]");
    }

    // The name of an argument, if it is a named one, and the colon; the value is next.
    fn begin_argument(&mut self, named: bool)
        requires at { named ≡ true
            → At (is_boundary self.old.nodes.source.now) (marks_in self.old.nodes.tree.now) self.old.mark Number.named_argument }
        requires room { Room (place_of self.old.writer)
            (if named (argument_name self.old.nodes.source.now (node_at (marks_in self.old.nodes.tree.now) (self.old.mark + 1)))) }
        ensures { DidGo self.old self.new
            (if named (argument_name self.old.nodes.source.now (node_at (marks_in self.old.nodes.tree.now) (self.old.mark + 1))))
            (self.old.mark + 3 * one_if named) }
    {
        if !named {
            return;
        }
        self.mark += 1;
        self.serialize_text();
        self.writer.write_literal(self.output, b": ");
    }

    #[cycle(pattern)]
    pub fn serialize_pattern(&mut self)
        requires { IsReady self.old (Number.pattern ∷ []) (pattern_in self.old.nodes.source.now) }
        ensures { DidNode self.old self.new (pattern_in self.old.nodes.source.now) }
    {
        let start_on_newline = self.nodes.starts_on_new_line(self.mark);
        self.writer.begin_pattern(self.output, start_on_newline);
        self.mark += 1;
        while self.nodes.is_open(self.mark) {
            self.serialize_element();
        }
        self.writer.end_pattern(start_on_newline);
        self.mark += 1;
    }

    #[cycle(pattern)]
    fn serialize_element(&mut self)
        requires { IsReady self.old elements (element_of self.old.nodes.source.now) }
        ensures { DidNode self.old self.new (element_of self.old.nodes.source.now) }
    {
        if self.nodes.is_at(self.mark, Kind::Text) {
            self.serialize_text();
            return;
        }
        let kind = self.nodes.kind_at(self.mark + 1);
        self.begin_placeable(kind);
        self.serialize_expression();
        self.end_placeable(kind);
    }

    #[cycle(pattern)]
    fn serialize_expression(&mut self)
        requires { IsReady self.old expressions (expression_of self.old.nodes.source.now) }
        ensures { DidNode self.old self.new (expression_of self.old.nodes.source.now) }
    {
        if self.nodes.is_at(self.mark, Kind::Select) {
            self.serialize_select_expression();
            return;
        }
        self.serialize_inline_expression();
    }

    #[cycle(pattern)]
    fn serialize_inline_expression(&mut self)
        requires { IsReady self.old inline (inline_of self.old.nodes.source.now) }
        ensures { DidNode self.old self.new (inline_of self.old.nodes.source.now) }
    {
        match self.nodes.kind_at(self.mark) {
            Kind::StringLiteral => self.serialize_string_literal(),
            Kind::NumberLiteral => self.serialize_text(),
            Kind::Placeable => {
                self.writer.write_literal(self.output, b"{");
                self.mark += 1;
                self.serialize_expression();
                self.writer.write_literal(self.output, b"}");
                self.mark += 1;
            }
            _ => {
                self.serialize_reference();
                if self.nodes.is_at(self.mark, Kind::Arguments) {
                    self.serialize_call_arguments();
                }
                self.mark += 1;
            }
        }
    }

    #[cycle(pattern)]
    fn serialize_select_expression(&mut self)
        requires { IsReady self.old (Number.select ∷ []) (select_in self.old.nodes.source.now) }
        ensures { DidNode self.old self.new (select_in self.old.nodes.source.now) }
    {
        self.mark += 1;
        self.serialize_inline_expression();
        self.writer.write_literal(self.output, b" ->");
        self.writer.newline(self.output);
        self.writer.indent();
        while self.nodes.is_open(self.mark) {
            self.serialize_variant();
            self.writer.newline(self.output);
        }
        self.writer.dedent();
        self.mark += 1;
    }

    #[cycle(pattern)]
    fn serialize_variant(&mut self)
        requires ready { IsReady self.old variants (variant_of self.old.nodes.source.now) }
        requires le_indent { 1 ≤ self.old.writer.indent_level }
        ensures { DidNode self.old self.new (variant_of self.old.nodes.source.now) }
    {
        self.serialize_variant_key();
        self.serialize_pattern();
        self.mark += 1;
    }

    #[cycle(pattern)]
    fn serialize_call_arguments(&mut self)
        requires { IsReady self.old (Number.arguments ∷ []) (arguments_in self.old.nodes.source.now) }
        ensures { DidNode self.old self.new (arguments_in self.old.nodes.source.now) }
    {
        self.writer.write_literal(self.output, b"(");
        self.mark += 1;
        let mut argument_written = false;
        while self.nodes.is_open(self.mark) {
            self.writer.separate(self.output, argument_written);
            let named = self.nodes.is_at(self.mark, Kind::NamedArgument);
            self.begin_argument(named);
            self.serialize_inline_expression();
            // The closing mark, which a named argument alone has.
            self.mark += usize::from(named);
            argument_written = true;
        }
        self.writer.write_literal(self.output, b")");
        self.mark += 1;
    }
}
