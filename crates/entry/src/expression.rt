// expression.rs: inline expressions and what holds them. With them stand those of core.rs and pattern.rs that call them and are
// called by them: get_placeable, get_variants and get_pattern; a cycle of calls has one proof.
ghost use Rattle.std.specs.Prelude.{◌≡◌, ℕ, ◌+◌, ◌≤◌, Bool, true, not, List, [], length, slice_range};
ghost use Rattle.syntax.specs.Byte as Byte;
ghost use Rattle.syntax.specs.Layout.{tree_capacity};
ghost use Rattle.syntax.specs.Bytes.{starts_with, starts, all, is_letter, is_callee_part};
ghost use Rattle.syntax.specs.declared.errors.ErrorKind.TheVariants.{TermAttributeAsPlaceable, ForbiddenCallee};
ghost use Rattle.syntax.specs.Reader.{repeat};
ghost use Rattle.entry.specs.Entry.{get_value};
ghost use Rattle.syntax.specs.Pattern.{Inside, get_pattern};
ghost use Rattle.syntax.specs.Expression.{level, as_inline, as_string, string_literal, variable_reference, term_reference};
ghost use Rattle.syntax.specs.Expression.{reference, get_inline_expression, get_call_arguments};
ghost use Rattle.syntax.specs.Expression.{get_expression, get_variants, variant_with, argument_turn, separator};
ghost use Rattle.entry.specs.Did.{plain, silent};
ghost use Rattle.entry.specs.Reads.{rest, Goes, Finds, Room, Reads, ReadsOf};
ghost use Rattle.entry.specs.Names.{Names, HasNames, HasName, Among, name_at};
ghost use Rattle.entry.specs.Shape.{shape_at, content_at, selector_at, is_attribute_of_term, refused_if, Followed, placeable_end};
ghost use Rattle.entry.specs.Shape.{start_of, start_at, Named, StandsAt};
ghost use Rattle.entry.specs.declared.source.Source.{Source};
ghost use Rattle.entry.specs.Argument.{is_argument, NameIs, EndsPositional, Argued};

use crate::errors::Stop;
use crate::helper::is_callee;
use crate::parser::Parser;
use crate::source::Source;
use syntax::errors::{CharRange, ErrorKind};
use syntax::kind::{CLOSING, Kind};
use syntax::layout::SIZES;

// What was read, of ast::InlineExpression and ast::Expression: of a message reference, where its identifier ends; of a
// message or term reference, whether it has an attribute.
#[derive(Clone, Copy)]
pub enum Expression {
    StringLiteral,
    NumberLiteral,
    VariableReference,
    FunctionReference,
    MessageReference { end: usize, attribute: bool },
    TermReference { attribute: bool },
    Placeable,
    Select,
}

// What an inline expression starts with.
#[derive(Clone, Copy)]
pub enum Start {
    String,
    Number,
    Reference,
    Term,
    Variable,
    Placeable,
}

// An argument of a call.
#[derive(Clone, Copy)]
pub enum Argument {
    Positional,
    Named,
}

// What the inline expression starts with that stands at the start.
#[tactic(auto, unfolding(crate::specs::Shape::start_of, crate::specs::Shape::no_start, crate::specs::Shape::non_literal_start, syntax::specs::Bytes::is_digit, syntax::specs::Bytes::is_letter, syntax::specs::Bytes::starts))]
fn start_of(rest: &[u8], only_literal: bool) -> Result<Start, ErrorKind>
    ensures { result ≡ start_of only_literal rest.now }
{
    match rest {
        [b'"', ..] => Ok(Start::String),
        [b'0'..=b'9', ..] => Ok(Start::Number),
        [b'a'..=b'z' | b'A'..=b'Z', ..] => Ok(Start::Reference),
        _ if only_literal => Err(ErrorKind::ExpectedLiteral),
        [b'-', b'a'..=b'z' | b'A'..=b'Z', ..] => Ok(Start::Term),
        [b'-', ..] => Ok(Start::Number),
        [b'$', ..] => Ok(Start::Variable),
        [b'{', ..] => Ok(Start::Placeable),
        _ => Err(ErrorKind::ExpectedInlineExpression),
    }
}

// ---- get_expression

impl Source<'_> {
    // Whether an inline expression can be a selector.
    fn check_selector(self, exp: Expression) -> Result<(), Stop>
        ensures { result ≡ selector_at self.entry.ptr exp }
    {
        match exp {
            Expression::MessageReference {
                attribute: true,
                ..
            } => { self.error(ErrorKind::MessageAttributeAsSelector) }
            Expression::MessageReference { .. } => self.error(
                ErrorKind::MessageReferenceAsSelector,
            ),
            Expression::TermReference { attribute: false } => {
                self.error(ErrorKind::TermReferenceAsSelector)
            }
            Expression::Placeable | Expression::Select => {
                self.error(ErrorKind::ExpectedSimpleExpressionAsSelector)
            }
            _ => Ok(()),
        }
    }

    // A term's attribute can't stand in braces by itself.
    fn check_placeable(self, exp: Expression) -> Result<(), Stop>
        ensures { result ≡ refused_if (is_attribute_of_term exp) self.entry.ptr TermAttributeAsPlaceable }
    {
        if let Expression::TermReference { attribute: true } = exp {
            return self.error(ErrorKind::TermAttributeAsPlaceable);
        }
        Ok(())
    }

    // Whether a select's variants follow an inline expression; then up to the first.
    pub(crate) fn after_inline(&mut self, exp: Expression) -> Result<bool, Stop>
        ensures { Followed self.old self.new exp result }
    {
        self.skip_blank();
        if !self.bytes[self.ptr..].starts_with(b"->") {
            self.check_placeable(exp)?;
            return Ok(false);
        }
        self.check_selector(exp)?;
        self.ptr += 2;
        self.skip_blank_inline();
        if !self.skip_eol() {
            return self.error(ErrorKind::ExpectedCharRange(CharRange::LineEnd));
        }
        self.skip_blank();
        Ok(true)
    }

    // From the end of a placeable's expression on, with the second test for a term's attribute.
    pub(crate) fn end_placeable(&mut self, exp: Expression) -> Result<(), Stop>
        ensures { Finds self.old self.new (placeable_end (is_attribute_of_term exp) (rest self.old)) result }
    {
        self.skip_blank_inline();
        self.expect_byte(b'}')?;
        self.check_placeable(exp)
    }

    // ---- get_inline_expression

    pub(crate) fn inline_start(self, only_literal: bool) -> Result<Start, Stop>
        ensures { result ≡ start_at self.entry.ptr (start_of only_literal (rest self.entry)) }
    {
        match start_of(&self.bytes[self.ptr..], only_literal) {
            Ok(start) => Ok(start),
            Err(kind) => self.error(kind),
        }
    }

    // Only an identifier of the bytes of a callee can be called.
    fn check_callee(self, start: usize, end: usize) -> Result<(), Stop>
        requires { (start ≤ end) × (end ≤ length self.bytes.now) }
        ensures { result ≡ refused_if (not (all is_callee_part (slice_range self.entry.bytes.now start end))) self.entry.ptr ForbiddenCallee }
    {
        if is_callee(&self.bytes[start..end]) {
            Ok(())
        } else {
            self.error(ErrorKind::ForbiddenCallee)
        }
    }

    // ---- get_call_arguments

    pub(crate) fn is_argument(self) -> bool
        ensures { result ≡ is_argument (rest self.entry) }
    {
        self.starts(|b| b != b')')
    }

    // Where the name ends that an inline expression is: a message reference without an attribute, if a ':' follows past blanks.
    fn argument_name(&mut self, exp: Expression) -> Option<usize>
        ensures { NameIs self.old self.new exp result }
    {
        let Expression::MessageReference {
            end,
            attribute: false,
        } = exp
        else {
            return None;
        };
        self.skip_blank();
        if self.is_current_byte(b':') {
            Some(end)
        } else {
            None
        }
    }

    // The blanks and the comma after an argument.
    fn skip_separator(&mut self)
        ensures { (names : List (List ℕ)) → Goes self.old self.new (separator names (rest self.old)) names }
    {
        self.skip_blank();
        self.take_byte_if(b',');
        self.skip_blank();
    }

    // A positional argument was read; none may follow a named one.
    fn end_positional(&mut self, after_named: bool) -> Result<Argument, Stop>
        ensures { EndsPositional after_named self.old self.new result }
    {
        if after_named {
            return self.error(ErrorKind::PositionalArgumentFollowsNamed);
        }
        self.skip_separator();
        Ok(Argument::Positional)
    }
}

impl Parser<'_, '_, '_> {
    // The name of the named argument that the i-th mark opens.
    fn name_at(&self, i: usize) -> &[u8]
        requires { HasName self.now.source.bytes.now self.now.tree.now.words.now self.now.tree.now.capacity i }
        ensures { result.now ≡ name_at self.now.source.bytes.now self.now.tree.now.words.now self.now.tree.now.capacity i }
    {
        // By index: tried as `place(i + 1)`, and that this sum fits did not close, as nothing bounds i but the words' length.
        let places = SIZES + self.tree.capacity + i;
        let start = self.tree.words[places + 1] as usize;
        let end = self.tree.words[places + 2] as usize;
        &self.source.bytes[start..end]
    }

    // Whether an argument of this name is among the named arguments from the `from`-th mark up to the one after `to`.
    fn is_named_before(&self, name: &[u8], from: usize, to: usize) -> bool
        requires { HasNames self.now.source.bytes.now self.now.tree.now.words.now self.now.tree.now.capacity from to }
        ensures { Among self.now.source.bytes.now self.now.tree.now.words.now self.now.tree.now.capacity from to name.now result }
    {
        let mut depth: usize = 0;
        for i in from..to {
            if depth == 0 && self.name_at(i) == name {
                return true;
            }
            if self.tree.kind(i) < CLOSING {
                depth += 1;
            } else {
                depth -= 1;
            }
        }
        false
    }

    fn get_string_literal(&mut self) -> Result<Expression, Stop>
        requires { Room self.old 0 }
        ensures same { self.new.tree.ghost_name ≡ self.old.tree.ghost_name }
        ensures reads { Reads (shape_at self.old.source.ptr) self.old self.new result
            (as_string (string_literal (rest self.old.source))) }
    {
        let start = self.source.ptr + 1;
        self.source.skip_string_literal()?;
        self.tree
            .text(Kind::StringLiteral, start, self.source.ptr - 1);
        Ok(Expression::StringLiteral)
    }

    fn get_variable_reference(&mut self) -> Result<Expression, Stop>
        requires begins { starts_with Byte.dollar (rest self.old.source) ≡ true }
        requires room { Room self.old 0 }
        ensures same { self.new.tree.ghost_name ≡ self.old.tree.ghost_name }
        ensures reads { Reads (shape_at self.old.source.ptr) self.old self.new result
            (as_inline (variable_reference (rest self.old.source))) }
    {
        self.tree.open(Kind::VariableReference);
        self.source.ptr += 1;
        self.get_identifier(Kind::Identifier)?;
        self.tree.close(Kind::VariableReference);
        Ok(Expression::VariableReference)
    }

    // A message reference, whose identifier from start to end was passed with the blanks after it.
    fn get_message_reference(&mut self, start: usize, end: usize) -> Result<Expression, Stop>
        requires { Named self.old start end }
        ensures same { self.new.tree.ghost_name ≡ self.old.tree.ghost_name }
        ensures reads { (sub : Inside) (s : Source) → StandsAt start self.old.source s
            → ReadsOf (shape_at start) s self.new.source self.old.tree.now self.new.tree.now result
            (as_inline (reference sub (rest s))) }
    {
        self.tree.open(Kind::MessageReference);
        self.tree.text(Kind::Identifier, start, end);
        let attribute = self.get_attribute_accessor()?;
        self.tree.close(Kind::MessageReference);
        Ok(Expression::MessageReference { end, attribute })
    }

    // ---- the cycle

    #[cycle(placeable)]
    pub(crate) fn get_expression(&mut self, left: usize) -> Result<Expression, Stop>
        requires { Room self.old 0 }
        ensures same { self.new.tree.ghost_name ≡ self.old.tree.ghost_name }
        ensures reads { Reads (content_at self.old.source.ptr) self.old self.new result
            (get_expression (level left) (rest self.old.source)) }
    {
        let first = self.tree.count;
        let exp = self.get_inline_expression(left, false)?;
        if !self.source.after_inline(exp)? {
            return Ok(exp);
        }
        self.tree.insert(first, Kind::Select);
        self.get_variants(left)?;
        self.tree.close(Kind::Select);
        Ok(Expression::Select)
    }

    #[cycle(placeable)]
    pub(crate) fn get_inline_expression(
        &mut self,
        left: usize,
        only_literal: bool,
    ) -> Result<Expression, Stop>
        requires { Room self.old 0 }
        ensures same { self.new.tree.ghost_name ≡ self.old.tree.ghost_name }
        ensures reads { Reads (shape_at self.old.source.ptr) self.old self.new result
            (get_inline_expression (level left) only_literal (rest self.old.source)) }
    {
        match self.source.inline_start(only_literal)? {
            Start::String => self.get_string_literal(),
            Start::Number => {
                self.get_number_literal(Kind::NumberLiteral)?;
                Ok(Expression::NumberLiteral)
            }
            Start::Reference => self.get_reference(left),
            Start::Term => self.get_term_reference(left),
            Start::Variable => self.get_variable_reference(),
            Start::Placeable => {
                self.tree.open(Kind::Placeable);
                self.get_placeable(left)?;
                self.tree.close(Kind::Placeable);
                Ok(Expression::Placeable)
            }
        }
    }

    // A term reference, from its '-' on.
    #[cycle(placeable)]
    fn get_term_reference(&mut self, left: usize) -> Result<Expression, Stop>
        requires begins { starts_with Byte.minus (rest self.old.source) ≡ true }
        requires room { Room self.old 0 }
        ensures same { self.new.tree.ghost_name ≡ self.old.tree.ghost_name }
        ensures reads { Reads (shape_at self.old.source.ptr) self.old self.new result
            (as_inline (term_reference (level left) (rest self.old.source))) }
    {
        self.tree.open(Kind::TermReference);
        self.source.ptr += 1;
        self.get_identifier(Kind::Identifier)?;
        let attribute = self.get_attribute_accessor()?;
        self.get_call_arguments(left)?;
        self.tree.close(Kind::TermReference);
        Ok(Expression::TermReference { attribute })
    }

    // A function or message reference, from its first letter on. Which it is shows only after its name, past blanks.
    #[cycle(placeable)]
    fn get_reference(&mut self, left: usize) -> Result<Expression, Stop>
        requires begins { starts is_letter (rest self.old.source) ≡ true }
        requires room { Room self.old 0 }
        ensures same { self.new.tree.ghost_name ≡ self.old.tree.ghost_name }
        ensures reads { Reads (shape_at self.old.source.ptr) self.old self.new result
            (as_inline (reference (level left) (rest self.old.source))) }
    {
        let start = self.source.ptr;
        self.source.skip_name();
        let end = self.source.ptr;
        let mut ahead = self.source;
        ahead.skip_blank();
        if !ahead.is_current_byte(b'(') {
            self.source = ahead;
            return self.get_message_reference(start, end);
        }
        self.tree.open(Kind::FunctionReference);
        self.tree.text(Kind::Identifier, start, end);
        self.get_call_arguments(left)?;
        self.source.check_callee(start, end)?;
        self.tree.close(Kind::FunctionReference);
        Ok(Expression::FunctionReference)
    }

    // Whether there are arguments.
    #[cycle(placeable)]
    fn get_call_arguments(&mut self, left: usize) -> Result<bool, Stop>
        requires { Room self.old 0 }
        ensures same { self.new.tree.ghost_name ≡ self.old.tree.ghost_name }
        ensures reads { Reads plain self.old self.new result
            (get_call_arguments (level left) (rest self.old.source)) }
    {
        self.source.skip_blank();
        if !self.source.is_current_byte(b'(') {
            return Ok(false);
        }
        if left == 0 {
            return Err(Stop::TooDeep);
        }
        self.tree.open(Kind::Arguments);
        self.source.ptr += 1;
        self.source.skip_blank();
        self.get_arguments(left - 1)?;
        self.source.expect_byte(b')')?;
        self.tree.close(Kind::Arguments);
        Ok(true)
    }

    #[cycle(placeable)]
    fn get_arguments(&mut self, left: usize) -> Result<(), Stop>
        requires { Room self.old 0 }
        ensures same { self.new.tree.ghost_name ≡ self.old.tree.ghost_name }
        ensures reads { Reads silent self.old self.new result
            (repeat (argument_turn (level left)) [] (rest self.old.source)) }
    {
        let mut named = self.tree.count;
        while self.source.is_argument() {
            if let Argument::Positional = self.get_argument(left, named)? {
                named = self.tree.count;
            }
        }
        Ok(())
    }

    // An argument. The marks from the `named`-th on are of the named arguments just before it.
    #[cycle(placeable)]
    fn get_argument(&mut self, left: usize, named: usize) -> Result<Argument, Stop>
        requires has_names { HasNames self.old.source.bytes.now self.old.tree.now.words.now self.old.tree.now.capacity named self.old.tree.now.count }
        requires room { Room self.old 0 }
        ensures same { self.new.tree.ghost_name ≡ self.old.tree.ghost_name }
        ensures reads { (names : List (List ℕ))
            → Names self.old.source.bytes.now self.old.tree.now.words.now self.old.tree.now.capacity named self.old.tree.now.count names
            → Argued (level left) self.old self.new named names result }
    {
        let start = self.source.ptr;
        let first = self.tree.count;
        let exp = self.get_inline_expression(left, false)?;
        let Some(end) = self.source.argument_name(exp) else {
            return self.source.end_positional(named < first);
        };
        let bytes = self.source.bytes;
        if self.is_named_before(&bytes[start..end], named, first) {
            let kind = ErrorKind::DuplicatedNamedArgument(start as u32, end as u32);
            return self.source.error(kind);
        }
        // The marks of the reference give way to those of the name.
        self.tree.count = first;
        self.tree.open(Kind::NamedArgument);
        self.tree.text(Kind::Identifier, start, end);
        self.source.ptr += 1;
        self.source.skip_blank();
        self.get_inline_expression(left, true)?;
        self.tree.close(Kind::NamedArgument);
        self.source.skip_separator();
        Ok(Argument::Named)
    }

    // From '{' through '}'.
    #[cycle(placeable)]
    pub(crate) fn get_placeable(&mut self, left: usize) -> Result<(), Stop>
        requires begins { starts_with Byte.open_brace (rest self.old.source) ≡ true }
        requires room { self.old.tree.now.count ≤ tree_capacity (self.old.source.ptr + 1) }
        ensures same { self.new.tree.ghost_name ≡ self.old.tree.ghost_name }
        ensures reads { Reads silent self.old self.new result ((level left).braced (rest self.old.source)) }
    {
        if left == 0 {
            return Err(Stop::TooDeep);
        }
        self.source.ptr += 1;
        self.source.skip_blank();
        let exp = self.get_expression(left - 1)?;
        self.source.end_placeable(exp)
    }

    #[cycle(placeable)]
    fn get_variants(&mut self, left: usize) -> Result<(), Stop>
        requires { Room self.old 0 }
        ensures same { self.new.tree.ghost_name ≡ self.old.tree.ghost_name }
        ensures reads { Reads silent self.old self.new result (get_variants (level left) (rest self.old.source)) }
    {
        let mut has_default = false;
        while let Some(default) = self.source.next_variant(has_default)? {
            self.get_variant(default, left)?;
            has_default = has_default || default;
        }
        Ok(())
    }

    // A variant from its '[' on, with the blanks after it.
    #[cycle(placeable)]
    fn get_variant(&mut self, default: bool, left: usize) -> Result<(), Stop>
        requires begins { starts_with Byte.open_bracket (rest self.old.source) ≡ true }
        requires room { Room self.old 0 }
        ensures same { self.new.tree.ghost_name ≡ self.old.tree.ghost_name }
        ensures reads { (has : Bool) → Reads silent self.old self.new result
            (variant_with (level left) default has (rest self.old.source)) }
    {
        let kind = if default {
            Kind::DefaultVariant
        } else {
            Kind::Variant
        };
        self.tree.open(kind);
        self.source.ptr += 1;
        self.get_variant_key()?;
        self.get_value(left)?;
        self.tree.close(kind);
        self.source.skip_blank();
        Ok(())
    }

    // A pattern that must be there.
    #[cycle(placeable)]
    pub(crate) fn get_value(&mut self, left: usize) -> Result<(), Stop>
        requires { Room self.old 2 }
        ensures same { self.new.tree.ghost_name ≡ self.old.tree.ghost_name }
        ensures reads { Reads silent self.old self.new result
            (get_value (level left) (rest self.old.source)) }
    {
        if self.get_pattern(left)? {
            Ok(())
        } else {
            self.source.error(ErrorKind::MissingValue)
        }
    }

    // Whether there is a pattern.
    #[cycle(placeable)]
    pub(crate) fn get_pattern(&mut self, left: usize) -> Result<bool, Stop>
        requires { Room self.old 2 }
        ensures same { self.new.tree.ghost_name ≡ self.old.tree.ghost_name }
        ensures reads { Reads plain self.old self.new result (get_pattern (level left) (rest self.old.source)) }
    {
        let before = self.tree.count;
        self.tree.open(Kind::Pattern);
        let mut st = self.source.start_pattern();
        while self.source.ptr < self.source.bytes.len() {
            if self.source.is_current_byte(b'{') {
                self.tree.open(Kind::Placeable);
                self.get_placeable(left)?;
                self.tree.close(Kind::Placeable);
                st = st.with_placeable(self.tree.count);
            } else {
                let Some(next) = self.text_turn(st)? else {
                    break;
                };
                st = next;
            }
        }
        Ok(self.end_pattern(st, before))
    }
}
