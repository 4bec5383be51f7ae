// core.rs: entries, and the parts of placeables and variants. get_placeable and get_variants themselves stand in expression.rt.
ghost use Rattle.std.specs.Prelude.{◌≡◌, ◌<◌, ◌^◌};
ghost use Rattle.syntax.specs.Kind.{number_of};
ghost use Rattle.syntax.specs.Errors.{fault_from_to};
ghost use Rattle.syntax.specs.Helper.{get_identifier, get_number_literal};
ghost use Rattle.syntax.specs.Expression.{level, get_attribute_accessor, get_variant_key, key_text};
ghost use Rattle.syntax.specs.Core.{get_attribute, get_attributes, fields, term_fields, as_message, as_term, get_entry};
ghost use Rattle.entry.specs.declared.errors.Stop.TheVariants.{Error};
ghost use Rattle.entry.specs.Did.{plain, silent, result_by};
ghost use Rattle.entry.specs.Reads.{rest, Room, Entered, Reads};
ghost use Rattle.entry.specs.Entry.{get_name, entry_of, fields_of};
ghost use Rattle.entry.specs.Next.{NextIs};

use crate::comment::Level;
use crate::errors::Stop;
use crate::parser::Parser;
use crate::source::Source;
use syntax::errors::{ErrorKind, ParserError};
use syntax::kind::Kind;

// What an entry is. A comment has its level.
#[derive(Clone, Copy, PartialEq, Eq, Debug)]
pub enum Entry {
    Message,
    Term,
    Comment(Level),
}

// What a message or a term has: its identifier's length, whether it has a pattern, and how many attributes.
#[derive(Clone, Copy)]
pub struct Fields {
    pub name: usize,
    pub value: bool,
    pub attributes: usize,
}

impl Source<'_> {
    // Whether a variant starts here, and then whether it is the default; `has_default` says that one of those before it was. Up to its
    // '['.
    pub(crate) fn next_variant(&mut self, has_default: bool) -> Result<Option<bool>, Stop>
        ensures { NextIs self.old self.new has_default result }
    {
        let default = self.take_byte_if(b'*');
        if default && has_default {
            return self.error(ErrorKind::MultipleDefaultVariants);
        }
        if self.is_current_byte(b'[') {
            return Ok(Some(default));
        }
        if default || has_default {
            return Ok(None);
        }
        self.error(ErrorKind::MissingDefaultVariant)
    }
}

impl Parser<'_, '_, '_> {
    // Answers the identifier's length.
    pub(crate) fn get_identifier(&mut self, kind: Kind) -> Result<usize, Stop>
        requires { Entered self.old }
        ensures same { self.new.tree.ghost_name ≡ self.old.tree.ghost_name }
        ensures reads { Reads plain self.old self.new result (get_identifier (number_of kind) (rest self.old.source)) }
    {
        let start = self.source.ptr;
        self.source.skip_identifier()?;
        let end = self.source.ptr;
        self.tree.text(kind, start, end);
        Ok(end - start)
    }

    pub(crate) fn get_number_literal(&mut self, kind: Kind) -> Result<(), Stop>
        requires { Entered self.old }
        ensures same { self.new.tree.ghost_name ≡ self.old.tree.ghost_name }
        ensures reads { Reads silent self.old self.new result (get_number_literal (number_of kind) (rest self.old.source)) }
    {
        let start = self.source.ptr;
        self.source.skip_number()?;
        self.tree.text(kind, start, self.source.ptr);
        Ok(())
    }

    // The identifier of a message, a term or an attribute, and its '='. Answers the identifier's length. Its marks come last, since
    // the machine's code reads the place and the source anew after a write. Always inlined: else junk of lines of one byte takes a twelfth
    // more instructions.
    #[inline(always)]
    fn get_name(&mut self) -> Result<usize, Stop>
        requires { Entered self.old }
        ensures same { self.new.tree.ghost_name ≡ self.old.tree.ghost_name }
        ensures reads { Reads plain self.old self.new result (get_name (rest self.old.source)) }
    {
        let start = self.source.ptr;
        self.source.skip_identifier()?;
        let end = self.source.ptr;
        self.source.skip_blank_inline();
        self.source.expect_byte(b'=')?;
        self.tree.text(Kind::Identifier, start, end);
        Ok(end - start)
    }

    // After the '.'.
    fn get_attribute(&mut self, left: usize) -> Result<(), Stop>
        requires { Room self.old 1 }
        ensures same { self.new.tree.ghost_name ≡ self.old.tree.ghost_name }
        ensures reads { Reads silent self.old self.new result (get_attribute (level left) (rest self.old.source)) }
    {
        self.tree.open(Kind::Attribute);
        self.get_name()?;
        self.get_value(left)?;
        self.tree.close(Kind::Attribute);
        Ok(())
    }

    // Answers how many attributes there are.
    fn get_attributes(&mut self, left: usize) -> Result<usize, Stop>
        requires { Room self.old 0 }
        ensures same { self.new.tree.ghost_name ≡ self.old.tree.ghost_name }
        ensures reads { Reads plain self.old self.new result (get_attributes (level left) (rest self.old.source)) }
    {
        let mut count = 0;
        loop {
            let line_start = self.source.ptr;
            let before = self.tree.count;
            self.source.skip_blank_inline();
            if !self.source.take_byte_if(b'.') {
                self.source.ptr = line_start;
                return Ok(count);
            }
            let attribute = self.get_attribute(left);
            if let Err(stop) = attribute {
                if let Stop::TooDeep = stop {
                    return Err(stop);
                }
                // Its line is not read, and its marks are cut off.
                self.source.ptr = line_start;
                self.tree.count = before;
                return Ok(count);
            }
            count += 1;
        }
    }

    // What messages and terms have in common.
    fn get_fields(&mut self, left: usize) -> Result<Fields, Stop>
        requires { Entered self.old }
        ensures same { self.new.tree.ghost_name ≡ self.old.tree.ghost_name }
        ensures reads { Reads fields_of self.old self.new result (fields (level left) (rest self.old.source)) }
    {
        let name = self.get_name()?;
        let value = self.get_pattern(left)?;
        self.source.skip_blank_block();
        let attributes = self.get_attributes(left)?;
        Ok(Fields {
            name,
            value,
            attributes,
        })
    }

    // An error whose position is from an entry's start up to here.
    fn error_from(&self, start: usize, kind: ErrorKind) -> Stop
        requires { start < 2 ^ 32 }
        ensures { result ≡ Error (fault_from_to kind start self.now.source.ptr) }
    {
        Stop::Error(ParserError {
            start: start as u32,
            end: self.source.ptr as u32,
            kind,
        })
    }

    pub(crate) fn get_message(&mut self, left: usize) -> Result<(), Stop>
        requires { Entered self.old }
        ensures same { self.new.tree.ghost_name ≡ self.old.tree.ghost_name }
        ensures reads { Reads silent self.old self.new result
            (as_message (fields (level left) (rest self.old.source))) }
    {
        let start = self.source.ptr;
        let fields = self.get_fields(left)?;
        if !fields.value && fields.attributes == 0 {
            let end = start + fields.name;
            let kind = ErrorKind::ExpectedMessageField(start as u32, end as u32);
            return Err(self.error_from(start, kind));
        }
        Ok(())
    }

    pub(crate) fn get_term(&mut self, left: usize) -> Result<(), Stop>
        requires { Entered self.old }
        ensures same { self.new.tree.ghost_name ≡ self.old.tree.ghost_name }
        ensures reads { Reads silent self.old self.new result
            (as_term (term_fields (level left) (rest self.old.source))) }
    {
        let start = self.source.ptr;
        self.source.expect_byte(b'-')?;
        let name = self.source.ptr;
        let fields = self.get_fields(left)?;
        if !fields.value {
            let end = name + fields.name;
            let kind = ErrorKind::ExpectedTermField(name as u32, end as u32);
            return Err(self.error_from(start, kind));
        }
        Ok(())
    }

    // What stands in an entry: the marks of its node are the caller's to write.
    pub(crate) fn get_entry(&mut self, left: usize) -> Result<Entry, Stop>
        requires { Entered self.old }
        ensures same { self.new.tree.ghost_name ≡ self.old.tree.ghost_name }
        ensures reads { Reads plain self.old self.new (result_by entry_of result)
            (get_entry (level left) (rest self.old.source)) }
    {
        if self.source.is_current_byte(b'#') {
            // Of a line that starts with '#' there is a level.
            let level = self.get_comment()?.unwrap();
            return Ok(Entry::Comment(level));
        }
        if self.source.is_current_byte(b'-') {
            self.get_term(left)?;
            return Ok(Entry::Term);
        }
        self.get_message(left)?;
        Ok(Entry::Message)
    }

    // Whether there is an attribute.
    pub(crate) fn get_attribute_accessor(&mut self) -> Result<bool, Stop>
        requires { Room self.old 0 }
        ensures same { self.new.tree.ghost_name ≡ self.old.tree.ghost_name }
        ensures reads { Reads plain self.old self.new result (get_attribute_accessor (rest self.old.source)) }
    {
        if !self.source.take_byte_if(b'.') {
            return Ok(false);
        }
        self.get_identifier(Kind::Identifier)?;
        Ok(true)
    }

    // After the '[', through the ']'.
    pub(crate) fn get_variant_key(&mut self) -> Result<(), Stop>
        requires { Room self.old 0 }
        ensures same { self.new.tree.ghost_name ≡ self.old.tree.ghost_name }
        ensures reads { Reads silent self.old self.new result (get_variant_key (rest self.old.source)) }
    {
        self.source.skip_blank();
        self.get_key()?;
        self.source.skip_blank();
        self.source.expect_byte(b']')
    }

    fn get_key(&mut self) -> Result<(), Stop>
        requires { Room self.old 0 }
        ensures same { self.new.tree.ghost_name ≡ self.old.tree.ghost_name }
        ensures reads { Reads silent self.old self.new result (key_text (rest self.old.source)) }
    {
        if self.source.is_number_start() {
            self.get_number_literal(Kind::NumberKey)
        } else {
            self.get_identifier(Kind::IdentifierKey)?;
            Ok(())
        }
    }
}
