// errors.rs: what is wrong with an entry, and where.
ghost use Rattle.std.specs.Prelude.{◌≡◌};
ghost use Rattle.syntax.specs.Errors.{code_of, words_of};

// A range of characters that was wanted: "a-zA-Z", a line end, "0-9"; or one of another code, which no reading names.
#[derive(Clone, Copy, Debug, PartialEq, Eq)]
pub enum CharRange {
    Letters,
    LineEnd,
    Digits,
    Other(u8),
}

impl CharRange {
    fn code(self) -> u8
        ensures { result ≡ code_of self }
    {
        match self {
            CharRange::Letters => 1,
            CharRange::LineEnd => 2,
            CharRange::Digits => 3,
            CharRange::Other(code) => code,
        }
    }
}

// A byte or a range of characters that was wanted, or the span of a name or an escape in the source.
#[derive(Clone, Copy, Debug, PartialEq, Eq)]
pub enum ErrorKind {
    ExpectedToken(u8),
    ExpectedCharRange(CharRange),
    ExpectedMessageField(u32, u32),
    ExpectedTermField(u32, u32),
    ForbiddenCallee,
    MissingDefaultVariant,
    MissingValue,
    MultipleDefaultVariants,
    MessageReferenceAsSelector,
    TermReferenceAsSelector,
    MessageAttributeAsSelector,
    TermAttributeAsPlaceable,
    UnterminatedStringLiteral,
    PositionalArgumentFollowsNamed,
    DuplicatedNamedArgument(u32, u32),
    UnknownEscapeSequence(u8),
    InvalidUnicodeEscapeSequence(u32, u32),
    UnbalancedClosingBrace,
    ExpectedInlineExpression,
    ExpectedSimpleExpressionAsSelector,
    ExpectedLiteral,
}

// The position is from start to end. The Rust's slice, the junk, is known only where the entry's junk ends.
#[derive(Clone, Copy, Debug, PartialEq, Eq)]
pub struct ParserError {
    pub start: u32,
    pub end: u32,
    pub kind: ErrorKind,
}

// A kind as it stands in a list of errors: its number and its two arguments.
#[derive(Clone, Copy, Debug, PartialEq, Eq)]
pub struct KindWords {
    pub number: u32,
    pub first: u32,
    pub second: u32,
}

impl ErrorKind {
    pub fn words(self) -> KindWords
        ensures { result ≡ words_of self }
    {
        let (first, second) = self.arguments();
        KindWords {
            number: self.number(),
            first,
            second,
        }
    }

    fn number(self) -> u32
        ensures { result ≡ (words_of self).number }
    {
        match self {
            ErrorKind::ExpectedToken(_) => 1,
            ErrorKind::ExpectedCharRange(_) => 2,
            ErrorKind::ExpectedMessageField(_, _) => 3,
            ErrorKind::ExpectedTermField(_, _) => 4,
            ErrorKind::ForbiddenCallee => 5,
            ErrorKind::MissingDefaultVariant => 6,
            ErrorKind::MissingValue => 7,
            ErrorKind::MultipleDefaultVariants => 8,
            ErrorKind::MessageReferenceAsSelector => 9,
            ErrorKind::TermReferenceAsSelector => 10,
            ErrorKind::MessageAttributeAsSelector => 11,
            ErrorKind::TermAttributeAsPlaceable => 12,
            ErrorKind::UnterminatedStringLiteral => 13,
            ErrorKind::PositionalArgumentFollowsNamed => 14,
            ErrorKind::DuplicatedNamedArgument(_, _) => 15,
            ErrorKind::UnknownEscapeSequence(_) => 16,
            ErrorKind::InvalidUnicodeEscapeSequence(_, _) => 17,
            ErrorKind::UnbalancedClosingBrace => 18,
            ErrorKind::ExpectedInlineExpression => 19,
            ErrorKind::ExpectedSimpleExpressionAsSelector => 20,
            ErrorKind::ExpectedLiteral => 21,
        }
    }

    fn arguments(self) -> (u32, u32)
        ensures { (result.0 ≡ (words_of self).first) × (result.1 ≡ (words_of self).second) }
    {
        match self {
            ErrorKind::ExpectedToken(byte) | ErrorKind::UnknownEscapeSequence(byte) => {
                (u32::from(byte), 0)
            }
            ErrorKind::ExpectedCharRange(range) => (u32::from(range.code()), 0),
            ErrorKind::ExpectedMessageField(start, end)
            | ErrorKind::ExpectedTermField(start, end)
            | ErrorKind::DuplicatedNamedArgument(start, end)
            | ErrorKind::InvalidUnicodeEscapeSequence(start, end) => (start, end),
            _ => (0, 0),
        }
    }
}
