// The kinds of nodes, what ast/mod.rs declares, and their numbers, as Kind in specs/ has them. A T kind has a text.
ghost use Rattle.std.specs.Prelude.{◌≡◌, ◌≢◌, MatchResult};
ghost use Rattle.syntax.specs.Kind.{number_of, closing};

#[derive(Clone, Copy, PartialEq, Eq, Debug)]
pub enum Kind {
    Message = 1,
    Term = 2,
    Comment = 3,
    GroupComment = 4,
    ResourceComment = 5,
    // A regular comment that is attached to the message or term right after it.
    AttachedComment = 6,
    // T.
    Junk = 7,
    // T.
    CommentLine = 8,
    // T.
    Identifier = 9,
    Attribute = 10,
    Pattern = 11,
    // T.
    Text = 12,
    Placeable = 13,
    Select = 14,
    Variant = 15,
    DefaultVariant = 16,
    // T.
    NumberKey = 17,
    // T.
    IdentifierKey = 18,
    // T, without the quotes.
    StringLiteral = 19,
    // T.
    NumberLiteral = 20,
    VariableReference = 21,
    FunctionReference = 22,
    MessageReference = 23,
    TermReference = 24,
    Arguments = 25,
    NamedArgument = 26,
}

impl Kind {
    // The number of a node's opening mark.
    pub fn number(self) -> u32
        ensures { result ≡ number_of self }
    {
        self as u32
    }

    // The number of a node's closing mark.
    pub fn closing(self) -> u32
        ensures { result ≡ closing (number_of self) }
    {
        CLOSING + self.number()
    }
}

// A number that no kind has.
#[derive(Clone, Copy, PartialEq, Eq, Debug)]
pub struct NoKind;

impl TryFrom<u32> for Kind {
    ghost use Rattle.syntax.specs.Kind.{Kind};

    type Error = NoKind;

    ghost try_from_gives = { λ number r.
        MatchResult r (λ kind. number_of kind ≡ number) (λ e. (kind : Kind) → number_of kind ≢ number) };

    // The kind that has a number.
    fn try_from(number: u32) -> Result<Self, NoKind> {
        match number {
            1 => Ok(Kind::Message),
            2 => Ok(Kind::Term),
            3 => Ok(Kind::Comment),
            4 => Ok(Kind::GroupComment),
            5 => Ok(Kind::ResourceComment),
            6 => Ok(Kind::AttachedComment),
            7 => Ok(Kind::Junk),
            8 => Ok(Kind::CommentLine),
            9 => Ok(Kind::Identifier),
            10 => Ok(Kind::Attribute),
            11 => Ok(Kind::Pattern),
            12 => Ok(Kind::Text),
            13 => Ok(Kind::Placeable),
            14 => Ok(Kind::Select),
            15 => Ok(Kind::Variant),
            16 => Ok(Kind::DefaultVariant),
            17 => Ok(Kind::NumberKey),
            18 => Ok(Kind::IdentifierKey),
            19 => Ok(Kind::StringLiteral),
            20 => Ok(Kind::NumberLiteral),
            21 => Ok(Kind::VariableReference),
            22 => Ok(Kind::FunctionReference),
            23 => Ok(Kind::MessageReference),
            24 => Ok(Kind::TermReference),
            25 => Ok(Kind::Arguments),
            26 => Ok(Kind::NamedArgument),
            _ => Err(NoKind),
        }
    }
}

// What the kind of a node's closing mark has more than the kind of its opening mark.
pub const CLOSING: u32 = 100;
