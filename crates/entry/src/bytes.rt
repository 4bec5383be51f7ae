// Tests on a byte, those of the grammar.
ghost use Rattle.std.specs.Prelude.{◌≡◌, ◌||◌, ◌==◌};
ghost use Rattle.syntax.specs.Byte as Byte;
ghost use Rattle.syntax.specs.Bytes.{is_digit, is_name_part, is_callee_part};

// A byte of an identifier after its first. Letters by a test of their own: in one with the others they come last in the machine's code,
// and names take twice as long.
#[tactic(auto, unfolding(syntax::specs::Bytes::is_name_part, syntax::specs::Bytes::is_letter, syntax::specs::Bytes::is_digit))]
pub fn is_name_part(b: u8) -> bool
    ensures { result ≡ is_name_part b }
{
    if b.is_ascii_alphabetic() {
        return true;
    }
    matches!(b, b'0'..=b'9' | b'-' | b'_')
}

// A byte of a callee.
#[tactic(auto, unfolding(syntax::specs::Bytes::is_callee_part, syntax::specs::Bytes::is_upper, syntax::specs::Bytes::is_digit))]
pub fn is_callee_part(b: u8) -> bool
    ensures { result ≡ is_callee_part b }
{
    b.is_ascii_uppercase() || b.is_ascii_digit() || b == b'-' || b == b'_'
}

// The first byte of a number.
#[tactic(auto, unfolding(syntax::specs::Bytes::is_digit))]
pub fn is_number_byte(b: u8) -> bool
    ensures { result ≡ (is_digit b || b == Byte.minus) }
{
    b.is_ascii_digit() || b == b'-'
}

pub fn is_space(b: u8) -> bool
    ensures { result ≡ (b == Byte.space) }
{
    b == b' '
}
