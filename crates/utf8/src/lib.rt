// UTF-8: whether bytes are well formed, and where a character starts.
#![tactic(auto)]

ghost use Rattle.std.specs.Prelude.{◌≡◌};
ghost use Rattle.utf8.specs.Utf8.{first_ill_formed, is_boundary, checked_of, valid_length};

use simdutf8::compat::from_utf8;

// Where a source stops being UTF-8: the offset of the first byte from which no well-formed sequence can be read.
#[derive(Clone, Copy, Debug, PartialEq, Eq)]
pub struct Utf8Error {
    pub valid_up_to: usize,
}

// How many bytes are looked at in one go: simdutf8 tells a fault only when it has seen all that it is given.
const WINDOW: usize = 1024;

// How many bytes stand before the first fault, or in all.
fn valid_length(bytes: &[u8]) -> usize
    ensures { result ≡ valid_length bytes.now }
{
    match from_utf8(bytes) {
        Ok(_) => bytes.len(),
        Err(fault) => fault.valid_up_to(),
    }
}

// Whether the source is well formed. A window that ends inside a character is followed by one that starts with it.
pub fn check(source: &[u8]) -> Result<(), Utf8Error>
    ensures { result ≡ checked_of (first_ill_formed source.now) }
{
    let mut at = 0;
    while at < source.len() {
        let end = source.len().min(at + WINDOW);
        let valid = valid_length(&source[at..end]);
        if valid == 0 {
            return Err(Utf8Error { valid_up_to: at });
        }
        at += valid;
    }
    Ok(())
}

// Rust's `is_char_boundary`, of bytes.
#[tactic(auto, unfolding(crate::specs::Utf8::is_boundary, crate::specs::Utf8::is_continuation, crate::specs::Utf8::within))]
pub fn is_boundary(source: &[u8], at: usize) -> bool
    ensures { result ≡ is_boundary source.now at }
{
    match source.get(at) {
        Some(&b) => at == 0 || !(0x80..=0xBF).contains(&b),
        None => at == source.len(),
    }
}
