// The limits on a source, as Limits in specs/ has them.

// The most bytes.
pub const MAX_LENGTH: usize = 1_000_000;

// The most '{' and '(' that may be open at one time.
pub const MAX_OPEN: usize = 64;
