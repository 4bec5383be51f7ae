// The source that a program reads from an input.
#![tactic(auto)]

ghost use Rattle.std.specs.Prelude.{◌≡◌, ◌<◌, ◌≤◌, length, take, IfOk, IfSome};

use std::io;
use std::io::Read;

// Why there is no source. No Display, and no function for what three programs do with it: each says it in a sentence with its own limit.
#[derive(Clone, Copy, Debug)]
pub enum InputError {
    Unreadable,
    TooLong,
}

// Reads an input to its end into a buffer, and answers how many bytes it has: fewer than the buffer, so that a longer input is not
// cut.
pub fn read_source<R: Read>(input: &mut R, buffer: &mut [u8]) -> Result<usize, InputError>
    ensures fits { IfOk result (λ n. n < length buffer.old) }
    ensures bytes { IfOk result (λ n. IfSome (R.remaining input.old) (λ bytes. take n buffer.new ≡ bytes)) }
    ensures too_long { result ≡ Err InputError.TooLong
        → IfSome (R.remaining input.old) (λ bytes. length buffer.old ≤ length bytes) }
{
    let mut length = 0;
    // A loop of its own: no contract says which bytes std's `copy` into a slice leaves there. It reads again where a read was
    // interrupted, and has a bound, since no reader promises an end.
    for _ in 0..u64::MAX {
        if length >= buffer.len() {
            return Err(InputError::TooLong);
        }
        match input.read(&mut buffer[length..]) {
            Ok(0) => return Ok(length),
            Ok(n) => length += n,
            Err(error) if error.kind() == io::ErrorKind::Interrupted => {}
            Err(_) => return Err(InputError::Unreadable),
        }
    }
    Err(InputError::Unreadable)
}
