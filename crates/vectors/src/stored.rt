// What the stored cases of both calls share: each has numbers of four bytes at its head, then the start of its source, then a
// listing. The first byte of a number is its lowest.
ghost use Rattle.std.specs.Prelude.{◌+◌, ◌≤◌, ◌<◌, ◌≡◌, Bool, length, IfOk, IfSome};
ghost use Rattle.std.specs.Io.KnownBytes.{Consumes};
ghost use Rattle.vectors.specs.Stored.{short_at, long_at, Repeats};
ghost use Rattle.vectors.specs.Agreement.{Tells};

use crate::room::{LISTING_ROOM, LONGEST, Room};
use std::io;
use std::io::Read;

// The bytes of a number.
pub const SHORT: usize = 2;

pub const LONG: usize = 4;

// A case as the N bytes at its head tell it.
pub trait Stored<const N: usize>: Copy + From<[u8; N]> {
    ghost use Rattle.vectors.specs.declared.room.Room.{Room};

    // When the room is large enough for a case, and what a replay makes of the room and answers.
    ghost fits: { Self → Type 0 };

    ghost replays: { Self → (before after : Room) → Bool → Type 0 };

    // Whether the room is large enough.
    fn fits(self) -> bool
        ensures { Tells result (fits self) };

    // How many bytes of the source are stored, and how many of the listing.
    fn sizes(self) -> (usize, usize)
        requires { fits self }
        ensures { (result.0 ≤ LONGEST) × (result.1 ≤ LISTING_ROOM) };

    // Replays the case, whose stored bytes and listing stand at the start of the room.
    fn replay(self, room: &mut Room) -> bool
        requires { fits self }
        ensures { replays self room.old room.new result };

    // A head has a byte, and is small.
    ghost head_size: { (1 ≤ N) × (N < 256) };
}

// The number of two bytes.
pub fn short(bytes: &[u8; SHORT]) -> u32
    ensures { result ≡ short_at bytes.now 0 }
{
    u32::from(u16::from_le_bytes(*bytes))
}

// The number of the four bytes at a place. Not of an array, as `short`: a head's chunks would be told apart by an index too.
pub fn long(bytes: &[u8], at: usize) -> u32
    requires { at + 4 ≤ length bytes.now }
    ensures { result ≡ long_at bytes.now at }
{
    u32::from_le_bytes([bytes[at], bytes[at + 1], bytes[at + 2], bytes[at + 3]])
}

// Repeats the first n bytes of a source to its end. By index, since a byte is copied from one that was copied before: `copy_within`
// would need a loop over parts.
pub fn repeat(source: &mut [u8], n: usize)
    ensures { Repeats n source.old source.new }
{
    for i in n..source.len() {
        source[i] = source[i - n];
    }
}

// Reads the bytes at the head of a case, if there is one: at the end of the file there is none, and none where the first read
// fails. A part of them is an error.
fn read_head<const N: usize, R: Read>(file: &mut R) -> io::Result<Option<[u8; N]>>
    requires { (1 ≤ N) × (N < 256) }
    ensures { IfOk result
        (λ found. IfSome found (Consumes (R.remaining file.old) (R.remaining file.new))) }
{
    let mut head = [0; N];
    let bytes = &mut head[..];
    let Ok(1) = file.read(&mut bytes[..1]) else {
        return Ok(None);
    };
    file.read_exact(&mut bytes[1..])?;
    Ok(Some(head))
}

// Reads the next case of a file, if there is one, and replays it: whether the call agrees with it. It is an error if the case is
// not whole or the room too small.
pub fn replay_next<const N: usize, C: Stored<N>, R: Read>(
    file: &mut R,
    room: &mut Room,
) -> io::Result<Option<bool>> {
    let Some(head) = read_head::<N, R>(file)? else {
        return Ok(None);
    };
    let case = C::from(head);
    if !case.fits() {
        return Err(io::ErrorKind::InvalidData.into());
    }
    let (stored, listed) = case.sizes();
    let source = &mut room.source[..];
    file.read_exact(&mut source[..stored])?;
    let listing = &mut room.listing[..];
    file.read_exact(&mut listing[..listed])?;
    Ok(Some(case.replay(room)))
}
