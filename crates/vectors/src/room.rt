// What each replay is lent.
use syntax::layout::{ERROR_WORDS_A_BYTE, TREE_WORDS_A_BYTE};
use syntax::limits::MAX_LENGTH;

// The longest source of a case: one that is refused for its length.
pub const LONGEST: usize = MAX_LENGTH + 1;

// The bytes of a listing, and of a text.
pub const LISTING_ROOM: usize = 200_000;

pub const OUTPUT_ROOM: usize = 65_536;

// Tree and errors have room for sources of 4,096 bytes, and for their sizes; longer sources are refused.
const READ_ROOM: usize = 4_100;

pub const TREE_ROOM: usize = TREE_WORDS_A_BYTE * READ_ROOM;

pub const ERROR_ROOM: usize = ERROR_WORDS_A_BYTE * READ_ROOM;

// The bytes of a source and of its listing, the words of the slices, and the bytes of an output.
#[derive(Drop)]
pub struct Room {
    pub source: [u8; LONGEST],
    pub listing: [u8; LISTING_ROOM],
    pub tree: [u32; TREE_ROOM],
    pub errors: [u32; ERROR_ROOM],
    pub output: [u8; OUTPUT_ROOM],
}

impl Room {
    pub fn new() -> Room {
        Room {
            source: [0; LONGEST],
            listing: [0; LISTING_ROOM],
            tree: [0; TREE_ROOM],
            errors: [0; ERROR_ROOM],
            output: [0; OUTPUT_ROOM],
        }
    }
}
