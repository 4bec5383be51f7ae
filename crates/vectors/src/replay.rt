// A stored case of the reading call: eight numbers, the start of the source, and the Rust's listing in numbers of two bytes: kinds
// and places of marks, kinds and groups of errors.
ghost use Rattle.std.specs.Prelude.{◌^◌, ◌<◌, ◌≡◌, length};
ghost use Rattle.vectors.specs.Stored.{case_in};
ghost use Rattle.vectors.specs.Agreement.{Tells, listed, left, tree_arrays, error_arrays, kinds_in, places_in, errors_in};
ghost use Rattle.vectors.specs.Agreement.{groups_in, Lists, Answers, ReadFilled, Agrees, Fits, Replayed};

use crate::compare::{Arrays, FILLING, is_left};
use crate::room::{ERROR_ROOM, LISTING_ROOM, LONGEST, Room, TREE_ROOM};
use crate::stored::{LONG, SHORT, Stored, long, repeat};
use parser::read::read;
use syntax::answer::{Answer, number, value};
use syntax::layout::{ERROR_WORDS_A_BYTE, GROUP_SIZE, MARKS_A_BYTE};

// The bytes of the numbers that a case starts with.
pub const HEAD: usize = 8 * LONG;

// The bytes of a listing for each mark, a kind and a place, and for each error, a kind and a group.
const MARK_BYTES: usize = 2 * SHORT;

const ERROR_BYTES: usize = ERROR_WORDS_A_BYTE * SHORT;

// How many bytes of the source are stored, and how many it has; the words of the lent slices; the answer; how many marks and
// errors there are.
#[derive(Clone, Copy)]
pub struct Case {
    pub stored: usize,
    pub length: usize,
    pub tree: usize,
    pub errors: usize,
    pub number: u32,
    pub value: u64,
    pub marks: usize,
    pub faults: usize,
}

impl From<[u8; HEAD]> for Case {
    ghost from_gives = { λ head case. case ≡ case_in head };

    fn from(head: [u8; HEAD]) -> Case {
        Case {
            stored: long(&head, 0) as usize,
            length: long(&head, 4) as usize,
            tree: long(&head, 8) as usize,
            errors: long(&head, 12) as usize,
            number: long(&head, 16),
            value: u64::from(long(&head, 20)),
            marks: long(&head, 24) as usize,
            faults: long(&head, 28) as usize,
        }
    }
}

impl Stored<HEAD> for Case {
    ghost use Rattle.std.proofs.Common.{rules};
    ghost use Rattle.vectors.specs.declared.room.TheConstants.{LONGEST, LISTING_ROOM, TREE_ROOM, ERROR_ROOM};

    ghost fits = { λ case. Fits case LONGEST LISTING_ROOM TREE_ROOM ERROR_ROOM };

    ghost replays = { λ case before after r. Replayed case before.source after.source before.listing r };

    ghost head_size = { Prim.search rules };

    fn fits(self) -> bool {
        self.length <= LONGEST
            && self.stored <= self.length
            && self.tree <= TREE_ROOM
            && self.errors <= ERROR_ROOM
            && self.marks <= MARKS_A_BYTE * self.length
            && self.faults <= self.length
            && self.listed() <= LISTING_ROOM
    }

    fn sizes(self) -> (usize, usize) {
        (self.stored, self.listed())
    }

    fn replay(self, room: &mut Room) -> bool {
        let Room {
            source,
            listing,
            tree,
            errors,
            output: _,
        } = room;
        self.replay_in(source, listing, tree, errors)
    }
}

impl Case {
    // The bytes of the listing.
    fn listed(self) -> usize
        requires { listed self < 2 ^ 64 }
        ensures { result ≡ listed self }
    {
        MARK_BYTES * self.marks + ERROR_BYTES * self.faults
    }

    // Whether the tree of a source of n bytes is the case's, word for word.
    fn is_tree(self, answer: Answer, n: usize, listing: &[u8], tree: &[u32]) -> bool
        requires { Lists self n listing.now }
        ensures { Tells result
            (tree.now
            ≡ left answer (tree_arrays self n) (kinds_in self listing.now)
            (places_in self listing.now) (length tree.now)) }
    {
        let arrays = Arrays {
            count: self.marks,
            capacity: MARKS_A_BYTE * n,
            used: self.marks,
            size: MARKS_A_BYTE * n,
        };
        let places = SHORT * self.marks;
        let end = MARK_BYTES * self.marks;
        is_left(
            answer,
            tree,
            arrays,
            &listing[..places],
            &listing[places..end],
        )
    }

    // The same for the list of errors. What both share is `is_left`; they differ in every size.
    fn is_list(self, answer: Answer, n: usize, listing: &[u8], errors: &[u32]) -> bool
        requires { Lists self n listing.now }
        ensures { Tells result
            (errors.now
            ≡ left answer (error_arrays self n) (errors_in self listing.now)
            (groups_in self listing.now) (length errors.now)) }
    {
        let arrays = Arrays {
            count: self.faults,
            capacity: n,
            used: GROUP_SIZE * self.faults,
            size: GROUP_SIZE * n,
        };
        let kinds = MARK_BYTES * self.marks;
        let groups = kinds + SHORT * self.faults;
        is_left(
            answer,
            errors,
            arrays,
            &listing[kinds..groups],
            &listing[groups..],
        )
    }

    // Whether the reading call answers as the case has it, and leaves both slices so.
    fn agrees(self, source: &[u8], listing: &[u8], tree: &mut [u32], errors: &mut [u32]) -> bool
        requires { Lists self (length source.now) listing.now }
        ensures { Tells result
            (Agrees self source.now listing.now (length tree.old)
            (length errors.old)) }
    {
        let answer = read_filled(source, tree, errors);
        let n = source.len();
        is_answer(answer, self.number, self.value)
            && self.is_tree(answer, n, listing, tree)
            && self.is_list(answer, n, listing, errors)
    }

    // Replays the case, whose stored bytes and listing stand at the start of what is lent. It takes slices, not the room: a slice of
    // an array in a field is not known to the proof after its loan. Cases of the writing call have their own, over other slices.
    fn replay_in(
        self,
        source: &mut [u8],
        listing: &[u8],
        tree: &mut [u32],
        errors: &mut [u32],
    ) -> bool
        requires { Fits self (length source.old) (length listing.now) (length tree.old) (length errors.old) }
        ensures { Replayed self source.old source.new listing.now result }
    {
        let listed = self.listed();
        repeat(&mut source[..self.length], self.stored);
        self.agrees(
            &source[..self.length],
            &listing[..listed],
            &mut tree[..self.tree],
            &mut errors[..self.errors],
        )
    }
}

// Reads a source into slices that are filled first.
fn read_filled(source: &[u8], tree: &mut [u32], errors: &mut [u32]) -> Answer
    ensures { ReadFilled source.now (length tree.old) (length errors.old) tree.new
        errors.new result }
{
    tree.fill(FILLING);
    errors.fill(FILLING);
    read(source, tree, errors)
}

// Whether an answer has this number and value.
pub fn is_answer(answer: Answer, n: u32, v: u64) -> bool
    ensures { Tells result (Answers n v answer) }
{
    number(answer) == n && value(answer) == v
}
