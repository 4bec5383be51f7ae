// The replay of a case of the writing call.
ghost use Rattle.std.specs.Prelude.{◌≡◌, ◌++◌, length, drop};
ghost use Rattle.vectors.specs.Agreement.{Tells};
ghost use Rattle.vectors.specs.Written.{filled_bytes, Holds, WroteFilled, AgreesText, FitsText, Rewritten};

use crate::compare::are_all;
use crate::replay::is_answer;
use crate::room::{LISTING_ROOM, LONGEST, OUTPUT_ROOM, Room, TREE_ROOM};
use crate::stored::{Stored, repeat};
use crate::written::{HEAD, Written};
use serializer::write::write;
use syntax::answer::Answer;

// What an output holds before the call. No text has this byte by itself.
const FILLING: u8 = 170;

impl Stored<HEAD> for Written {
    ghost use Rattle.std.proofs.Common.{rules};
    ghost use Rattle.vectors.specs.declared.room.TheConstants.{LONGEST, LISTING_ROOM, TREE_ROOM, OUTPUT_ROOM};

    ghost fits = { λ case. FitsText case LONGEST LISTING_ROOM TREE_ROOM OUTPUT_ROOM };

    ghost replays = { λ case before after r. Rewritten case before.source after.source before.listing r };

    ghost head_size = { Prim.search rules };

    fn fits(self) -> bool {
        self.length <= LONGEST
            && self.stored <= self.length
            && self.tree <= TREE_ROOM
            && self.middle <= self.tree
            && self.output <= OUTPUT_ROOM
            && self.firsts <= self.middle
            && self.seconds <= self.tree - self.middle
            && self.text <= LISTING_ROOM
            && self.word_bytes() + self.text <= LISTING_ROOM
    }

    fn sizes(self) -> (usize, usize) {
        (self.stored, self.word_bytes() + self.text)
    }

    fn replay(self, room: &mut Room) -> bool {
        let Room {
            source,
            listing,
            tree,
            errors: _,
            output,
        } = room;
        self.replay_in(source, listing, tree, output)
    }
}

impl Written {
    // Writes the case's tree into an output that is filled first.
    fn write_filled(
        self,
        source: &[u8],
        listing: &[u8],
        tree: &mut [u32],
        output: &mut [u8],
    ) -> Answer
        requires { Holds self listing.now (length tree.old) }
        ensures { WroteFilled self source.now listing.now (length output.old)
            output.new result }
    {
        self.lay_tree(listing, tree);
        output.fill(FILLING);
        write(source, tree, output, self.junk)
    }

    // Whether the writing call answers as the case has it, and leaves the output so.
    fn agrees(self, source: &[u8], listing: &[u8], tree: &mut [u32], output: &mut [u8]) -> bool
        requires { Holds self listing.now (length tree.old) }
        ensures { Tells result (AgreesText self source.now listing.now (length output.old)) }
    {
        let answer = self.write_filled(source, listing, tree, output);
        is_answer(answer, self.number, self.value) && is_text(output, &listing[self.word_bytes()..])
    }

    // Replays the case, whose stored bytes, words and text stand at the start of what is lent. As in the reading call's cases it takes
    // slices; that one and this promise different things of different slices, so they are two, as the two `agrees` are.
    fn replay_in(
        self,
        source: &mut [u8],
        listing: &[u8],
        tree: &mut [u32],
        output: &mut [u8],
    ) -> bool
        requires { FitsText self (length source.old) (length listing.now) (length tree.old) (length output.old) }
        ensures { Rewritten self source.old source.new listing.now result }
    {
        let listed = self.word_bytes() + self.text;
        repeat(&mut source[..self.length], self.stored);
        self.agrees(
            &source[..self.length],
            &listing[..listed],
            &mut tree[..self.tree],
            &mut output[..self.output],
        )
    }
}

// Whether an output that was filled has this text, and is unchanged past it.
fn is_text(output: &[u8], text: &[u8]) -> bool
    ensures { Tells result
        (output.now ≡ text.now
        ++ drop (length text.now) (filled_bytes (length output.now))) }
{
    output.starts_with(text) && are_all(&output[text.len()..], FILLING)
}
