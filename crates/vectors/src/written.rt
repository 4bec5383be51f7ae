// A stored case of the writing call: eleven numbers, the start of the source, words of the tree in numbers of four bytes, and the
// text.
ghost use Rattle.std.specs.Prelude.{◌+◌, ◌*◌, ◌^◌, ◌≤◌, ◌<◌, ◌≡◌, length};
ghost use Rattle.syntax.specs.Layout.{array};
ghost use Rattle.vectors.specs.Written.{written_in, longs, word_bytes, Holds, tree_in};

use crate::stored::{LONG, long};

// The bytes of the numbers that a case starts with.
pub const HEAD: usize = 11 * LONG;

// How many bytes of the source are stored, and how many it has; the words of the tree, and where its second array starts; the
// bytes of the output; the flag; the answer; how many words are stored of both parts of the tree; the bytes of the text.
#[derive(Clone, Copy)]
pub struct Written {
    pub stored: usize,
    pub length: usize,
    pub tree: usize,
    pub middle: usize,
    pub output: usize,
    pub junk: bool,
    pub number: u32,
    pub value: u64,
    pub firsts: usize,
    pub seconds: usize,
    pub text: usize,
}

impl From<[u8; HEAD]> for Written {
    ghost from_gives = { λ head case. case ≡ written_in head };

    fn from(head: [u8; HEAD]) -> Written {
        Written {
            stored: long(&head, 0) as usize,
            length: long(&head, 4) as usize,
            tree: long(&head, 8) as usize,
            middle: long(&head, 12) as usize,
            output: long(&head, 16) as usize,
            junk: long(&head, 20) == 1,
            number: long(&head, 24),
            value: u64::from(long(&head, 28)),
            firsts: long(&head, 32) as usize,
            seconds: long(&head, 36) as usize,
            text: long(&head, 40) as usize,
        }
    }
}

impl Written {
    // The bytes of the stored words.
    pub fn word_bytes(self) -> usize
        requires { word_bytes self < 2 ^ 64 }
        ensures { result ≡ word_bytes self }
    {
        LONG * self.firsts + LONG * self.seconds
    }

    // Makes the tree of the case.
    pub fn lay_tree(self, listing: &[u8], tree: &mut [u32])
        requires { Holds self listing.now (length tree.old) }
        ensures { tree.new ≡ tree_in self listing.now }
    {
        let seconds = LONG * self.firsts;
        let end = self.word_bytes();
        let (first, second) = tree.split_at_mut(self.middle);
        lay(first, &listing[..seconds], self.firsts);
        lay(second, &listing[seconds..end], self.seconds);
    }
}

// Copies stored words. By index: of words passed by `iter_mut` and `zip` the proof knows nothing afterwards.
fn copy(words: &mut [u32], stored: &[u8])
    requires { length stored.now ≡ 4 * length words.old }
    ensures { words.new ≡ longs stored.now }
{
    for (i, bytes) in stored.as_chunks::<LONG>().0.iter().enumerate() {
        words[i] = u32::from_le_bytes(*bytes);
    }
}

// Copies n stored words to the start of a part of a tree, and puts zeros behind them.
fn lay(words: &mut [u32], stored: &[u8], n: usize)
    requires { (length stored.now ≡ 4 * n) × (n ≤ length words.old) }
    ensures { words.new ≡ array (length words.old) (longs stored.now) }
{
    let (start, rest) = words.split_at_mut(n);
    copy(start, stored);
    rest.fill(0);
}
