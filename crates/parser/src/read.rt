// The reading call.
ghost use Rattle.parser.specs.Call.{Sized, DidRead, DidReadInto};

use crate::layout::{finish, zero};
use crate::resource::{Counts, parse};
use syntax::answer::{Answer, Refusal};
use syntax::layout::{GROUP_SIZE, MARKS_A_BYTE, error_words, tree_words};
use syntax::test::test_source;

// Reads a source into a tree of marks and a list of errors, both lent. The tests come in the order of the refusals 1 to 5.
pub fn read(source: &[u8], tree: &mut [u32], errors: &mut [u32]) -> Answer
    ensures { DidRead source.now tree.old tree.new errors.old errors.new result }
{
    test_source(source)?;
    let length = source.len();
    let words = tree_words(length);
    if tree.len() < words {
        return Err(Refusal::TreeTooShort(words as u64));
    }
    let rows = error_words(length);
    if errors.len() < rows {
        return Err(Refusal::ErrorsTooShort(rows as u64));
    }
    read_into(source, tree, errors)
}

// The reading of a source for which the slices are long enough.
fn read_into(source: &[u8], tree: &mut [u32], errors: &mut [u32]) -> Answer
    requires { Sized source.now tree.old errors.old }
    ensures { DidReadInto source.now tree.old tree.new errors.old errors.new result }
{
    let length = source.len();
    match parse(source, tree, errors) {
        Ok(Counts { marks, errors: n }) => {
            finish(
                tree,
                MARKS_A_BYTE * length,
                marks,
                MARKS_A_BYTE * length,
                marks,
            );
            finish(errors, length, n, GROUP_SIZE * length, GROUP_SIZE * n);
            Ok(0)
        }
        Err(at) => {
            zero(tree, 0, tree_words(length));
            zero(errors, 0, error_words(length));
            Err(Refusal::TooDeep(at as u64))
        }
    }
}
