// The tests for the refusals 1, 2 and 6, with which every call that is lent a source and a tree begins.
ghost use Rattle.std.specs.Prelude.{◌≡◌};
ghost use Rattle.syntax.specs.Tests.{refusal, tested_of};

use crate::check::{check_shape, sizes_fit};
use syntax::answer::Refusal;
use syntax::layout::NO_MARK;
use syntax::test::test_source;

// The refusals 1, 2 and 6 of a source and a tree, tested in this order.
pub fn test_tree(source: &[u8], tree: &[u32]) -> Result<(), Refusal>
    ensures { result ≡ tested_of (refusal source.now tree.now) }
{
    test_source(source)?;
    if !sizes_fit(tree) {
        return Err(Refusal::IllFormed(NO_MARK));
    }
    if let Err(mark) = check_shape(source, tree) {
        return Err(Refusal::IllFormed(mark as u64));
    }
    Ok(())
}
