// The writing call.
ghost use Rattle.syntax.specs.Layout.{marks_in};
ghost use Rattle.syntax.specs.Serializer.{serialize};
ghost use Rattle.laws.specs.Tests.{Passes};
ghost use Rattle.serializer.specs.Call.{DidWrite, DidWriteInto};

use crate::resource::serialize_with_options;
use syntax::answer::{Answer, Refusal};
use tree::test::test_tree;

// Writes the normal text of a tree into an output that is lent, with its junk if so asked. The tests come in the order of the
// refusals 1, 2, 6 and 7.
pub fn write(source: &[u8], tree: &[u32], output: &mut [u8], with_junk: bool) -> Answer
    ensures { DidWrite source.now tree.now output.old output.new with_junk result }
{
    test_tree(source, tree)?;
    write_into(source, tree, output, with_junk)
}

// The writing of a tree that passed the tests. A first pass counts its text's bytes, into an empty part of the output.
fn write_into(source: &[u8], tree: &[u32], output: &mut [u8], with_junk: bool) -> Answer
    requires { Passes source.now tree.now }
    ensures { DidWriteInto (serialize source.now with_junk (marks_in tree.now))
        output.old output.new result }
{
    let length = serialize_with_options(source, tree, &mut output[..0], with_junk);
    if output.len() < length {
        return Err(Refusal::OutputTooShort(length as u64));
    }
    serialize_with_options(source, tree, output, with_junk);
    Ok(length as u64)
}
