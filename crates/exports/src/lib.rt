// The C functions of the static library: the calls on numbers and slices, a slice as its pointer and then its length.
#![tactic(auto)]

ghost use Rattle.std.specs.Prelude.{◌≡◌, length};
ghost use Rattle.syntax.specs.Answer.{number_of, value_of};
ghost use Rattle.syntax.specs.Reading.{read_answer, tree_after, errors_after};
ghost use Rattle.syntax.specs.Writing.{write_answer, output_after};

mod entries;

use parser::read::read;
use serializer::write::write;
use syntax::answer::{Answer, number, value};

// An answer as C has it: its number, and the value that comes with it where that is to be written.
fn told(answer: Answer, returned: &mut u64) -> u32
    ensures number { result ≡ number_of answer }
    ensures value { returned.new ≡ value_of answer }
{
    *returned = value(answer);
    number(answer)
}

// The reading call: answers the number of its answer, and writes the value that comes with it.
#[unsafe(no_mangle)]
pub extern "C" fn bevelumber_read(
    source: &[u8],
    tree: &mut [u32],
    errors: &mut [u32],
    returned: &mut u64,
) -> u32
    ensures value { result ≡ number_of (read_answer source.now (length tree.old) (length errors.old)) }
    ensures returned_after { returned.new
        ≡ value_of (read_answer source.now (length tree.old) (length errors.old)) }
    ensures tree_after { tree.new ≡ tree_after source.now tree.old errors.old }
    ensures errors_after { errors.new ≡ errors_after source.now tree.old errors.old }
{
    told(read(source, tree, errors), returned)
}

// The writing call, likewise.
#[unsafe(no_mangle)]
pub extern "C" fn bevelumber_write(
    source: &[u8],
    tree: &[u32],
    output: &mut [u8],
    with_junk: bool,
    returned: &mut u64,
) -> u32
    ensures value { result ≡ number_of (write_answer source.now tree.now (length output.old) with_junk) }
    ensures returned_after { returned.new
        ≡ value_of (write_answer source.now tree.now (length output.old) with_junk) }
    ensures output_after { output.new ≡ output_after source.now tree.now output.old with_junk }
{
    told(write(source, tree, output, with_junk), returned)
}
