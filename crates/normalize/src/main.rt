// Writes the normal text of a source on standard input. Junk is written as it stands, so that nothing is lost.
#![tactic(auto)]

ghost use Rattle.normalize.specs.Normal.{Normalized};

use input::{InputError, read_source};
use parser::read::read;
use serializer::write::write;
use std::io;
use syntax::answer::Answer;
use syntax::layout::{ERROR_WORDS_A_BYTE, SIZES, TREE_WORDS_A_BYTE};

// The most bytes of a source.
const MAX_SOURCE: usize = 10_000;

// The most bytes of a text.
const OUTPUT_ROOM: usize = 100_000;

fn normalize(source: &[u8], tree: &mut [u32], errors: &mut [u32], output: &mut [u8]) -> Answer
    ensures { Normalized source.now tree.old errors.old output.old
        output.new result }
{
    read(source, tree, errors)?;
    write(source, tree, output, true)
}

// Prints the text of a source.
fn print(rt: &(impl Print + Eprint), source: &[u8]) -> io::Result<()> {
    let mut tree = [0u32; SIZES + TREE_WORDS_A_BYTE * MAX_SOURCE];
    let mut errors = [0u32; SIZES + ERROR_WORDS_A_BYTE * MAX_SOURCE];
    let mut output = [0u8; OUTPUT_ROOM];
    match normalize(source, &mut tree, &mut errors, &mut output) {
        Ok(size) => {
            let length = size as usize;
            rt.write_all(&output[..length])
        }
        Err(refusal) => eprintln!(rt; "normalize: {refusal}"),
    }
}

fn main(rt: HostRuntime) -> io::Result<()> {
    // One byte more than a source may have, so that a longer one is not cut.
    let mut buffer = [0u8; MAX_SOURCE + 1];
    match read_source(&mut rt.stdin(), &mut buffer) {
        Ok(length) => print(&rt, &buffer[..length]),
        Err(InputError::Unreadable) => eprintln!(rt; "normalize: standard input cannot be read"),
        Err(InputError::TooLong) => eprintln!(rt; "normalize: more than 10,000 bytes"),
    }
}
