// Prints the listing of a source on standard input: its marks and its errors.
#![tactic(auto)]

ghost use Rattle.std.specs.Prelude.{◌≤◌, length};
ghost use Rattle.marks.specs.Report.{max_source, Lent, Reported};

mod listing;

use crate::listing::{put_pair, put_reading};
use input::{InputError, read_source};
use output::text::Output;
use parser::read::read;
use std::io;
use syntax::layout::{ERROR_WORDS_A_BYTE, SIZES, TREE_WORDS_A_BYTE};

// The most bytes of a source.
const MAX_SOURCE: usize = 1_000;

// Room for a line for each mark and each error that such a source can have, and for the first one.
const OUTPUT_ROOM: usize = 500_000;

// Reads a source, and puts what is to be printed into the output. Answers how many bytes that is.
fn report(source: &[u8], tree: &mut [u32], errors: &mut [u32], output: &mut [u8]) -> usize
    requires { Lent source.now tree.old errors.old output.old }
    ensures { Reported source.now output.old output.new result }
{
    let mut lent = Output::new(output);
    match read(source, tree, errors) {
        Ok(_) => {
            put_reading(tree, errors, &mut lent);
            lent.at
        }
        Err(refusal) => {
            put_pair(&mut lent, u64::from(refusal.number()), refusal.value());
            lent.at
        }
    }
}

// Prints what a source gives.
fn print(rt: &impl Print, source: &[u8]) -> io::Result<()>
    requires { length source.now ≤ max_source }
{
    let mut tree = [0u32; SIZES + TREE_WORDS_A_BYTE * MAX_SOURCE];
    let mut errors = [0u32; SIZES + ERROR_WORDS_A_BYTE * MAX_SOURCE];
    let mut output = [0u8; OUTPUT_ROOM];
    let length = report(source, &mut tree, &mut errors, &mut output);
    rt.write_all(&output[..length])
}

fn main(rt: HostRuntime) -> io::Result<()> {
    // One byte more than a source may have, so that a longer one is not cut.
    let mut buffer = [0u8; MAX_SOURCE + 1];
    match read_source(&mut rt.stdin(), &mut buffer) {
        Ok(length) => print(&rt, &buffer[..length]),
        Err(InputError::Unreadable) => eprintln!(rt; "marks: standard input cannot be read"),
        Err(InputError::TooLong) => eprintln!(rt; "marks: more than 1,000 bytes"),
    }
}
