// Prints where each entry of a source on standard input starts and where its reading stopped.
#![tactic(auto)]

ghost use Rattle.std.specs.Prelude.{◌≤◌, length};
ghost use Rattle.entries.specs.Listed.{max_source, Lent, Listed};

use input::{InputError, read_source};
use parser::next::first_place;
use reader::entry_after;
use std::io;
use syntax::layout::{SIZES, TREE_WORDS_A_BYTE};
use syntax::next::Extent;

// The most bytes of a source.
const MAX_SOURCE: usize = 4_000;

// Puts where each entry stands into the list. Answers how many entries there are. A loop, since an iterator would be a struct of its own
// that holds the lent tree.
fn list_entries(source: &[u8], tree: &mut [u32], list: &mut [Extent]) -> usize
    requires { Lent source.now tree.old list.old }
    ensures { Listed source.now list.old list.new result }
{
    let mut at = first_place(source);
    let mut n = 0;
    while let Ok(Some(extent)) = entry_after(source, at, tree) {
        list[n] = extent;
        at = extent.stop;
        n += 1;
    }
    n
}

// Prints the entries of a source. Each takes a byte, so the list has room for all.
fn print(rt: &impl Print, source: &[u8]) -> io::Result<()>
    requires { length source.now ≤ max_source }
{
    let mut tree = [0u32; SIZES + TREE_WORDS_A_BYTE * MAX_SOURCE];
    let mut list = [Extent { start: 0, stop: 0 }; MAX_SOURCE];
    let n = list_entries(source, &mut tree, &mut list);
    for Extent { start, stop } in &list[..n] {
        println!(rt; "{start} {stop}")?;
    }
    Ok(())
}

fn main(rt: HostRuntime) -> io::Result<()> {
    // One byte more than a source may have, so that a longer one is not cut.
    let mut buffer = [0u8; MAX_SOURCE + 1];
    match read_source(&mut rt.stdin(), &mut buffer) {
        Ok(length) => print(&rt, &buffer[..length]),
        Err(InputError::Unreadable) => eprintln!(rt; "entries: standard input cannot be read"),
        Err(InputError::TooLong) => eprintln!(rt; "entries: more than 4,000 bytes"),
    }
}
