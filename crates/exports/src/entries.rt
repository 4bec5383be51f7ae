// The entries of a source one by one, from a place that the caller keeps.
ghost use Rattle.std.specs.Prelude.{◌≡◌, length};
ghost use Rattle.syntax.specs.Answer.{number_of};
ghost use Rattle.syntax.specs.Next.{first_place, next_answer, value_of, place_after, NextTree};

use parser::next::{first_place, next_entry};
use syntax::answer::number;
use syntax::next::value;

// The place from which the first entry is looked for.
#[unsafe(no_mangle)]
pub extern "C" fn bevelumber_first_place(source: &[u8]) -> u64
    ensures { result ≡ first_place source.now }
{
    first_place(source) as u64
}

// The entry after a place: answers the number of its answer, and writes the value that comes with it and the place after it.
#[unsafe(no_mangle)]
pub extern "C" fn bevelumber_next_entry(
    source: &[u8],
    at: u64,
    tree: &mut [u32],
    start: &mut u64,
    stop: &mut u64,
) -> u32
    ensures value { result ≡ number_of (next_answer source.now at (length tree.old)) }
    ensures start_after { start.new
        ≡ value_of (length source.now) (next_answer source.now at (length tree.old)) }
    ensures stop_after { stop.new
        ≡ place_after source.now at (next_answer source.now at (length tree.old)) }
    ensures next_tree { NextTree source.now at tree.old tree.new }
{
    let asked = next_entry(source, at as usize, tree);
    let next = asked.next;
    *start = value(next, source.len());
    *stop = asked.at as u64;
    number(next)
}
