// Replays stored calls: each stored source is read again, and the answer and every word of both slices are compared with what the
// Rust gave; each stored tree is written again, and the answer and every byte of the output compared. The words of the command line
// name the files, which compare/vectors.py and compare/texts.py make.
#![tactic(auto)]

ghost use Rattle.std.specs.Prelude.{◌≡◌, ◌≤◌, IfOk};
ghost use Rattle.vectors.specs.Agreement.{over, differing};

mod compare;
mod replay;
mod room;
mod stored;
mod texts;
mod written;

use replay::Case;
use room::Room;
use std::env::{Env, FillError};
use std::fs::{File, Files};
use std::io::Read;
use std::{fmt, io};
use stored::{Stored, replay_next};
use written::Written;

// The most bytes of a file's name.
const NAME_ROOM: usize = 4_096;

// How many cases a file has, and how many of them differ.
#[derive(Clone, Copy)]
struct Tally {
    cases: u64,
    different: u64,
}

impl fmt::Display for Tally {
    fn fmt<W: fmt::Write>(&self, f: &mut fmt::Formatter<W>) -> fmt::Result {
        let Tally { cases, different } = *self;
        write!(f, "{cases} cases, {different} different")
    }
}

// What came of the next case of a file: whether it is the same, that the file is at its end, or that the case can't be read: it is
// not whole, or too long for the room.
type Turn = io::Result<Option<bool>>;

// Whether the file is over.
fn is_over(turn: &Turn) -> bool
    ensures { result ≡ over turn.now }
{
    !matches!(turn, Ok(Some(_)))
}

// How many cases differ in this turn.
fn count_different(turn: &Turn) -> u64
    ensures { (result ≡ differing turn.now) × (result ≤ 1) }
{
    u64::from(matches!(turn, Ok(Some(false))))
}

// Reports a case that ends its file before the end, and one that differs.
fn report(rt: &impl Print, turn: &Turn, case: u64) -> io::Result<()> {
    match turn {
        Ok(Some(false)) => println!(rt; "different: {case}"),
        Ok(_) => Ok(()),
        Err(_) => println!(rt; "unreadable: {case}"),
    }
}

// Replays the cases of a file up to its end, or to one that can't be read; cases count from 0.
fn replay_all<const N: usize, C: Stored<N>, R: Read>(
    rt: &impl Print,
    file: &mut R,
    room: &mut Room,
) -> io::Result<Tally>
    ensures { IfOk result (λ tally. tally.different ≤ tally.cases) }
{
    let mut different = 0;
    for cases in 0..u64::MAX {
        let turn = replay_next::<N, C, R>(file, room);
        report(rt, &turn, cases)?;
        if is_over(&turn) {
            return Ok(Tally { cases, different });
        }
        different += count_different(&turn);
    }
    Ok(Tally {
        cases: u64::MAX,
        different,
    })
}

// Replays the cases of an opened file. Names of files of the writing call start with a 't'.
fn replay_file<R: Read>(rt: &impl Print, path: &str, file: &mut R) -> io::Result<()> {
    let mut room = Room::new();
    let tally = if path.starts_with('t') {
        replay_all::<{ written::HEAD }, Written, R>(rt, file, &mut room)?
    } else {
        replay_all::<{ replay::HEAD }, Case, R>(rt, file, &mut room)?
    };
    println!(rt; "{path}: {tally}")
}

// The system's text for an error, without the number that std puts behind it.
fn without_code(text: &str) -> &str {
    text.split_once(" (os error ")
        .map_or(text, |(before, _)| before)
}

// Says why a file can't be opened.
fn refuse(rt: &(impl Eprint + AllocGlobal), path: &str, error: io::Error) -> io::Result<()> {
    let text = format!(in rt.alloc(); "{error}")?;
    let what = without_code(text.as_str());
    eprintln!(rt; "{path}: {what}")
}

// Replays the file of a name, or says why it can't be opened.
fn replay_named(rt: &(impl Print + Eprint + Files + AllocGlobal), path: &str) -> io::Result<()> {
    match File::open(rt, path) {
        Ok(mut file) => replay_file(rt, path, &mut file),
        Err(error) => refuse(rt, path, error),
    }
}

fn main(rt: HostRuntime) -> io::Result<()> {
    let mut name = [0u8; NAME_ROOM];
    for i in 1..usize::MAX {
        match rt.arg(i, &mut name) {
            Ok(n) => match str::from_utf8(&name[..n]) {
                Ok(path) => replay_named(&rt, path)?,
                Err(_) => eprintln!(rt; "argument {i} is not UTF-8")?,
            },
            Err(FillError::NotPresent) => break,
            Err(FillError::TooLong) => eprintln!(rt; "argument {i} is too long for a file's name")?,
        }
    }
    Ok(())
}
