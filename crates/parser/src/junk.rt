// helper.rs: where junk ends.
ghost use Rattle.std.specs.Prelude.{◌≡◌, ◌&&◌, drop};
ghost use Rattle.syntax.specs.Bytes.{is_fresh};
ghost use Rattle.syntax.specs.Core.{to_next_entry, line_starts_at};
ghost use Rattle.entry.specs.Place.{Passed};
ghost use Rattle.parser.specs.Place.{Inside};

// A byte with which an entry starts; `fresh` says that a line starts there.
#[tactic(auto, unfolding(syntax::specs::Bytes::is_letter))]
fn is_entry_start(fresh: bool, b: u8) -> bool
    ensures { result ≡ (fresh && is_fresh b) }
{
    fresh && (b.is_ascii_alphabetic() || (b == b'-' || b == b'#'))
}

// Whether a line starts here.
fn is_line_start(source: &[u8], at: usize) -> bool
    requires { Inside source.now at }
    ensures { result ≡ line_starts_at at source.now }
{
    at == 0 || source[at - 1] == b'\n'
}

// The junk of an entry whose reading stopped here: up to a line that starts with a letter, '-' or '#', or the end.
pub fn skip_to_next_entry_start(source: &[u8], at: usize) -> usize
    requires { Inside source.now at }
    ensures { Passed source.now at (to_next_entry (line_starts_at at source.now) (drop at source.now)) result }
{
    // Byte by byte: by memchr it took longer where the line ends at once. `find` over places would ask the byte before each anew.
    let mut new_line = is_line_start(source, at);
    for end in at..source.len() {
        let b = source[end];
        if is_entry_start(new_line, b) {
            return end;
        }
        new_line = b == b'\n';
    }
    source.len()
}
