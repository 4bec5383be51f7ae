// The listing of a reading, put into a lent output.
ghost use Rattle.std.specs.Prelude.{◌^◌, ◌<◌, [], ◌∷◌};
ghost use Rattle.syntax.specs.Layout.{group_size, count};
ghost use Rattle.syntax.specs.Listing.{line, lines};
ghost use Rattle.output.specs.Put.{DidPut};
ghost use Rattle.marks.specs.Rows.{span, rows, mark_row, error_row, read_rows, Held};

use output::text::Output;
use syntax::layout::{GROUP_SIZE, SIZES};

// A line of two numbers.
pub fn put_pair(output: &mut Output, x: u64, y: u64)
    ensures { DidPut output.old output.new (line (x ∷ y ∷ [])) }
{
    output.put_field(x, b' ');
    output.put_field(y, b'\n');
}

// A line for each mark.
fn put_marks(tree: &[u32], output: &mut Output)
    requires held { Held 1 tree.now }
    requires fits { output.old.at < 2 ^ 64 }
    ensures { DidPut output.old output.new (lines (rows (mark_row tree.now) (count tree.now))) }
{
    let count = tree[0] as usize;
    let (kinds, places) = tree[SIZES..].split_at(tree[1] as usize);
    for (&kind, &place) in kinds[..count].iter().zip(places) {
        put_pair(output, u64::from(kind), u64::from(place));
    }
}

// Two numbers, a space after each.
fn put_span(output: &mut Output, x: u32, y: u32)
    ensures { DidPut output.old output.new (span x y) }
{
    output.put_field(u64::from(x), b' ');
    output.put_field(u64::from(y), b' ');
}

// The line of an error: its kind, its position, its junk and its arguments.
fn put_error(output: &mut Output, kind: u32, group: &[u32; GROUP_SIZE])
    ensures { DidPut output.old output.new (line (kind ∷ group.now)) }
{
    let [start, end, junk_start, junk_end, first, second] = *group;
    output.put_field(u64::from(kind), b' ');
    put_span(output, start, end);
    put_span(output, junk_start, junk_end);
    put_pair(output, u64::from(first), u64::from(second));
}

// A line for each error.
fn put_errors(errors: &[u32], output: &mut Output)
    requires held { Held group_size errors.now }
    requires fits { output.old.at < 2 ^ 64 }
    ensures { DidPut output.old output.new (lines (rows (error_row errors.now) (count errors.now))) }
{
    let count = errors[0] as usize;
    let (kinds, groups) = errors[SIZES..].split_at(errors[1] as usize);
    let (groups, _) = groups.as_chunks::<GROUP_SIZE>();
    for (&kind, group) in kinds[..count].iter().zip(groups) {
        put_error(output, kind, group);
    }
}

// Acceptance with both counts, then the marks and the errors.
pub fn put_reading(tree: &[u32], errors: &[u32], output: &mut Output)
    requires marks_held { Held 1 tree.now }
    requires errors_held { Held group_size errors.now }
    ensures { DidPut output.old output.new (lines (read_rows tree.now errors.now)) }
{
    output.put_field(0, b' ');
    put_pair(output, u64::from(tree[0]), u64::from(errors[0]));
    put_marks(tree, output);
    put_errors(errors, output);
}
