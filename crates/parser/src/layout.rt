// The lent slices as a whole: two words of sizes, and two arrays, of which the first holds a word for each item.
ghost use Rattle.std.specs.Prelude.{◌-◌, ◌≤◌, ◌≡◌, ◌++◌, length, take, drop, replicate};
ghost use Rattle.parser.specs.Laid.{Laid, finished};

use syntax::layout::SIZES;

// Zeros from one index to another.
pub fn zero(slice: &mut [u32], from: usize, to: usize)
    requires { (from ≤ to) × (to ≤ length slice.old) }
    ensures { slice.new ≡ take from slice.old ++ (replicate (to - from) 0 ++ drop to slice.old) }
{
    slice[from..to].fill(0);
}

// The sizes of a slice that holds n items, and zeros behind them in both arrays; the second is `size` words long, of which
// `used` are used.
pub fn finish(slice: &mut [u32], cap: usize, n: usize, size: usize, used: usize)
    requires { Laid slice.old cap n size used }
    ensures { slice.new ≡ finished cap n size used slice.old }
{
    slice[0] = n as u32;
    slice[1] = cap as u32;
    let second = SIZES + cap;
    zero(slice, SIZES + n, second);
    zero(slice, second + used, second + size);
}
