// Comparisons of every word of a slice with what is stored of it.
ghost use Rattle.std.specs.Prelude.{◌+◌, ◌*◌, ◌≤◌, ◌≡◌, ◌++◌, length, replicate, drop};
ghost use Rattle.std.specs.List.{list_all};
ghost use Rattle.syntax.specs.Layout.{array};
ghost use Rattle.vectors.specs.Stored.{shorts};
ghost use Rattle.vectors.specs.Agreement.{Tells, Stores, filled, laid, laid_length, left};

use crate::stored::{SHORT, short};
use syntax::answer::{Answer, Refusal};
use syntax::layout::SIZES;

// What is stored of a slice's arrays: the first has so many words for its capacity, the second for its size.
#[derive(Clone, Copy)]
pub struct Arrays {
    pub count: usize,
    pub capacity: usize,
    pub used: usize,
    pub size: usize,
}

// What a slice holds before the call; no reading of a short source gives this word.
pub const FILLING: u32 = 2_863_311_530;

// Whether all items are this one.
pub fn are_all<T: Copy + PartialEq>(items: &[T], item: T) -> bool
    ensures { result ≡ list_all (λ x. T.eq x item) items.now }
{
    items.iter().all(|&x| x == item)
}

// Whether these are the stored words.
fn are_stored(words: &[u32], stored: &[u8]) -> bool
    requires { length stored.now ≡ 2 * length words.now }
    ensures { Tells result (words.now ≡ shorts stored.now) }
{
    let stored = stored.as_chunks::<SHORT>().0.iter().map(short);
    words.iter().zip(stored).all(|(&word, short)| word == short)
}

// Whether an array has the n stored words, and zeros behind them.
fn is_array(words: &[u32], stored: &[u8], n: usize) -> bool
    requires { (length stored.now ≡ 2 * n) × (n ≤ length words.now) }
    ensures { Tells result (words.now ≡ array (length words.now) (shorts stored.now)) }
{
    let (start, rest) = words.split_at(n);
    are_stored(start, stored) && are_all(rest, 0)
}

// Whether a slice is as acceptance leaves it.
fn is_laid_out(slice: &[u32], a: Arrays, first: &[u8], second: &[u8]) -> bool
    requires { Stores a first.now second.now }
    ensures { Tells result
        (slice.now ≡ laid a first.now second.now
        ++ drop (laid_length a) (filled (length slice.now))) }
{
    let middle = SIZES + a.capacity;
    let end = middle + a.size;
    end <= slice.len()
        && slice[0] == a.count as u32
        && slice[1] == a.capacity as u32
        && is_array(&slice[SIZES..middle], first, a.count)
        && is_array(&slice[middle..end], second, a.used)
        && are_all(&slice[end..], FILLING)
}

// Whether a slice is as refusal 5 leaves it, its layout being n words long.
fn is_zeroed(slice: &[u32], n: usize) -> bool
    ensures { Tells result (slice.now ≡ replicate n 0 ++ drop n (filled (length slice.now))) }
{
    n <= slice.len() && are_all(&slice[..n], 0) && are_all(&slice[n..], FILLING)
}

// Whether a slice that was filled is as the call that gave this answer leaves it.
pub fn is_left(answer: Answer, slice: &[u32], a: Arrays, first: &[u8], second: &[u8]) -> bool
    requires { Stores a first.now second.now }
    ensures { Tells result
        (slice.now ≡ left answer a first.now second.now (length slice.now)) }
{
    match answer {
        Ok(_) => is_laid_out(slice, a, first, second),
        Err(Refusal::TooDeep(_)) => is_zeroed(slice, SIZES + a.capacity + a.size),
        Err(_) => are_all(slice, FILLING),
    }
}
