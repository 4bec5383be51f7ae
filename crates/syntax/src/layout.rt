// How a tree and a list of errors stand in words, as Layout in specs/ has it: the sizes, then two parallel arrays.
ghost use Rattle.std.specs.Prelude.{◌≡◌, ◌-◌, ◌^◌, min};
ghost use Rattle.syntax.specs.Layout.{tree_layout, error_layout};

// The words of the sizes, the count and the capacity.
pub const SIZES: usize = 2;

// A tree has room for as many marks for each byte of its source.
pub const MARKS_A_BYTE: usize = 8;

// A mark is a kind and a place.
pub const TREE_WORDS_A_BYTE: usize = 2 * MARKS_A_BYTE;

// The words of an error's position, junk and arguments.
pub const GROUP_SIZE: usize = 6;

// A list of errors has room for one error for each byte: a kind and a group.
pub const ERROR_WORDS_A_BYTE: usize = 1 + GROUP_SIZE;

// The value of refusal 6 where a tree's sizes don't fit.
pub const NO_MARK: u64 = 4_294_967_295;

// The words of a tree for a source of this length, or the largest number.
pub fn tree_words(length: usize) -> usize
    ensures { result ≡ min (tree_layout length) (2 ^ 64 - 1) }
{
    let arrays = TREE_WORDS_A_BYTE.saturating_mul(length);
    arrays.saturating_add(SIZES)
}

// The words of a list of errors for a source of this length, or the largest number.
pub fn error_words(length: usize) -> usize
    ensures { result ≡ min (error_layout length) (2 ^ 64 - 1) }
{
    let arrays = ERROR_WORDS_A_BYTE.saturating_mul(length);
    arrays.saturating_add(SIZES)
}
