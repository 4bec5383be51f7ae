// What stands at a mark in the words of a tree. Any words will do: a word that is not there is taken as 0.
ghost use Rattle.std.specs.Prelude.{◌+◌, ◌≡◌, get_or};
ghost use Rattle.syntax.specs.Layout.{kinds};
ghost use Rattle.tree.specs.Words.{kind_in, place_in, text_in, after_in};

use syntax::kind::CLOSING;
use syntax::layout::SIZES;

// The word of a mark in the array that starts at the word `from`.
fn word_at(tree: &[u32], from: usize, mark: usize) -> u32
    ensures { result ≡ get_or tree.now (from + mark) 0 }
{
    tree.get(from.saturating_add(mark)).copied().unwrap_or(0)
}

// The kind of a mark.
pub fn kind_at(tree: &[u32], mark: usize) -> u32
    ensures { result ≡ kind_in tree.now mark }
{
    word_at(tree, SIZES, mark)
}

// The place of a mark.
pub fn place_at(tree: &[u32], mark: usize) -> u32
    ensures { result ≡ place_in tree.now mark }
{
    let [_, capacity, ..] = *tree else {
        return 0;
    };
    word_at(tree, SIZES + capacity as usize, mark)
}

// The text of the T node that starts at a mark: the source from the mark's place up to the next one's.
pub fn text_at<'a>(source: &'a [u8], tree: &[u32], mark: usize) -> &'a [u8]
    ensures { result.now ≡ text_in source.now tree.now mark }
{
    if tree.len() <= mark {
        return &source[..0];
    }
    let end = (place_at(tree, mark + 1) as usize).min(source.len());
    let start = (place_at(tree, mark) as usize).min(end);
    &source[start..end]
}

// The kinds: as many as the count says, if the slice has them.
fn kinds(tree: &[u32]) -> &[u32]
    ensures { result.now ≡ kinds tree.now }
{
    let [count, _, words @ ..] = tree else {
        return &[];
    };
    &words[..(*count as usize).min(words.len())]
}

// The mark after the node that starts at a mark: the count where the node is not closed, the mark itself where there is none.
pub fn after_node(tree: &[u32], mark: usize) -> usize
    ensures { result ≡ after_in tree.now mark }
{
    let kinds = kinds(tree);
    if kinds.len() <= mark {
        return mark;
    }
    let inner = mark + 1;
    let mut depth: usize = 1;
    for (i, &kind) in kinds[inner..].iter().enumerate() {
        if kind < CLOSING {
            depth += 1;
        } else {
            depth -= 1;
            if depth == 0 {
                return inner + i + 1;
            }
        }
    }
    kinds.len()
}
