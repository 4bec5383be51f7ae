// Errors in a lent list: two words of sizes, then as many kinds as the list holds, then as many groups of six words.
ghost use Rattle.std.specs.Prelude.{◌+◌, ◌≤◌, ◌≡◌, [], ◌∷◌, length};
ghost use Rattle.std.proofs.lemmas.List.Edits.{sets};
ghost use Rattle.parser.specs.ErrorList.{Small, Spare};
ghost use Rattle.parser.specs.Resource.{Listed};

use crate::resource::Resource;
use syntax::errors::ParserError;
use syntax::layout::{GROUP_SIZE, SIZES};

// Writes two words in a row. With `copy_from_slice` of the six words in its place junk was read slower.
fn put_pair(list: &mut [u32], at: usize, a: u32, b: u32)
    requires { at + 2 ≤ length list.old }
    ensures { (list.new ≡ sets list.old at (a ∷ b ∷ [])) × (length list.new ≡ length list.old) }
{
    list[at] = a;
    let next = at + 1;
    list[next] = b;
}

impl Resource<'_, '_> {
    // Writes an error with its junk.
    pub fn put_error(&mut self, e: ParserError, junk_start: usize, junk_end: usize)
        requires spare { Spare self.old.errors.now (length self.old.source.now) self.old.error_count }
        requires small { Small junk_start × Small junk_end }
        ensures { Listed e junk_start junk_end self.old self.new }
    {
        let words = e.kind.words();
        let cap = self.source.len();
        self.errors[self.error_count + SIZES] = words.number;
        let group = cap + GROUP_SIZE * self.error_count + SIZES;
        put_pair(self.errors, group, e.start, e.end);
        put_pair(self.errors, group + 2, junk_start as u32, junk_end as u32);
        put_pair(self.errors, group + 4, words.first, words.second);
        self.error_count += 1;
    }
}
