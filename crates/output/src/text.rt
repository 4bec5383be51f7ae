// Bytes and texts.
ghost use Rattle.std.specs.Prelude.{◌+◌, ◌*◌, ◌≡◌, [], ◌∷◌, length, replicate};
ghost use Rattle.std.proofs.lemmas.List.Edits.{sets};
ghost use Rattle.syntax.specs.Byte as Byte;
ghost use Rattle.syntax.specs.Serializer.{indent_width};
ghost use Rattle.output.specs.Put.{DidPut};

// A level of indent.
const INDENT: [u8; INDENT_WIDTH] = *b"    ";

const INDENT_WIDTH: usize = 4;

// A lent output, and the count of what was put. It stays at the largest number, where no output has a byte.
#[derive(Drop)]
pub struct Output<'a> {
    pub bytes: &'a mut [u8],
    pub at: usize,
}

// Copies bytes. By index: for `copy_from_slice` an archive for C would need memmove, and of bytes passed by `iter_mut` nothing is known.
fn copy(bytes: &mut [u8], item: &[u8])
    requires { length bytes.old ≡ length item.now }
    ensures { bytes.new ≡ item.now }
{
    for i in 0..item.len() {
        bytes[i] = item[i];
    }
}

impl<'a> Output<'a> {
    pub fn new(bytes: &'a mut [u8]) -> Output<'a>
        ensures same_reference { result.bytes.ghost_name ≡ bytes.entry.ghost_name }
        ensures bytes { result.bytes.now ≡ bytes.old }
        ensures nothing { result.at ≡ 0 }
    {
        Output { bytes, at: 0 }
    }

    // One byte.
    pub fn put(&mut self, byte: u8)
        ensures { DidPut self.old self.new (byte ∷ []) }
    {
        if self.at < self.bytes.len() {
            self.bytes[self.at] = byte;
        }
        self.at = self.at.saturating_add(1);
    }

    // Stores as many bytes as there is room for.
    fn store(&mut self, item: &[u8])
        ensures same_reference { self.new.bytes.ghost_name ≡ self.old.bytes.ghost_name }
        ensures stored { self.new.bytes.now ≡ sets self.old.bytes.now self.old.at item.now }
        ensures at { self.new.at ≡ self.old.at }
    {
        let end = self.at.saturating_add(item.len());
        if end <= self.bytes.len() {
            copy(&mut self.bytes[self.at..end], item);
        } else if self.at < self.bytes.len() {
            let room = self.bytes.len() - self.at;
            copy(&mut self.bytes[self.at..], &item[..room]);
        }
    }

    // Bytes, of which as many are stored as there is room for.
    pub fn put_bytes(&mut self, item: &[u8])
        ensures { DidPut self.old self.new item.now }
    {
        self.store(item);
        self.at = self.at.saturating_add(item.len());
    }

    // Levels of indent: those for which there is room, and the part of one. Copied level by level, and not by `fill`, since document
    // 01 names the form: the writer's pieces, four spaces of indent among them, are constant byte strings that it copies.
    pub fn put_indent(&mut self, levels: usize)
        ensures { DidPut self.old self.new (replicate (indent_width * levels) Byte.space) }
    {
        let room = self.bytes.len().saturating_sub(self.at);
        let whole = levels.min(room / INDENT_WIDTH);
        for _ in 0..whole {
            self.bytes[self.at..self.at + INDENT_WIDTH].copy_from_slice(&INDENT);
            self.at += INDENT_WIDTH;
        }
        if whole < levels {
            self.store(&INDENT);
            let more = (levels - whole).saturating_mul(INDENT_WIDTH);
            self.at = self.at.saturating_add(more);
        }
    }
}
