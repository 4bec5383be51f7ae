// Numbers in decimal.
ghost use Rattle.std.specs.Prelude.{◌≡◌, [], ◌∷◌, ◌++◌};
ghost use Rattle.syntax.specs.Decimal.{decimal};
ghost use Rattle.output.specs.Put.{DidPut};

use crate::text::Output;

const BASE: u64 = 10;

impl Output<'_> {
    // A number's digits: those before the last one, and the last one, as the definition has it. The kit's itoa would want a buffer.
    pub fn put_number(&mut self, x: u64)
        ensures { DidPut self.old self.new (decimal x) }
    {
        if x < BASE {
            self.put(b'0' + x as u8);
            return;
        }
        self.put_number(x / BASE);
        self.put(b'0' + (x % BASE) as u8);
    }

    // A number, and the byte that ends it.
    pub fn put_field(&mut self, x: u64, end: u8)
        ensures { DidPut self.old self.new (decimal x ++ (end ∷ [])) }
    {
        self.put_number(x);
        self.put(end);
    }
}
