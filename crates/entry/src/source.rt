// A source, and a place in it. The functions that move over it stand in helper.rt and string.rt. Their loops are by `while`: each turn moves
// the place itself, by any of these functions, and an iterator over the bytes would have to hold it meanwhile.
ghost use Rattle.std.specs.Prelude.{◌≤◌, length};
ghost use Rattle.syntax.specs.Limits.{max_length};

#[derive(Clone, Copy)]
pub struct Source<'s> {
    pub bytes: &'s [u8],
    pub ptr: usize,
    pub ghost inside: { ptr ≤ length bytes.now },
    pub ghost short: { length bytes.now ≤ max_length },
}
