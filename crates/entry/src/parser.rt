// core.rs: the parser, a source and the tree to which the marks of what is read are written. As in the Rust its functions stand in
// parser_core.rt and in the files for comments, patterns and expressions. That the marks' reference is the same is a clause of its own of
// each, which the check finds alone. How many marks may still be written differs from one to the next, so it is asked (`Room`) and is no
// field's fact; `left`, how deep placeables and calls may still nest, falls with a call and is as before after it, so it is handed on.
ghost use Rattle.std.specs.Prelude.{◌≤◌, length};
ghost use Rattle.syntax.specs.Layout.{tree_capacity};

use crate::marks::Marks;
use crate::source::Source;

#[derive(Drop)]
pub struct Parser<'s, 'p, 't> {
    pub source: Source<'s>,
    pub tree: &'p mut Marks<'t>,
    pub ghost holds: { tree_capacity (length source.bytes.now) ≤ tree.now.capacity },
}
