// The shape of a mark list, checked in one pass: whether the list is well formed, or else the value of refusal 6.
ghost use Rattle.std.specs.Prelude.{ℕ, ◌≡◌, ◌≢◌, Bool, true, false, List};
ghost use Rattle.std.proofs.Math.Option.{some};
ghost use Rattle.utf8.specs.Utf8.{is_boundary};
ghost use Rattle.syntax.specs.Kind.{number_of, is_text};
ghost use Rattle.syntax.specs.Layout.{mark_of, marks_in};
ghost use Rattle.syntax.specs.Tests.{sizes_fit};
ghost use Rattle.syntax.specs.Limits.{max_open};
ghost use Rattle.syntax.specs.Shape.{step, enter, step_mark, may_end, verdict};
ghost use Rattle.tree.specs.Models.{parent};
ghost use Rattle.tree.specs.Shape.{shape_of, frames_in, state_of, outcome, Fits, Reached, Known};

use crate::models::{Next, Node, needs, opens};
use syntax::kind::Kind;
use syntax::layout::{MARKS_A_BYTE, SIZES};
use syntax::limits;

// The largest capacity, that of a longest source's tree.
const MAX_CAPACITY: usize = MARKS_A_BYTE * limits::MAX_LENGTH;

// The most openings at one time, and the most nodes around an open one.
const MAX_OPEN: u8 = limits::MAX_OPEN as u8;

const MOST_FRAMES: usize = 4 * limits::MAX_OPEN + 3;

// The innermost open node, how many more openings may follow, and how many nodes are open around it.
#[derive(Clone, Copy)]
struct Open {
    node: Node,
    left: u8,
    depth: usize,
}

// Where the check stands: between two children of the innermost open node, or within a T child of a kind that starts at a place.
// It goes from step to step by value: beside the stack's array it made the check take 1.5 times as long.
#[derive(Clone, Copy)]
enum State {
    Between(Open),
    Within(Kind, u32, Open),
}

// Whether the slice has the sizes, and they fit each other and the slice.
pub fn sizes_fit(tree: &[u32]) -> bool
    ensures { result ≡ sizes_fit tree.now }
{
    let [count, capacity, ..] = *tree else {
        return false;
    };
    let capacity = capacity as usize;
    capacity <= MAX_CAPACITY && count as usize <= capacity && SIZES + 2 * capacity <= tree.len()
}

impl State {
    // Whether a list may end here.
    fn may_be_last(self) -> bool
        requires known { Known self }
        ensures { (frames : List Node) → result ≡ may_end (state_of frames self) }
    {
        match self {
            State::Between(o) => o.depth == 0 && o.node.may_end(),
            State::Within(_, _, _) => false,
        }
    }
}

// What a step of the check works on. A mark's kind and place are two parameters: they come side by side from two arrays, and are asked each
// by itself.
#[derive(Drop)]
struct Checker<'a> {
    source: &'a [u8],
    // The nodes around the innermost open one, from the outermost on.
    frames: [Node; MOST_FRAMES],
}

// A step leads on to a state, or to none where no well-formed list goes on with the mark.
impl Checker<'_> {
    // Opens a child that has no text, which leads the node that is open to the state `next`. That node waits on the stack.
    fn enter(&mut self, o: Open, child: Kind, next: u8) -> Option<State>
        requires fits { Fits self.old.frames o }
        requires child_kind { is_text (number_of child) ≡ false }
        requires child_step { step (parent o.node.kind) o.node.state (number_of child) ≡ some next }
        ensures goes { outcome self.new.frames result
            ≡ enter o.left (parent o.node.kind) o.node.state (frames_in self.old.frames o.depth) (number_of child) }
        ensures source { self.new.source ≡ self.old.source }
    {
        if o.left < needs(child) {
            return None;
        }
        self.frames[o.depth] = Node {
            state: next,
            ..o.node
        };
        Some(State::Between(Open {
            node: Node {
                kind: Some(child),
                state: 0,
            },
            left: o.left - opens(child),
            depth: o.depth + 1,
        }))
    }

    // Closes the node that is open, and goes on in the one around it.
    fn leave(&self, o: Open, kind: u32, place: u32) -> Option<State>
        requires fits { Fits self.now.frames o }
        requires no_kind { (k : Kind) → number_of k ≢ kind }
        ensures { (boundary : ℕ → Bool)
            → outcome self.now.frames result
            ≡ step_mark boundary (state_of self.now.frames (State.Between o)) (mark_of kind place) }
    {
        let closed = o.node.kind?;
        if kind != closed.closing() || place != 0 || !o.node.may_end() {
            return None;
        }
        let outer = o.depth.checked_sub(1)?;
        Some(State::Between(Open {
            node: self.frames[outer],
            left: o.left + opens(closed),
            depth: outer,
        }))
    }

    // Starts a T child, which leads the node that is open to the state `next`.
    fn start(&self, o: Open, child: Kind, next: u8, place: u32) -> Option<State>
        requires child_kind { is_text (number_of child) ≡ true }
        requires child_step { step (parent o.node.kind) o.node.state (number_of child) ≡ some next }
        ensures { outcome self.now.frames result
            ≡ step_mark (is_boundary self.now.source.now) (state_of self.now.frames (State.Between o)) (mark_of (number_of child) place) }
    {
        let node = Node {
            state: next,
            ..o.node
        };
        utf8::is_boundary(self.source, place as usize).then_some(State::Within(
            child,
            place,
            Open { node, ..o },
        ))
    }

    // Ends the T child of the kind `text` that starts at `start`.
    fn stop(&self, text: Kind, start: u32, o: Open, kind: u32, end: u32) -> Option<State>
        requires { is_text (number_of text) ≡ true }
        ensures { outcome self.now.frames result
            ≡ step_mark (is_boundary self.now.source.now) (state_of self.now.frames (State.Within text start o)) (mark_of kind end) }
    {
        if kind != text.closing() || end < start {
            return None;
        }
        utf8::is_boundary(self.source, end as usize).then_some(State::Between(o))
    }

    // A mark between two children: it opens a child, starts a T child, or closes the node.
    fn step_between(&mut self, o: Open, kind: u32, place: u32) -> Option<State>
        requires fits { Fits self.old.frames o }
        ensures goes { outcome self.new.frames result
            ≡ step_mark (is_boundary self.old.source.now) (state_of self.old.frames (State.Between o)) (mark_of kind place) }
        ensures source { self.new.source ≡ self.old.source }
    {
        let Ok(child) = Kind::try_from(kind) else {
            return self.leave(o, kind, place);
        };
        match o.node.step(child)? {
            Next::Text(next) => self.start(o, child, next, place),
            Next::Node(next) if place == 0 => self.enter(o, child, next),
            Next::Node(_) => None,
        }
    }

    // A mark, wherever the check stands.
    fn step_mark(&mut self, s: State, kind: u32, place: u32) -> Option<State>
        requires reached { Reached (is_boundary self.old.source.now) self.old.frames s }
        ensures goes { outcome self.new.frames result
            ≡ step_mark (is_boundary self.old.source.now) (state_of self.old.frames s) (mark_of kind place) }
        ensures source { self.new.source ≡ self.old.source }
    {
        match s {
            State::Between(o) => self.step_between(o, kind, place),
            State::Within(text, start, o) => self.stop(text, start, o, kind, place),
        }
    }
}

// The check of all the marks: nothing, or for a list that is not well formed the first mark with which no well-formed list can
// begin, the count if the list ends early.
pub fn check_shape(source: &[u8], tree: &[u32]) -> Result<(), usize>
    requires { sizes_fit tree.now ≡ true }
    ensures { result ≡ shape_of (verdict (is_boundary source.now) max_open (marks_in tree.now)) }
{
    let list = Node {
        kind: None,
        state: 0,
    };
    let mut checker = Checker {
        source,
        frames: [list; MOST_FRAMES],
    };
    let mut state = State::Between(Open {
        node: list,
        left: MAX_OPEN,
        depth: 0,
    });
    let count = tree[0] as usize;
    let second = SIZES + tree[1] as usize;
    let kinds = &tree[SIZES..SIZES + count];
    let places = &tree[second..second + count];
    for (i, (&kind, &place)) in kinds.iter().zip(places).enumerate() {
        state = checker.step_mark(state, kind, place).ok_or(i)?;
    }
    if state.may_be_last() {
        Ok(())
    } else {
        Err(count)
    }
}
