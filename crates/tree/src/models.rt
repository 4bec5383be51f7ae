// The content models as a table, and what else the check asks of a kind.
ghost use Rattle.std.specs.Prelude.{◌≡◌, ◌≤◌};
ghost use Rattle.syntax.specs.Kind.{is_text, number_of};
ghost use Rattle.syntax.specs.Shape.{step, final, opens, needs};
ghost use Rattle.tree.specs.Models.{Right, next_of, parent};

use syntax::kind::Kind;

// The kinds that have a model, the list's as 0 among them; the states of a kind; the bytes of a state.
const KINDS: usize = 1 + Kind::NamedArgument as usize;

const STATES: usize = 4;

const ROW: usize = KINDS + 1;

type Model = [u8; STATES * ROW];

// A T kind.
const NO_CHILDREN: Model = *b"\
        ----------------------------\
        ----------------------------\
        ----------------------------\
        ----------------------------";

// A comment: 8s.
const LINES: Model = *b"\
        --------0------------------+\
        ----------------------------\
        ----------------------------\
        ----------------------------";

// A variant: 17 or 18, then 11.
const VARIANT: Model = *b"\
        -----------------11---------\
        -----------c----------------\
        ---------------------------+\
        ----------------------------";

// For each kind, and for each of the states that its children lead through, a byte for each kind of a child: '-' if no such child
// may follow, else the state that it leads to, as a digit for a T child and as a letter from 'a' on for another. The last byte
// is '+' if a node of the kind may end in the state. The rows of a kind are one array: each more makes the proof longer.
// A match over kind, state and child would be plainer, and took the check 1.2 times as long; cells of a type would hide the rows.
static MODELS: [Model; KINDS] = [
    // the list: 1 to 7, each 6 right before a 1 or 2
    *b"\
        -aaaaab0-------------------+\
        -aa-------------------------\
        ----------------------------\
        ----------------------------",
    // message: 9, 11 if any, 10s
    *b"\
        ---------1------------------\
        ----------cc---------------+\
        ----------c----------------+\
        ----------------------------",
    // term: 9, 11, 10s
    *b"\
        ---------1------------------\
        -----------c----------------\
        ----------c----------------+\
        ----------------------------",
    // comments
    LINES,
    LINES,
    LINES,
    LINES,
    // junk, comment line, identifier
    NO_CHILDREN,
    NO_CHILDREN,
    NO_CHILDREN,
    // attribute: 9, 11
    *b"\
        ---------1------------------\
        -----------c----------------\
        ---------------------------+\
        ----------------------------",
    // pattern: 12s and 13s
    *b"\
        ------------0a-------------+\
        ----------------------------\
        ----------------------------\
        ----------------------------",
    // text
    NO_CHILDREN,
    // placeable: one expression
    *b"\
        -------------bb----11bbbb---\
        ---------------------------+\
        ----------------------------\
        ----------------------------",
    // select: an inline, then 15s or 16s
    *b"\
        -------------b-----11bbbb---\
        ---------------bb----------+\
        ----------------------------\
        ----------------------------",
    // variant, default variant
    VARIANT,
    VARIANT,
    // keys, string, number
    NO_CHILDREN,
    NO_CHILDREN,
    NO_CHILDREN,
    NO_CHILDREN,
    // variable: 9
    *b"\
        ---------1------------------\
        ---------------------------+\
        ----------------------------\
        ----------------------------",
    // function: 9, 25
    *b"\
        ---------1------------------\
        -------------------------c--\
        ---------------------------+\
        ----------------------------",
    // message reference: 9, then 9 if written
    *b"\
        ---------1------------------\
        ---------2-----------------+\
        ---------------------------+\
        ----------------------------",
    // term reference: 9, then 9, then 25, each of these two if written
    *b"\
        ---------1------------------\
        ---------2---------------d-+\
        -------------------------d-+\
        ---------------------------+",
    // arguments: inlines, then 26s
    *b"\
        -------------a-----00aaaa-b+\
        --------------------------b+\
        ----------------------------\
        ----------------------------",
    // named argument: 9, an inline
    *b"\
        ---------1------------------\
        -------------c-----22cccc---\
        ---------------------------+\
        ----------------------------",
];

// The state that a T child leads to, or another child.
#[derive(Clone, Copy, PartialEq, Eq, Debug)]
pub enum Next {
    Text(u8),
    Node(u8),
}

// The table, with what holds of it: whoever names the static itself has its bytes in a proof.
fn models() -> &'static [Model; KINDS]
    ensures { Right result.now }
{
    &MODELS
}

// A node that is open: its kind, none for the list, and the state that its children have led to, the number of a row of the table.
#[derive(Clone, Copy)]
pub struct Node {
    pub kind: Option<Kind>,
    pub state: u8,
}

impl Node {
    // The place of the kind's model in the table.
    fn index(self) -> usize
        ensures { result ≡ parent self.kind }
    {
        self.kind.map_or(0, |kind| kind.number() as usize)
    }

    // Where a child leads, if such a child may follow.
    pub fn step(self, child: Kind) -> Option<Next>
        requires { self.state ≤ 3 }
        ensures { result ≡ next_of (is_text (number_of child)) (step (parent self.kind) self.state (number_of child)) }
    {
        let next = models()[self.index()][ROW * self.state as usize + child.number() as usize];
        if next == b'-' {
            None
        } else if next < b'a' {
            Some(Next::Text(next - b'0'))
        } else {
            Some(Next::Node(next - b'a'))
        }
    }

    // Whether the node may end here.
    pub fn may_end(self) -> bool
        requires { self.state ≤ 3 }
        ensures { result ≡ final (parent self.kind) self.state }
    {
        models()[self.index()][ROW * self.state as usize + KINDS] == b'+'
    }
}

// The openings of '{' and '(' that a node of the kind makes: a placeable and arguments.
pub fn opens(kind: Kind) -> u8
    ensures { result ≡ opens (number_of kind) }
{
    match kind {
        Kind::Placeable | Kind::Arguments => 1,
        _ => 0,
    }
}

// The openings that must be left where a node of the kind begins: a function needs its arguments.
pub fn needs(kind: Kind) -> u8
    ensures { result ≡ needs (number_of kind) }
{
    match kind {
        Kind::Placeable | Kind::FunctionReference | Kind::Arguments => 1,
        _ => 0,
    }
}
