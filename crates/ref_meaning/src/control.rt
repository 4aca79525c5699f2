// What a run does next, and what it does after that.

ghost use Rattle.std.specs.Prelude.{◌≡◌, option_map, IfSome};
ghost use Rattle.c_typed.specs.Table.{Interned};
ghost use Rattle.ref_semantics.specs.Meaning as meaning;
ghost use Rattle.ref_semantics.specs.Steps as steps;
ghost use Rattle.ref_meaning.specs.RefStore.Views.{scalar_in, ScalarStands};
ghost use Rattle.ref_meaning.specs.Views.{completion_in, given_in};
ghost use Rattle.ref_meaning.specs.Holding.{CompletionStands, GivenStands, GivenFinds, PointsToElement};

use crate::value::{Place, Scalar};
use c_typed::{Designator, FunctionDef, Object, Stmt, Value};
use run_theory::{Pos, UbKind};

/// A part of the program that is entered: an expression for its value, for its object, for the address of that or for its
/// function, a statement, or a function's body.
#[derive(Clone, Copy)]
pub(crate) enum Node<'a> {
    Value(&'a Value),
    Object(&'a Object),
    Address(&'a Object),
    Designator(&'a Designator),
    Stmt(&'a Stmt),
    Body(&'a FunctionDef),
    Nothing,
}

/// How a statement ends.
#[derive(Clone, Copy)]
pub(crate) enum Completion<'a> {
    Normal,
    Break,
    Continue,
    Return(Option<Scalar<'a>>),
}

impl<'a> Completion<'a> {
    /// How a loop ends after its body, unless it goes on.
    pub(crate) fn after_body(self) -> Option<Completion<'a>>
        ensures means { (table : Interned) → option_map (completion_in table) result ≡ meaning.after_body (completion_in table self.entry) }
        ensures stands { (table : Interned) → CompletionStands table self.entry → IfSome result (CompletionStands table) }
    {
        match self {
            Completion::Normal | Completion::Continue => None,
            Completion::Break => Some(Completion::Normal),
            Completion::Return(value) => Some(Completion::Return(value)),
        }
    }
}

/// What an expression or a statement came to.
#[derive(Clone, Copy)]
pub(crate) enum Given<'a> {
    Scalar(Scalar<'a>),
    Completion(Completion<'a>),
}

impl<'a> Given<'a> {
    pub(crate) fn scalar(self) -> Scalar<'a>
        ensures means { (table : Interned) → scalar_in table result ≡ steps.scalar_of (given_in table self.entry) }
        ensures stands { (table : Interned) → GivenStands table self.entry → ScalarStands table result }
        ensures finds { (table : Interned) → GivenFinds table self.entry → PointsToElement table result }
    {
        match self {
            Given::Scalar(value) => value,
            Given::Completion(_) => Scalar::Null,
        }
    }

    pub(crate) fn way(self) -> Completion<'a>
        ensures means { (table : Interned) → completion_in table result ≡ steps.way_of (given_in table self.entry) }
        ensures stands { (table : Interned) → GivenStands table self.entry → CompletionStands table result }
    {
        match self {
            Given::Scalar(_) => Completion::Normal,
            Given::Completion(way) => way,
        }
    }
}

/// What is done next, with a part of the program.
#[derive(Clone, Copy)]
pub(crate) struct Control<'a> {
    pub(crate) node: Node<'a>,
    pub(crate) task: Task<'a>,
}

/// What is done with a part of the program.
#[derive(Clone, Copy)]
pub(crate) enum Task<'a> {
    /// `main` is called.
    Start,
    Enter,
    /// The called name of a library function is entered, and so many parentheses around it before.
    Library(usize),
    /// A call is made, whose arguments are the newest operands, so many.
    Apply {
        function: Scalar<'a>,
        count: usize,
    },
    /// The parameters of a function from this one on get their values, which are the newest operands.
    Bind {
        count: usize,
        number: usize,
    },
    /// A label of a `switch` is looked for, from an item on.
    Label {
        value: i128,
        number: usize,
        default: Option<usize>,
    },
    /// It came to this.
    Give(Given<'a>),
    Over(Final),
}

/// How the program ends.
#[derive(Clone, Copy)]
pub(crate) enum Final {
    Ended(u8),
    Depth,
    Undefined(UbKind, Pos),
}

/// How far a part of the program is that waits for a value, or for the end of a statement.
#[derive(Clone, Copy)]
pub(crate) enum Stage<'a> {
    /// For the first operand.
    First,
    /// The first operand is known.
    Second(Scalar<'a>),
    /// For the right operand of `&&` or `||`.
    Right,
    /// For the next argument: the function, and so many arguments, are known.
    Argument {
        function: Scalar<'a>,
        count: usize,
    },
    /// A local, for its first value.
    Local(Place<'a>),
    /// At the item of this number of a block, of a `switch`, or of the locals of a `for`.
    Item(usize),
    /// A loop before its first turn.
    Begin,
    /// A loop, for its body.
    Turn,
    /// A loop, for its step.
    Step,
    /// A block whose locals die at its end, until so many are left.
    Scope(usize),
    /// A function that runs: whether its value is used, the place of the call, and how many locals the callers of its
    /// caller have.
    Call {
        is_used: bool,
        place: Pos,
        base: usize,
    },
}

/// What waits: a part of the program.
#[derive(Clone, Copy)]
pub(crate) struct Frame<'a> {
    pub(crate) node: Node<'a>,
    pub(crate) stage: Stage<'a>,
}
