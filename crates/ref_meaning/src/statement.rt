// Statements (C17 6.8).

ghost use Rattle.std.specs.Prelude.{◌≡◌, ◌∷◌, ℕ, suc, ◌+◌, ◌<◌, ◌^◌, List, length, OnOk, OnErr, IsOk, IfErr};
ghost use Rattle.std.specs.Vec.{vec_len, vec_capacity};
ghost use Rattle.c_typed.specs.Table.{Interned};
ghost use Rattle.c_typed.specs.Views.{value_in};
ghost use Rattle.c_typed.specs.StatementViews.{stmt_in, local_in};
ghost use Rattle.ref_meaning.specs.Trees.{ValueFits, StmtFits, LocalFits};
ghost use Rattle.ref_semantics.specs.Meaning as rules;
ghost use Rattle.ref_semantics.specs.Meaning.{Normal};
ghost use Rattle.ref_semantics.specs.Parts.{StmtPart};
ghost use Rattle.ref_semantics.specs.Steps.{ScalarGiven, WayGiven};
ghost use Rattle.ref_meaning.specs.RefStore.Views.{ScalarStands};
ghost use Rattle.ref_meaning.specs.Promises.{part_seen, scalar_seen};
ghost use Rattle.ref_meaning.specs.declared.control.Frame as memory_frame;
ghost use Rattle.ref_meaning.specs.declared.control.Node.TheVariants as N;
ghost use Rattle.ref_meaning.specs.declared.control.Stage.TheVariants as S;
ghost use Rattle.ref_meaning.specs.declared.control.Task.TheVariants as K;
ghost use Rattle.ref_meaning.specs.declared.run.Halt.TheVariants as Halts;
ghost use Rattle.ref_meaning.specs.Views.{table_of, part_in, completion_in, given_in, waiting, at_item, behind_body, locals_of, stack_of, stmt_of, loop_of};
ghost use Rattle.ref_meaning.specs.Holding.{IsConsistent, NodeStands, GivenStands, CompletionStands, Fits, HasItems, IsSwitch, IsLoop, IsTurning, Awaits};
ghost use Rattle.ref_meaning.specs.Doing.{TakesNone, IsInnermost, IsOnTop, IsOfStatement, innermost, taking, performing, turning, beginning_turn, asking, body_in};
ghost use Rattle.ref_meaning.specs.Items.{IsBlock, block_of, start_of, ItemIs, StartLocalIs, declaring, ending_turn};
ghost use Rattle.ref_meaning.specs.Moving.{Moves, IsKept, IsSame, Becomes};

use crate::control::{Completion, Control, Frame, Given, Node, Stage, Task};
use crate::label::case_item;
use crate::run::{Halt, RefRun};
use crate::value::{Place, Scalar};
use c_typed::{BlockItem, ForStart, LocalDef, Stmt, SwitchItem, Value};
use run_theory::Pos;

/// An item of a block, by its number.
fn block_item(block: Node<'_>, number: usize) -> Option<&BlockItem>
    ensures { (table : Interned) → NodeStands table block.entry → ItemIs table number (block_of (part_in table block.entry)) result }
{
    match block {
        Node::Stmt(stmt) => inner_item(stmt, number),
        Node::Body(function) => function.body.get(number),
        _ => None,
    }
}

fn inner_item(stmt: &Stmt, number: usize) -> Option<&BlockItem>
    ensures { (table : Interned) → StmtFits table stmt.now → ItemIs table number (block_of (StmtPart (stmt_in table stmt.now))) result }
{
    match stmt {
        Stmt::Block(items) => items.get(number),
        _ => None,
    }
}

/// A local that a `for` begins with, by its number.
fn start_local(stmt: &Stmt, number: usize) -> Option<&LocalDef>
    ensures { (table : Interned) → StmtFits table stmt.now → StartLocalIs table number (locals_of (start_of (stmt_in table stmt.now))) result }
{
    match stmt {
        Stmt::For { start, .. } => match start {
            ForStart::Locals(locals) => locals.get(number),
            _ => None,
        },
        _ => None,
    }
}

/// How a `switch` ends whose items end so.
fn broken_out(way: Completion<'_>) -> Completion<'_>
    ensures means { (table : Interned) → completion_in table result ≡ rules.broken_out (completion_in table way.entry) }
    ensures stands { (table : Interned) → CompletionStands table way.entry → CompletionStands table result }
{
    match way {
        Completion::Break => Completion::Normal,
        way => way,
    }
}

/// A loop's body.
fn body_of(stmt: &Stmt) -> Node<'_>
    requires { IsLoop (N.Stmt stmt) }
    ensures is { (table : Interned) → part_in table result ≡ StmtPart (body_in (loop_of (stmt_in table stmt.now))) }
    ensures stands { (table : Interned) → StmtFits table stmt.now → NodeStands table result }
{
    Node::Stmt(match stmt {
        Stmt::While { body, .. } => &**body,
        Stmt::DoWhile { body, .. } => &**body,
        Stmt::For { body, .. } => &**body,
        _ => stmt,
    })
}

impl<'a> RefRun<'a> {
    /// Begins a statement.
    pub(crate) fn perform(&mut self, stmt: &'a Stmt) -> Result<(), Halt>
        requires holds { IsConsistent self.old }
        requires free { TakesNone self.old.control.task }
        requires unawaited { Awaits (stack_of self.old) → ⊥ }
        requires stands { StmtFits (table_of self.old) stmt.now }
        ensures moves { Moves self.old self.new (performing self.old (stmt_in (table_of self.old) stmt.now)) result }
        ensures kept { IsKept self.old self.new }
    {
        let node = Node::Stmt(stmt);
        match stmt {
            Stmt::Block(_) => {
                self.open_scope(node, Stage::Item(0))?;
                self.go(Completion::Normal)
            }
            Stmt::Empty => self.go(Completion::Normal),
            Stmt::Expression(value) => self.wait(node, Stage::First, Node::Value(value)),
            Stmt::If { condition, .. } => self.wait(node, Stage::First, Node::Value(condition)),
            Stmt::IfElse { condition, .. } => {
                self.wait(node, Stage::First, Node::Value(condition))
            }
            Stmt::While { condition, .. } => {
                self.wait(node, Stage::First, Node::Value(condition))
            }
            Stmt::DoWhile { body, .. } => self.wait(node, Stage::Turn, Node::Stmt(&**body)),
            Stmt::For { start, .. } => match start {
                ForStart::Nothing => {
                    self.open_scope(node, Stage::Begin)?;
                    self.go(Completion::Normal)
                }
                ForStart::Value(value) => {
                    self.open_scope(node, Stage::Begin)?;
                    self.enter(Node::Value(value))
                }
                ForStart::Locals(_) => {
                    self.open_scope(node, Stage::Item(0))?;
                    self.go(Completion::Normal)
                }
            },
            Stmt::Switch { value, .. } => self.wait(node, Stage::First, Node::Value(value)),
            Stmt::Break => self.go(Completion::Break),
            Stmt::Continue => self.go(Completion::Continue),
            Stmt::Return(value) => match value {
                None => self.go(Completion::Return(None)),
                Some(value) => self.wait(node, Stage::First, Node::Value(value)),
            },
        }
    }

    /// A scope begins, in which a part waits at a stage.
    fn open_scope(&mut self, node: Node<'a>, stage: Stage<'a>) -> Result<(), Halt>
        ensures opens { OnOk result (Becomes self.old self.new self.old.control (record { node = node.entry; stage = stage.entry }
            ∷ record { node = N.Nothing; stage = S.Scope (length self.old.store.locals.items) } ∷ stack_of self.old)) }
        ensures same { OnErr result (IsSame self.old self.new) }
        ensures only { IfErr result (λ e. e ≡ Halts.OutOfMemory) }
    {
        self.frames.reserve(2)?;
        let scope = Frame {
            node: Node::Nothing,
            stage: Stage::Scope(self.store.height()),
        };
        self.frames.push(scope).unwrap();
        self.frames.push(Frame { node, stage }).unwrap();
        Ok(())
    }

    /// Hands on the value that a statement waits for.
    pub(crate) fn give_value(
        &mut self,
        top: usize,
        stmt: &'a Stmt,
        value: Scalar<'a>,
    ) -> Result<(), Halt>
        requires holds { IsConsistent self.old }
        requires free { TakesNone self.old.control.task }
        requires stands { StmtFits (table_of self.old) stmt.now }
        requires value { ScalarStands (table_of self.old) value }
        requires innermost { IsInnermost self.old top (StmtPart (stmt_in (table_of self.old) stmt.now)) S.First }
        ensures moves { Moves self.old self.new (taking self.old (waiting (StmtPart (stmt_in (table_of self.old) stmt.now)))
            (ScalarGiven (scalar_seen self.old value.entry))) result }
        ensures kept { IsKept self.old self.new }
    {
        match stmt {
            Stmt::If { then, .. } => {
                self.let_go();
                if value.is_true() {
                    self.enter(Node::Stmt(&**then))
                } else {
                    self.go(Completion::Normal)
                }
            }
            Stmt::IfElse {
                then,
                otherwise,
                ..
            } => {
                self.let_go();
                if value.is_true() {
                    self.enter(Node::Stmt(&**then))
                } else {
                    self.enter(Node::Stmt(&**otherwise))
                }
            }
            Stmt::While { .. } | Stmt::DoWhile { .. } | Stmt::For { .. } => {
                if value.is_true() {
                    self.turn(top, stmt)
                } else {
                    self.done(Given::Completion(Completion::Normal))
                }
            }
            Stmt::Switch { .. } => {
                self.at_stage(top, Node::Stmt(stmt), Stage::Turn);
                self.control = Control {
                    node: Node::Stmt(stmt),
                    task: Task::Label {
                        value: value.integer(),
                        number: 0,
                        default: None,
                    },
                };
                Ok(())
            }
            Stmt::Return(_) => self.done(Given::Completion(Completion::Return(Some(value)))),
            _ => self.done(Given::Completion(Completion::Normal)),
        }
    }

    /// Hands on to a statement what a part of it came to.
    pub(crate) fn give_statement(
        &mut self,
        top: usize,
        node: Node<'a>,
        stage: Stage<'a>,
        given: Given<'a>,
    ) -> Result<(), Halt>
        requires holds { IsConsistent self.old }
        requires free { TakesNone self.old.control.task }
        requires node { NodeStands (table_of self.old) node }
        requires stage { IsOfStatement stage }
        requires fits { Fits node stage }
        requires given { GivenStands (table_of self.old) given }
        requires innermost { IsInnermost self.old top (part_in (table_of self.old) node) stage }
        ensures moves { Moves self.old self.new (taking self.old (innermost self.old (part_seen self.old node.entry) stage.entry)
            (given_in (table_of self.old) given.entry)) result }
        ensures kept { IsKept self.old self.new }
    {
        match stage {
            Stage::Local(place) => {
                let here = Pos { line: 1, column: 1 };
                self.store.write(here, place, given.scalar())?;
                self.done(Given::Completion(Completion::Normal))
            }
            Stage::Scope(height) => {
                self.store.leave(height);
                self.done(Given::Completion(given.way()))
            }
            Stage::Item(number) => self.next_item(top, node, number, given.way()),
            Stage::Begin | Stage::Step => self.begin_turn(top, node),
            Stage::Turn => self.after_turn(top, node, given.way()),
            _ => self.done(given),
        }
    }

    /// Goes on behind an item of a block, of a `switch`, or of the locals of a `for`.
    fn next_item(
        &mut self,
        top: usize,
        node: Node<'a>,
        number: usize,
        way: Completion<'a>,
    ) -> Result<(), Halt>
        requires holds { IsConsistent self.old }
        requires free { TakesNone self.old.control.task }
        requires node { NodeStands (table_of self.old) node }
        requires items { HasItems node }
        requires way { CompletionStands (table_of self.old) way }
        requires innermost { IsInnermost self.old top (part_in (table_of self.old) node) (S.Item number) }
        ensures moves { Moves self.old self.new (taking self.old (at_item (part_seen self.old node.entry) number)
            (WayGiven (completion_in (table_of self.old) way.entry))) result }
        ensures kept { IsKept self.old self.new }
    {
        match node {
            Node::Stmt(stmt) => match stmt {
                Stmt::For { .. } => match start_local(stmt, number) {
                    Some(local) => self.declare(top, node, number, local),
                    None => self.begin_turn(top, node),
                },
                Stmt::Switch { .. } => match way {
                    Completion::Normal => self.next_case_item(top, stmt, number),
                    way => self.done(Given::Completion(way)),
                },
                _ => self.next_block_item(top, node, number, way),
            },
            _ => self.next_block_item(top, node, number, way),
        }
    }

    fn next_case_item(&mut self, top: usize, stmt: &'a Stmt, number: usize) -> Result<(), Halt>
        requires holds { IsConsistent self.old }
        requires free { TakesNone self.old.control.task }
        requires stands { StmtFits (table_of self.old) stmt.now }
        requires items { IsSwitch (N.Stmt stmt) }
        requires innermost { IsInnermost self.old top (StmtPart (stmt_in (table_of self.old) stmt.now)) (S.Item number) }
        ensures moves { Moves self.old self.new (taking self.old (at_item (StmtPart (stmt_in (table_of self.old) stmt.now)) number) (WayGiven Normal)) result }
        ensures kept { IsKept self.old self.new }
    {
        match case_item(stmt, number) {
            Some(item) => {
                self.at_stage(top, Node::Stmt(stmt), Stage::Item(number + 1));
                match item {
                    SwitchItem::Statement(inner) => self.enter(Node::Stmt(inner)),
                    _ => self.go(Completion::Normal),
                }
            }
            None => self.done(Given::Completion(Completion::Normal)),
        }
    }

    fn next_block_item(
        &mut self,
        top: usize,
        node: Node<'a>,
        number: usize,
        way: Completion<'a>,
    ) -> Result<(), Halt>
        requires holds { IsConsistent self.old }
        requires free { TakesNone self.old.control.task }
        requires node { NodeStands (table_of self.old) node }
        requires items { IsBlock node }
        requires way { CompletionStands (table_of self.old) way }
        requires innermost { IsInnermost self.old top (part_in (table_of self.old) node) (S.Item number) }
        ensures moves { Moves self.old self.new (taking self.old (at_item (part_seen self.old node.entry) number)
            (WayGiven (completion_in (table_of self.old) way.entry))) result }
        ensures kept { IsKept self.old self.new }
    {
        match way {
            Completion::Normal => match block_item(node, number) {
                Some(item) => match item {
                    BlockItem::Local(local) => self.declare(top, node, number, local),
                    BlockItem::Statement(stmt) => {
                        self.at_stage(top, node, Stage::Item(number + 1));
                        self.enter(Node::Stmt(stmt))
                    }
                },
                None => self.done(Given::Completion(Completion::Normal)),
            },
            way => self.done(Given::Completion(way)),
        }
    }

    /// A local begins to live, and then its first value is evaluated; what waits goes on behind it.
    fn declare(
        &mut self,
        top: usize,
        node: Node<'a>,
        number: usize,
        local: &'a LocalDef,
    ) -> Result<(), Halt>
        requires holds { IsConsistent self.old }
        requires free { TakesNone self.old.control.task }
        requires node { NodeStands (table_of self.old) node }
        requires items { HasItems node }
        requires local { LocalFits (table_of self.old) local.now }
        requires number { suc number < 2 ^ 64 }
        requires innermost { IsInnermost self.old top (part_in (table_of self.old) node) (S.Item number) }
        ensures moves { Moves self.old self.new (declaring self.old (local_in (table_of self.old) local.now)
            (at_item (part_seen self.old node.entry) (suc number))) result }
        ensures kept { IsKept self.old self.new }
    {
        self.frames.reserve(1)?;
        let place = self.store.new_local(local.c_type)?;
        let stage = Stage::Item(number + 1);
        match &local.first {
            Some(value) => self.begin_local(top, node, stage, place, value),
            None => {
                self.at_stage(top, node, stage);
                self.go(Completion::Normal)
            }
        }
    }

    /// What waits comes to another stage, and in front of it a local waits for its first value.
    fn begin_local(
        &mut self,
        top: usize,
        node: Node<'a>,
        stage: Stage<'a>,
        place: Place<'a>,
        value: &'a Value,
    ) -> Result<(), Halt>
        requires room { vec_len self.old.frames < vec_capacity self.old.frames }
        requires top { suc top ≡ length self.old.frames.items }
        ensures becomes { (first : memory_frame.Frame) (others : List memory_frame.Frame) → stack_of self.old ≡ first ∷ others
            → Becomes self.old self.new (record { node = N.Value value.entry; task = K.Enter }) (record { node = N.Nothing; stage = S.Local place.entry }
            ∷ record { node = node.entry; stage = stage.entry } ∷ others) }
        ensures ok { IsOk result }
    {
        self.frames[top] = Frame { node, stage };
        self.frames.push_reserved(Frame {
            node: Node::Nothing,
            stage: Stage::Local(place),
        });
        self.enter(Node::Value(value))
    }

    /// A loop's body is performed.
    fn turn(&mut self, top: usize, stmt: &'a Stmt) -> Result<(), Halt>
        requires holds { IsConsistent self.old }
        requires free { TakesNone self.old.control.task }
        requires stands { StmtFits (table_of self.old) stmt.now }
        requires is_loop { IsLoop (N.Stmt stmt) }
        requires top { IsOnTop self.old top (StmtPart (stmt_in (table_of self.old) stmt.now)) }
        ensures moves { Moves self.old self.new (turning self.old (stmt_in (table_of self.old) stmt.now)) result }
        ensures kept { IsKept self.old self.new }
    {
        self.at_stage(top, Node::Stmt(stmt), Stage::Turn);
        self.enter(body_of(stmt))
    }

    /// A turn begins with the condition, where there is one before the body.
    fn begin_turn(&mut self, top: usize, node: Node<'a>) -> Result<(), Halt>
        requires holds { IsConsistent self.old }
        requires free { TakesNone self.old.control.task }
        requires node { NodeStands (table_of self.old) node }
        requires is_loop { IsLoop node }
        requires top { IsOnTop self.old top (part_in (table_of self.old) node) }
        ensures moves { Moves self.old self.new (beginning_turn self.old (stmt_of (part_in (table_of self.old) node.entry))) result }
        ensures kept { IsKept self.old self.new }
    {
        let Node::Stmt(stmt) = node else {
            return self.done(Given::Completion(Completion::Normal));
        };
        match stmt {
            Stmt::While { condition, .. } => self.ask(top, node, condition),
            Stmt::For { condition, .. } => match condition {
                Some(condition) => self.ask(top, node, condition),
                None => self.turn(top, stmt),
            },
            _ => self.turn(top, stmt),
        }
    }

    /// A loop's condition is evaluated.
    fn ask(&mut self, top: usize, node: Node<'a>, condition: &'a Value) -> Result<(), Halt>
        requires holds { IsConsistent self.old }
        requires free { TakesNone self.old.control.task }
        requires node { NodeStands (table_of self.old) node }
        requires is_loop { IsLoop node }
        requires top { IsOnTop self.old top (part_in (table_of self.old) node) }
        requires condition { ValueFits (table_of self.old) condition.now }
        ensures moves { Moves self.old self.new (asking self.old (stmt_of (part_seen self.old node.entry))
            (value_in (table_of self.old) condition.now)) result }
        ensures kept { IsKept self.old self.new }
    {
        self.at_stage(top, node, Stage::First);
        self.enter(Node::Value(condition))
    }

    /// What follows a loop's body, or the items of a `switch`.
    fn after_turn(&mut self, top: usize, node: Node<'a>, way: Completion<'a>) -> Result<(), Halt>
        requires holds { IsConsistent self.old }
        requires free { TakesNone self.old.control.task }
        requires node { NodeStands (table_of self.old) node }
        requires turns { IsTurning node }
        requires way { CompletionStands (table_of self.old) way }
        requires innermost { IsInnermost self.old top (part_in (table_of self.old) node) S.Turn }
        ensures moves { Moves self.old self.new (taking self.old (behind_body (part_seen self.old node.entry))
            (WayGiven (completion_in (table_of self.old) way.entry))) result }
        ensures kept { IsKept self.old self.new }
    {
        let Node::Stmt(stmt) = node else {
            return self.done(Given::Completion(way));
        };
        if let Stmt::Switch { .. } = stmt {
            return self.done(Given::Completion(broken_out(way)));
        }
        match way.after_body() {
            Some(way) => self.done(Given::Completion(way)),
            None => self.end_turn(top, stmt),
        }
    }

    /// What follows the body of a turn that goes on.
    fn end_turn(&mut self, top: usize, stmt: &'a Stmt) -> Result<(), Halt>
        requires holds { IsConsistent self.old }
        requires free { TakesNone self.old.control.task }
        requires stands { StmtFits (table_of self.old) stmt.now }
        requires is_loop { IsLoop (N.Stmt stmt) }
        requires innermost { IsInnermost self.old top (StmtPart (stmt_in (table_of self.old) stmt.now)) S.Turn }
        ensures moves { Moves self.old self.new (ending_turn self.old (stmt_in (table_of self.old) stmt.now)) result }
        ensures kept { IsKept self.old self.new }
    {
        match stmt {
            Stmt::DoWhile { condition, .. } => self.ask(top, Node::Stmt(stmt), condition),
            Stmt::For { step, .. } => match step {
                Some(step) => {
                    self.at_stage(top, Node::Stmt(stmt), Stage::Step);
                    self.enter(Node::Value(step))
                }
                None => self.begin_turn(top, Node::Stmt(stmt)),
            },
            _ => self.begin_turn(top, Node::Stmt(stmt)),
        }
    }
}
