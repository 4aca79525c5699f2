// Runs of a program.

ghost use Rattle.std.specs.Prelude.{◌≡◌, ◌≢◌, ℕ, ℤ, ◌+◌, ◌^◌, ◌<◌, ◌≤◌, List, [], ◌∷◌, ◌++◌, Option, Some, Err, suc, length, IsOk, IfOk, OnOk, IfErr, OnErr};
ghost use Rattle.pcc_outside.specs.Outside.{Rose};
ghost use Rattle.c_typed.specs.declared.typed.LibraryFunction.TheVariants as Functions;
ghost use Rattle.c_typed.specs.Table.{Interned};
ghost use Rattle.c_typed.specs.Typed.{SwitchItems};
ghost use Rattle.c_typed.specs.DefinitionViews.{program_of, ProgramStands};
ghost use Rattle.c_typed.specs.Programs.{IsWellTyped};
ghost use Rattle.c_typed.specs.Sizes.{HasStorableTypes};
ghost use Rattle.ref_semantics.specs.Steps.{ScalarGiven, Search, First};
ghost use Rattle.ref_semantics.specs.Units.{takes_unit};
ghost use Rattle.ref_meaning.specs.RefStore.Views.{ScalarStands};
ghost use Rattle.ref_meaning.specs.Promises.{part_seen, scalar_seen, CallsNext};
ghost use Rattle.ref_meaning.specs.declared.control.Frame as memory_frame;
ghost use Rattle.ref_meaning.specs.declared.control.Given.TheVariants as G;
ghost use Rattle.ref_meaning.specs.declared.control.Stage.TheVariants as S;
ghost use Rattle.ref_meaning.specs.declared.control.Task.TheVariants as K;
ghost use Rattle.ref_meaning.specs.declared.run.Halt.TheVariants as Halts;
ghost use Rattle.ref_meaning.specs.Views.{table_of, part_in, given_in, final_of, waiting, stack_of, stmt_of, case_items_of, case_items_from};
ghost use Rattle.ref_meaning.specs.Holding.{IsConsistent, NodeStands, GivenStands, StageStands, Waits, Fits, IsObject, IsPlaced, PointsToElement, GivenFinds, AwaitsAt, Awaits};
ghost use Rattle.ref_meaning.specs.Doing.{TakesNone, IsInnermost, IsExpression, innermost, takes, taking, acting, evaluating};
ghost use Rattle.ref_meaning.specs.Moving.{Becomes, IsSame, IsKept, Moves, Acts};
ghost use Rattle.ref_meaning.specs.Numbers.{HasNumbers};
ghost use Rattle.ref_meaning.specs.Running.{Behaviour, behaviour_of, StandsFor, RunAnswers, SpendsNeeded, IsConsistentUnlessOver, end_in, answer_of, halted, spent_at, IsHalted};

use crate::call::is_call;
use crate::control::{Completion, Control, Final, Frame, Given, Node, Stage, Task};
use crate::entry::{Entry, beginning, spends};
use crate::first_operand::{Next, Role, after_first};
use crate::label::case_item;
use crate::operand::after_second;
use crate::store::Store;
use crate::value::{Scalar, Stop};
use c_typed::{FunctionDef, Program, SwitchItem};
use indexmap::IndexMap;
use pcc_outside::{Sink, Source};
use run_theory::{Pos, UbKind};
use std::alloc::{AllocError, Global};

/// How deep calls may nest (this project's rule).
pub(crate) const GREATEST_DEPTH: u32 = 10000;

/// Why a run stops.
#[derive(Clone, Copy, Debug, PartialEq, Eq)]
pub enum RefEnd {
    /// The program ended, with a status.
    Ended(u8),
    /// A call nests too deep.
    Depth,
    /// The program does what is undefined, of this kind and at this place.
    Undefined(UbKind, Pos),
    /// All units are spent.
    StepsSpent,
    ReadFault,
    WriteFault,
    OutOfMemory,
}

impl From<AllocError> for RefEnd {
    ghost use Rattle.ref_meaning.specs.declared.run.RefEnd.TheVariants as E;

    ghost from_gives = { λ _ e. e ≡ E.OutOfMemory };

    fn from(_: AllocError) -> RefEnd {
        RefEnd::OutOfMemory
    }
}

/// Why the next thing isn't done: it is undefined, or it can't be done now.
#[derive(Clone, Copy)]
pub(crate) enum Halt {
    Final(Final),
    ReadFault,
    WriteFault,
    OutOfMemory,
}

impl From<Stop> for Halt {
    ghost use Rattle.ref_meaning.specs.Moving.{halt_of};

    ghost from_gives = { λ stop e. e ≡ halt_of stop };

    fn from(stop: Stop) -> Halt {
        match stop {
            Stop::Undefined(kind, place) => Halt::Final(Final::Undefined(kind, place)),
            Stop::OutOfMemory => Halt::OutOfMemory,
        }
    }
}

impl From<AllocError> for Halt {
    ghost from_gives = { λ _ e. e ≡ Halts.OutOfMemory };

    fn from(_: AllocError) -> Halt {
        Halt::OutOfMemory
    }
}

/// A run of a program: where it stands.
#[derive(Drop)]
pub struct RefRun<'a> {
    pub(crate) program: &'a Program,
    /// The functions by their names.
    pub(crate) functions: IndexMap<&'a [u8], usize>,
    /// The function that the program begins with.
    pub(crate) main: Option<usize>,
    pub(crate) store: Store<'a>,
    pub(crate) control: Control<'a>,
    /// What waits, the innermost last.
    pub(crate) frames: Vec<Frame<'a>>,
    /// The arguments of calls that are being made, the newest last.
    pub(crate) operands: Vec<Scalar<'a>>,
    /// How many locals the callers of the function that runs have.
    pub(crate) base: usize,
    /// How many calls are nested.
    pub(crate) depth: u32,
    /// How many units were spent.
    pub spent: u64,
}

impl<'a> RefRun<'a> {
    /// A run before its first unit.
    pub fn new(alloc: Global, program: &'a Program) -> Result<RefRun<'a>, AllocError>
        requires stand { ProgramStands program.now }
        requires well_typed { IsWellTyped (program_of program.now) }
        requires storable { HasStorableTypes (program_of program.now) }
        ensures stands { IfOk result (λ run. StandsFor run [] (behaviour_of (program_of program.now))) }
        ensures spent { IfOk result (λ run. run.spent ≡ 0) }
    {
        let functions = by_name(alloc, program.functions.as_slice())?;
        let main = functions.get(&b"main".as_slice()).copied();
        Ok(RefRun {
            program,
            functions,
            main,
            store: Store::new(alloc, program)?,
            control: Control {
                node: Node::Nothing,
                task: Task::Start,
            },
            frames: Vec::new(alloc),
            operands: Vec::new(alloc),
            base: 0,
            depth: 0,
            spent: 0,
        })
    }

    /// Goes on with so many units. A run that is over answers its end again.
    pub fn run<I: Source, O: Sink>(&mut self, input: &mut I, out: &mut O, steps: u64) -> RefEnd
        requires holds { IsConsistentUnlessOver self.old }
        requires counted { self.old.spent + steps < 2 ^ 64 }
        ensures answers { (written : List ℕ) (behaviour : Behaviour) (base left : List ℕ) → StandsFor self.old written behaviour
            → I.left input.old ≡ Some left → O.written out.old ≡ Some (base ++ written)
            → RunAnswers self.old self.new behaviour base left steps result (I.left input.new) (O.written out.new) }
        ensures holds { IsConsistentUnlessOver self.new }
        ensures reads { result ≡ RefEnd.ReadFault → CallsNext Functions.GetChar self.new }
        ensures writes { result ≡ RefEnd.WriteFault → CallsNext Functions.PutChar self.new }
        ensures read_cause { result ≡ RefEnd.ReadFault → Rose (I.faults input.old) (I.faults input.new) }
        ensures write_cause { result ≡ RefEnd.WriteFault → Rose (O.faults out.old) (O.faults out.new) }
        ensures memory_cause { result ≡ RefEnd.OutOfMemory → (I.faults input.new ≡ I.faults input.old) × (O.faults out.new ≡ O.faults out.old) }
        ensures reads_counted { I.faults input.old ≤ I.faults input.new }
        ensures writes_counted { O.faults out.old ≤ O.faults out.new }
        ensures again { (final : Final) → end_in self.old.control.task ≡ Some final → (result ≡ answer_of final) × (self.new ≡ self.old)
            × (input.new ≡ input.old) × (out.new ≡ out.old) }
        ensures kept { (final : Final) → result ≡ answer_of final → end_in self.new.control.task ≡ Some final }
        ensures needed { (written : List ℕ) (behaviour : Behaviour) (base left : List ℕ) (final : Final) → StandsFor self.old written behaviour
            → I.left input.old ≡ Some left → O.written out.old ≡ Some (base ++ written) → result ≡ answer_of final
            → SpendsNeeded self.old self.new behaviour left steps (final_of final) }
        ensures counts { self.old.spent ≤ self.new.spent }
        ensures within { self.new.spent ≤ self.old.spent + steps }
    {
        match self.end() {
            Some(end) => end_of(end),
            None => self.go_on(input, out, steps),
        }
    }

    /// Goes on, unit by unit.
    fn go_on<I: Source, O: Sink>(&mut self, input: &mut I, out: &mut O, steps: u64) -> RefEnd
        requires holds { IsConsistentUnlessOver self.old }
        requires counted { self.old.spent + steps < 2 ^ 64 }
        ensures answers { (written : List ℕ) (behaviour : Behaviour) (base left : List ℕ) → StandsFor self.old written behaviour
            → I.left input.old ≡ Some left → O.written out.old ≡ Some (base ++ written)
            → RunAnswers self.old self.new behaviour base left steps result (I.left input.new) (O.written out.new) }
        ensures holds { IsConsistentUnlessOver self.new }
        ensures reads { result ≡ RefEnd.ReadFault → CallsNext Functions.GetChar self.new }
        ensures writes { result ≡ RefEnd.WriteFault → CallsNext Functions.PutChar self.new }
        ensures read_cause { result ≡ RefEnd.ReadFault → Rose (I.faults input.old) (I.faults input.new) }
        ensures write_cause { result ≡ RefEnd.WriteFault → Rose (O.faults out.old) (O.faults out.new) }
        ensures read_faultless { result ≢ RefEnd.ReadFault → I.faults input.new ≡ I.faults input.old }
        ensures write_faultless { result ≢ RefEnd.WriteFault → O.faults out.new ≡ O.faults out.old }
        ensures reads_counted { I.faults input.old ≤ I.faults input.new }
        ensures writes_counted { O.faults out.old ≤ O.faults out.new }
        ensures kept { (final : Final) → result ≡ answer_of final → end_in self.new.control.task ≡ Some final }
        ensures needed { (written : List ℕ) (behaviour : Behaviour) (base left : List ℕ) (final : Final) → StandsFor self.old written behaviour
            → I.left input.old ≡ Some left → O.written out.old ≡ Some (base ++ written) → result ≡ answer_of final
            → SpendsNeeded self.old self.new behaviour left steps (final_of final) }
        ensures counts { self.old.spent ≤ self.new.spent }
        ensures within { self.new.spent ≤ self.old.spent + steps }
    {
        let mut left = steps;
        for _ in 0..u64::MAX {
            match self.end() {
                Some(end) => return end_of(end),
                None => {}
            }
            let unit = u64::from(self.takes_unit());
            if unit > left {
                return RefEnd::StepsSpent;
            }
            match self.act(input, out) {
                Ok(()) => {
                    left -= unit;
                    self.spent += unit;
                }
                Err(halt) => return self.stop(halt, unit),
            }
        }
        RefEnd::OutOfMemory
    }

    /// How a run that is over ended.
    fn end(&self) -> Option<Final>
        ensures { result ≡ end_in self.now.control.task }
    {
        match self.control.task {
            Task::Over(end) => Some(end),
            _ => None,
        }
    }

    /// Says why what is next isn't done. Where it is over, the unit for that is spent.
    fn stop(&mut self, halt: Halt, unit: u64) -> RefEnd
        requires { self.old.spent + unit < 2 ^ 64 }
        ensures answer { result ≡ halted halt }
        ensures halted { IsHalted self.old halt self.new }
        ensures spent { self.new.spent ≡ self.old.spent + spent_at halt unit }
    {
        match halt {
            Halt::Final(end) => {
                self.control.task = Task::Over(end);
                self.spent += unit;
                end_of(end)
            }
            Halt::ReadFault => RefEnd::ReadFault,
            Halt::WriteFault => RefEnd::WriteFault,
            Halt::OutOfMemory => RefEnd::OutOfMemory,
        }
    }

    /// Whether a unit is spent on what is done next.
    fn takes_unit(&self) -> bool
        requires { IsConsistent self.now }
        ensures { result ≡ takes_unit (takes self.now) }
    {
        match self.control.task {
            Task::Enter => spends(self.control.node),
            Task::Library(_) => true,
            Task::Label { number, .. } => is_case(self.control.node, number),
            _ => false,
        }
    }

    /// Does what is next.
    fn act<I: Source, O: Sink>(&mut self, input: &mut I, out: &mut O) -> Result<(), Halt>
        requires { IsConsistent self.old }
        ensures holds { OnOk result (IsConsistent self.new) }
        ensures acts { Acts self.old self.new (acting self.old) result (I.left input.old) (O.written out.old) (I.left input.new) (O.written out.new) }
        ensures kept { IsKept self.old self.new }
        ensures reads { result ≡ Err Halts.ReadFault → CallsNext Functions.GetChar self.old }
        ensures writes { result ≡ Err Halts.WriteFault → CallsNext Functions.PutChar self.old }
        ensures read_cause { result ≡ Err Halts.ReadFault → Rose (I.faults input.old) (I.faults input.new) }
        ensures write_cause { result ≡ Err Halts.WriteFault → Rose (O.faults out.old) (O.faults out.new) }
        ensures read_faultless { result ≢ Err Halts.ReadFault → I.faults input.new ≡ I.faults input.old }
        ensures write_faultless { result ≢ Err Halts.WriteFault → O.faults out.new ≡ O.faults out.old }
        ensures reads_counted { I.faults input.old ≤ I.faults input.new }
        ensures writes_counted { O.faults out.old ≤ O.faults out.new }
    {
        let node = self.control.node;
        match self.control.task {
            Task::Start => self.start(),
            Task::Enter => match node {
                Node::Stmt(stmt) => self.perform(stmt),
                Node::Body(_) => self.part(node, Stage::Item(0), Completion::Normal),
                _ => self.evaluate(node),
            },
            Task::Library(groups) => self.library(node, groups),
            Task::Apply { function, count } => self.apply(node, function, count, input, out),
            Task::Bind { count, number } => self.bind(node, count, number),
            Task::Label {
                value,
                number,
                default,
            } => self.label(node, value, number, default),
            Task::Give(given) => self.give(given),
            Task::Over(_) => Ok(()),
        }
    }

    /// A part of the program is entered next.
    pub(crate) fn enter(&mut self, node: Node<'a>) -> Result<(), Halt>
        ensures becomes { Becomes self.old self.new (record { node = node.entry; task = K.Enter }) (stack_of self.old) }
        ensures ok { IsOk result }
    {
        self.control = Control {
            node,
            task: Task::Enter,
        };
        Ok(())
    }

    /// A part of the program came to this.
    pub(crate) fn came_to(&mut self, given: Given<'a>) -> Result<(), Halt>
        ensures becomes { Becomes self.old self.new (record { node = self.old.control.node; task = K.Give given.entry }) (stack_of self.old) }
        ensures ok { IsOk result }
    {
        self.control.task = Task::Give(given);
        Ok(())
    }

    /// A statement ends so.
    pub(crate) fn go(&mut self, way: Completion<'a>) -> Result<(), Halt>
        ensures becomes { Becomes self.old self.new (record { node = self.old.control.node; task = K.Give (G.Completion way.entry) }) (stack_of self.old) }
        ensures ok { IsOk result }
    {
        self.came_to(Given::Completion(way))
    }

    /// Waits at a stage while a part is entered.
    pub(crate) fn wait(
        &mut self,
        node: Node<'a>,
        stage: Stage<'a>,
        part: Node<'a>,
    ) -> Result<(), Halt>
        ensures waits { OnOk result (Becomes self.old self.new (record { node = part.entry; task = K.Enter })
            (record { node = node.entry; stage = stage.entry } ∷ stack_of self.old)) }
        ensures same { OnErr result (IsSame self.old self.new) }
        ensures only { IfErr result (λ e. e ≡ Halts.OutOfMemory) }
    {
        match self.frames.push(Frame { node, stage }) {
            Ok(()) => self.enter(part),
            Err(_) => Err(Halt::OutOfMemory),
        }
    }

    /// Waits at a stage, where a statement before it ended so.
    pub(crate) fn part(
        &mut self,
        node: Node<'a>,
        stage: Stage<'a>,
        way: Completion<'a>,
    ) -> Result<(), Halt>
        ensures waits { OnOk result (Becomes self.old self.new (record { node = self.old.control.node; task = K.Give (G.Completion way.entry) })
            (record { node = node.entry; stage = stage.entry } ∷ stack_of self.old)) }
        ensures same { OnErr result (IsSame self.old self.new) }
        ensures only { IfErr result (λ e. e ≡ Halts.OutOfMemory) }
    {
        match self.frames.push(Frame { node, stage }) {
            Ok(()) => self.go(way),
            Err(_) => Err(Halt::OutOfMemory),
        }
    }

    /// What waits comes to another stage.
    pub(crate) fn at_stage(&mut self, top: usize, node: Node<'a>, stage: Stage<'a>)
        requires { suc top ≡ length self.old.frames.items }
        ensures { (first : memory_frame.Frame) (others : List memory_frame.Frame) → stack_of self.old ≡ first ∷ others
            → Becomes self.old self.new self.old.control (record { node = node.entry; stage = stage.entry } ∷ others) }
    {
        self.frames[top] = Frame { node, stage };
    }

    /// What waits is left.
    pub(crate) fn let_go(&mut self)
        ensures { (first : memory_frame.Frame) (others : List memory_frame.Frame) → stack_of self.old ≡ first ∷ others
            → Becomes self.old self.new self.old.control others }
    {
        self.frames.pop();
    }

    /// What waits comes to this.
    pub(crate) fn done(&mut self, given: Given<'a>) -> Result<(), Halt>
        ensures becomes { (first : memory_frame.Frame) (others : List memory_frame.Frame) → stack_of self.old ≡ first ∷ others
            → Becomes self.old self.new (record { node = self.old.control.node; task = K.Give given.entry }) others }
        ensures ok { IsOk result }
    {
        self.frames.pop();
        self.came_to(given)
    }

    /// Begins to evaluate an expression.
    fn evaluate(&mut self, node: Node<'a>) -> Result<(), Halt>
        requires holds { IsConsistent self.old }
        requires free { TakesNone self.old.control.task }
        requires node { NodeStands (table_of self.old) node }
        requires expression { IsExpression node }
        requires finds { Awaits (stack_of self.old) → IsObject node }
        ensures moves { Moves self.old self.new (evaluating self.old (part_in (table_of self.old) node.entry)) result }
        ensures kept { IsKept self.old self.new }
    {
        match beginning(node) {
            Entry::Give(value) => self.came_to(Given::Scalar(value)),
            Entry::Local(number) => {
                let place = self.store.local(self.base, number);
                self.came_to(Given::Scalar(Scalar::Pointer(place)))
            }
            Entry::Named(name) => {
                let place = self.store.named(name);
                self.came_to(Given::Scalar(Scalar::Pointer(place)))
            }
            Entry::Enter { part, waits } => {
                if waits {
                    self.wait(node, Stage::First, part)
                } else {
                    self.enter(part)
                }
            }
            Entry::Library(groups) => {
                self.control = Control {
                    node,
                    task: Task::Library(groups),
                };
                Ok(())
            }
        }
    }

    /// Hands on what a part of the program came to.
    fn give(&mut self, given: Given<'a>) -> Result<(), Halt>
        requires holds { IsConsistent self.old }
        requires task { self.old.control.task ≡ K.Give given }
        ensures moves { Moves self.old self.new (acting self.old) result }
        ensures kept { IsKept self.old self.new }
    {
        let Some(top) = self.frames.len().checked_sub(1) else {
            let status = given.scalar().integer().rem_euclid(256) as u8;
            self.control.task = Task::Over(Final::Ended(status));
            return Ok(());
        };
        let Frame { node, stage } = self.frames[top];
        self.hand_on(top, node, stage, given)
    }

    /// Hands on to what waits what a part of it came to.
    fn hand_on(
        &mut self,
        top: usize,
        node: Node<'a>,
        stage: Stage<'a>,
        given: Given<'a>,
    ) -> Result<(), Halt>
        requires holds { IsConsistent self.old }
        requires free { TakesNone self.old.control.task }
        requires node { NodeStands (table_of self.old) node }
        requires fits { Fits node stage }
        requires stage { StageStands (table_of self.old) stage }
        requires given { GivenStands (table_of self.old) given }
        requires placed { AwaitsAt node stage → GivenFinds (table_of self.old) given }
        requires innermost { IsInnermost self.old top (part_in (table_of self.old) node) stage }
        ensures moves { Moves self.old self.new (taking self.old (innermost self.old (part_seen self.old node.entry) stage.entry)
            (given_in (table_of self.old) given.entry)) result }
        ensures kept { IsKept self.old self.new }
    {
        match stage {
            Stage::First => self.give_first(top, node, given.scalar()),
            Stage::Second(first) => {
                let value = after_second(&mut self.store, node, first, given.scalar())?;
                self.done(Given::Scalar(value))
            }
            Stage::Right => self.done(Given::Scalar(Scalar::truth(given.scalar().is_true()))),
            Stage::Argument { function, count } => {
                self.give_argument(top, node, function, count, given.scalar())
            }
            Stage::Call {
                is_used,
                place,
                base,
            } => self.give_call(node, is_used, place, base, given.way()),
            _ => self.give_statement(top, node, stage, given),
        }
    }

    /// Hands on the first operand.
    fn give_first(&mut self, top: usize, node: Node<'a>, first: Scalar<'a>) -> Result<(), Halt>
        requires holds { IsConsistent self.old }
        requires free { TakesNone self.old.control.task }
        requires node { NodeStands (table_of self.old) node }
        requires waits { Waits node }
        requires first { ScalarStands (table_of self.old) first }
        requires placed { IsPlaced node → PointsToElement (table_of self.old) first }
        requires innermost { IsInnermost self.old top (part_in (table_of self.old) node) S.First }
        ensures moves { Moves self.old self.new (taking self.old (waiting (part_seen self.old node.entry))
            (ScalarGiven (scalar_seen self.old first.entry))) result }
        ensures kept { IsKept self.old self.new }
    {
        match node {
            Node::Stmt(stmt) => self.give_value(top, stmt, first),
            Node::Value(value) => {
                if is_call(value) {
                    self.give_function(top, node, first)
                } else {
                    self.give_operand(top, node, first)
                }
            }
            _ => self.give_operand(top, node, first),
        }
    }

    /// Hands on the first operand of an expression that is no call.
    fn give_operand(&mut self, top: usize, node: Node<'a>, first: Scalar<'a>) -> Result<(), Halt>
        requires holds { IsConsistent self.old }
        requires free { TakesNone self.old.control.task }
        requires node { NodeStands (table_of self.old) node }
        requires waits { Waits node }
        requires first { ScalarStands (table_of self.old) first }
        requires placed { IsPlaced node → PointsToElement (table_of self.old) first }
        requires innermost { IsInnermost self.old top (part_in (table_of self.old) node) S.First }
        requires operand { waiting (part_in (table_of self.old) node) ≡ First (part_in (table_of self.old) node) }
        ensures moves { Moves self.old self.new (taking self.old (waiting (part_seen self.old node.entry))
            (ScalarGiven (scalar_seen self.old first.entry))) result }
        ensures kept { IsKept self.old self.new }
    {
        let next = after_first(&mut self.store, node, first)?;
        match next {
            Next::Given(value) => self.done(Given::Scalar(value)),
            Next::Enter { part, role } => match role {
                Role::Second => {
                    self.at_stage(top, node, Stage::Second(first));
                    self.enter(part)
                }
                Role::Right => {
                    self.at_stage(top, node, Stage::Right);
                    self.enter(part)
                }
                Role::Whole => {
                    self.let_go();
                    self.enter(part)
                }
            },
        }
    }
}

/// Whether an item of a `switch` is a `case`.
fn is_case(switch: Node<'_>, number: usize) -> bool
    ensures { (table : Interned) (z : ℤ) (default : Option SwitchItems) → NodeStands table switch.entry
        → result ≡ takes_unit (Search z (case_items_from number (case_items_of (stmt_of (part_in table switch.entry)))) default) }
{
    match switch {
        Node::Stmt(stmt) => match case_item(stmt, number) {
            Some(SwitchItem::Case(_)) => true,
            _ => false,
        },
        _ => false,
    }
}

/// The numbers of functions by their names: where several have one name, that of the first.
fn by_name<'a>(
    alloc: Global,
    functions: &'a [FunctionDef],
) -> Result<IndexMap<&'a [u8], usize>, AllocError>
    ensures { IfOk result (λ numbers. HasNumbers numbers 0 functions.entry.now) }
{
    let mut numbers = IndexMap::new(alloc);
    let mut number = functions.len();
    while number > 0 {
        number -= 1;
        numbers.insert(functions[number].name.as_slice(), number)?;
    }
    Ok(numbers)
}

fn end_of(end: Final) -> RefEnd
    ensures { result ≡ answer_of end }
{
    match end {
        Final::Ended(status) => RefEnd::Ended(status),
        Final::Depth => RefEnd::Depth,
        Final::Undefined(kind, place) => RefEnd::Undefined(kind, place),
    }
}
