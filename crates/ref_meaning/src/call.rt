// Calls (C17 6.5.2.2, 6.9.1).

ghost use Rattle.std.specs.Prelude.{◌≡◌, ◌≢◌, ◌≤◌, ℕ, suc, List, [], ◌∷◌, length, drop, slice_get, Option, Some, None, option_map, Err, IsOk, IfOk, IfSome, OnOk};
ghost use Rattle.pcc_outside.specs.Outside.{Rose, TakesByte};
ghost use Rattle.c_typed.specs.declared.typed.LibraryFunction.TheVariants as Functions;
ghost use Rattle.c_typed.specs.Types.{same_type};
ghost use Rattle.c_typed.specs.Table.{Interned, Stands, type_in};
ghost use Rattle.c_typed.specs.Views.{value_in, values_in};
ghost use Rattle.c_typed.specs.DefinitionViews.{function_in};
ghost use Rattle.ref_meaning.specs.Trees.{ValueFits, ValuesFit, FunctionFits};
ghost use Rattle.ref_semantics.specs.First.{main_type};
ghost use Rattle.ref_semantics.specs.Library as rules;
ghost use Rattle.ref_semantics.specs.Library.{library};
ghost use Rattle.ref_semantics.specs.Values as values;
ghost use Rattle.ref_semantics.specs.Steps as steps;
ghost use Rattle.ref_semantics.specs.Steps.{ScalarGiven, WayGiven};
ghost use Rattle.ref_meaning.specs.Fitting.{IsObjectType};
ghost use Rattle.ref_meaning.specs.RefStore.Views.{scalar_in, ScalarStands};
ghost use Rattle.ref_meaning.specs.Promises.{part_seen, scalar_seen, newest_seen, CallsNext};
ghost use Rattle.ref_meaning.specs.declared.control.Frame as memory_frame;
ghost use Rattle.ref_meaning.specs.declared.control.Stage.TheVariants as S;
ghost use Rattle.ref_meaning.specs.declared.control.Task.TheVariants as K;
ghost use Rattle.ref_meaning.specs.declared.run.Halt.TheVariants as Halts;
ghost use Rattle.ref_meaning.specs.Views.{table_of, part_in, completion_in, waiting, arguments_of, arguments_from, newest, operands_of, operands_after, stack_of, around_run, functions_of, function_of, config_in};
ghost use Rattle.ref_meaning.specs.Holding.{IsConsistent, NodeStands, CompletionStands, IsCall, IsBody, Awaits};
ghost use Rattle.ref_meaning.specs.Doing.{TakesNone, IsOwnCall, IsInnermost, innermost, taking, acting};
ghost use Rattle.ref_meaning.specs.Moving.{Moves, Acts, IsKept, Becomes, IsNext};
ghost use Rattle.ref_meaning.specs.Calling.{is_own_call, IsArgument, OptionalNode, arguments_in, GoesOn, Evaluates, IsStored, Remains, only_of};

use crate::control::{Completion, Control, Final, Frame, Given, Node, Stage, Task};
use crate::run::{GREATEST_DEPTH, Halt, RefRun};
use crate::value::Scalar;
use c_num::IntType;
use c_typed::{CType, FunctionDef, LibraryFunction, Shape, Value};
use pcc_outside::{Sink, Source, read_byte, write_byte};
use run_theory::{Pos, UbKind};

/// Whether it is a call of a function of the program.
pub(crate) fn is_call(value: &Value) -> bool
    ensures { result ≡ is_own_call value.now }
{
    match value {
        Value::Call { .. } => true,
        _ => false,
    }
}

/// An argument of a call, by its number.
fn argument(call: Node<'_>, number: usize) -> Option<Node<'_>>
    ensures is { (table : Interned) → IsArgument table (arguments_in table call.entry number) result }
    ensures stands { (table : Interned) → NodeStands table call.entry → OptionalNode table result }
{
    match call {
        Node::Value(value) => argument_of(value, number),
        _ => None,
    }
}

fn argument_of(value: &Value, number: usize) -> Option<Node<'_>>
    ensures is { (table : Interned) → IsArgument table (arguments_from number (arguments_of (value_in table value.now))) result }
    ensures stands { (table : Interned) → ValueFits table value.now → OptionalNode table result }
{
    match value {
        Value::Call { arguments, .. } => numbered(arguments, number),
        Value::LibraryCall { arguments, .. } => numbered(arguments, number),
        _ => None,
    }
}

fn numbered(arguments: &[Value], number: usize) -> Option<Node<'_>>
    ensures is { (table : Interned) → IsArgument table (arguments_from number (values_in table arguments.now)) result }
    ensures stands { (table : Interned) → ValuesFit table arguments.now → OptionalNode table result }
{
    match arguments.get(number) {
        Some(argument) => Some(Node::Value(argument)),
        None => None,
    }
}

impl<'a> RefRun<'a> {
    /// Calls `main` (C17 5.1.2.2.1).
    pub(crate) fn start(&mut self) -> Result<(), Halt>
        requires holds { IsConsistent self.old }
        requires task { self.old.control.task ≡ K.Start }
        ensures moves { Moves self.old self.new (acting self.old) result }
        ensures kept { IsKept self.old self.new }
    {
        let place = Pos { line: 1, column: 1 };
        match self.main {
            Some(number) => {
                let function = &self.program.functions[number];
                if !self.is_main_type(function.c_type) {
                    return Err(Halt::Final(Final::Undefined(UbKind::U14, place)));
                }
                self.begin(true, place, function, 0)
            }
            None => self.came_to(Given::Scalar(Scalar::Null)),
        }
    }

    /// Whether it is the type of a function of no parameters that gives an `int`.
    fn is_main_type(&self, c_type: CType) -> bool
        requires { Stands self.now.program.now.types c_type }
        ensures { result ≡ same_type (type_in self.now.program.now.types c_type) main_type }
    {
        let types = &self.program.types;
        match types.shape(c_type) {
            Shape::Function { result, parameters } => {
                types.same(result, CType::integer(IntType::Int))
                    && types.first_parameter(parameters).is_none()
            }
            _ => false,
        }
    }

    /// The name of a library function, and the parentheses around it, are entered.
    pub(crate) fn library(&mut self, call: Node<'a>, groups: usize) -> Result<(), Halt>
        requires holds { IsConsistent self.old }
        requires control { self.old.control ≡ record { node = call; task = K.Library groups } }
        ensures moves { Moves self.old self.new (acting self.old) result }
        ensures kept { IsKept self.old self.new }
    {
        if groups > 0 {
            self.control.task = Task::Library(groups - 1);
            return Ok(());
        }
        let function = Scalar::Null;
        match argument(call, 0) {
            Some(first) => self.wait(call, Stage::Argument { function, count: 0 }, first),
            None => self.ready(call, function, 0),
        }
    }

    /// All arguments of a call are known.
    fn ready(&mut self, node: Node<'a>, function: Scalar<'a>, count: usize) -> Result<(), Halt>
        ensures becomes { Becomes self.old self.new (record { node = node.entry; task = K.Apply function.entry count }) (stack_of self.old) }
        ensures ok { IsOk result }
    {
        self.control = Control {
            node,
            task: Task::Apply { function, count },
        };
        Ok(())
    }

    /// The function of a call is known.
    pub(crate) fn give_function(
        &mut self,
        top: usize,
        call: Node<'a>,
        function: Scalar<'a>,
    ) -> Result<(), Halt>
        requires holds { IsConsistent self.old }
        requires free { TakesNone self.old.control.task }
        requires call { IsOwnCall call }
        requires node { NodeStands (table_of self.old) call }
        requires function { ScalarStands (table_of self.old) function }
        requires innermost { IsInnermost self.old top (part_in (table_of self.old) call) S.First }
        ensures moves { Moves self.old self.new (taking self.old (waiting (part_seen self.old call.entry))
            (ScalarGiven (scalar_seen self.old function.entry))) result }
        ensures kept { IsKept self.old self.new }
    {
        self.next_argument(top, call, function, 0)
    }

    /// One more argument of a call is known.
    pub(crate) fn give_argument(
        &mut self,
        top: usize,
        call: Node<'a>,
        function: Scalar<'a>,
        count: usize,
        argument: Scalar<'a>,
    ) -> Result<(), Halt>
        requires holds { IsConsistent self.old }
        requires free { TakesNone self.old.control.task }
        requires node { NodeStands (table_of self.old) call }
        requires function { ScalarStands (table_of self.old) function }
        requires argument { ScalarStands (table_of self.old) argument }
        requires call { IsCall call }
        requires innermost { IsInnermost self.old top (part_in (table_of self.old) call) (S.Argument function count) }
        ensures moves { Moves self.old self.new (taking self.old (innermost self.old (part_seen self.old call.entry) (S.Argument function.entry count))
            (ScalarGiven (scalar_seen self.old argument.entry))) result }
        ensures kept { IsKept self.old self.new }
    {
        match self.operands.push(argument) {
            Ok(()) => self.next_argument(top, call, function, count + 1),
            Err(_) => Err(Halt::OutOfMemory),
        }
    }

    /// So many arguments of a call are known.
    fn next_argument(
        &mut self,
        top: usize,
        call: Node<'a>,
        function: Scalar<'a>,
        count: usize,
    ) -> Result<(), Halt>
        requires number { suc top ≡ length self.old.frames.items }
        requires node { NodeStands (table_of self.old) call }
        ensures goes { (first : memory_frame.Frame) (others : List memory_frame.Frame) → stack_of self.old ≡ first ∷ others
            → GoesOn self.old self.new call.entry function.entry count others }
        ensures ok { IsOk result }
    {
        match argument(call, count) {
            Some(next) => {
                self.at_stage(top, call, Stage::Argument { function, count });
                self.enter(next)
            }
            None => {
                self.frames.pop();
                self.ready(call, function, count)
            }
        }
    }

    /// A call is made.
    pub(crate) fn apply<I: Source, O: Sink>(
        &mut self,
        call: Node<'a>,
        function: Scalar<'a>,
        count: usize,
        input: &mut I,
        out: &mut O,
    ) -> Result<(), Halt>
        requires holds { IsConsistent self.old }
        requires control { self.old.control ≡ record { node = call; task = K.Apply function count } }
        ensures holds { OnOk result (IsConsistent self.new) }
        ensures acts { Acts self.old self.new (acting self.old) result (I.left input.old) (O.written out.old) (I.left input.new) (O.written out.new) }
        ensures kept { IsKept self.old self.new }
        ensures reads { result ≡ Err Halts.ReadFault → CallsNext Functions.GetChar self.old }
        ensures writes { result ≡ Err Halts.WriteFault → CallsNext Functions.PutChar self.old }
        ensures read_cause { result ≡ Err Halts.ReadFault → Rose (I.faults input.old) (I.faults input.new) }
        ensures write_cause { result ≡ Err Halts.WriteFault → Rose (O.faults out.old) (O.faults out.new) }
        ensures read_faultless { result ≢ Err Halts.ReadFault → I.faults input.new ≡ I.faults input.old }
        ensures write_faultless { result ≢ Err Halts.WriteFault → O.faults out.new ≡ O.faults out.old }
        ensures reads_counted { I.faults input.old ≤ I.faults input.new }
        ensures writes_counted { O.faults out.old ≤ O.faults out.new }
    {
        match call {
            Node::Value(expression) => match expression {
                Value::Call {
                    is_used,
                    place,
                    c_type,
                    ..
                } => self.call(*is_used, *place, *c_type, function, count),
                Value::LibraryCall {
                    function,
                    place,
                    ..
                } => {
                    let value = self.call_library(*function, *place, count, input, out)?;
                    self.operands.truncate(self.operands.len() - count);
                    self.came_to(Given::Scalar(value))
                }
                _ => self.came_to(Given::Scalar(Scalar::Null)),
            },
            _ => self.came_to(Given::Scalar(Scalar::Null)),
        }
    }

    /// Calls a function of a type.
    fn call(
        &mut self,
        is_used: bool,
        place: Pos,
        c_type: CType,
        function: Scalar<'a>,
        count: usize,
    ) -> Result<(), Halt>
        requires holds { IsConsistent self.old }
        requires task { self.old.control.task ≡ K.Apply function count }
        requires c_type { Stands (table_of self.old) c_type }
        ensures moves { Moves self.old self.new (steps.make_call (around_run self.old) (functions_of self.old) is_used place
            (type_in (table_of self.old) c_type) (scalar_seen self.old function.entry) (newest_seen self.old count) (config_in self.old)) result }
        ensures kept { IsKept self.old self.new }
    {
        let Scalar::Function(name) = function else {
            return Err(Halt::Final(Final::Undefined(UbKind::U15, place)));
        };
        match self.functions.get(&name).copied() {
            Some(number) => {
                let function = &self.program.functions[number];
                if !self.program.types.same(function.c_type, c_type) {
                    return Err(Halt::Final(Final::Undefined(UbKind::U14, place)));
                }
                self.begin(is_used, place, function, count)
            }
            None => {
                self.operands.truncate(self.operands.len() - count);
                self.came_to(Given::Scalar(Scalar::Null))
            }
        }
    }

    /// Begins a call, whose arguments are the newest operands.
    fn begin(
        &mut self,
        is_used: bool,
        place: Pos,
        function: &'a FunctionDef,
        count: usize,
    ) -> Result<(), Halt>
        requires holds { IsConsistent self.old }
        requires unawaited { Awaits (stack_of self.old) → ⊥ }
        requires function { FunctionFits (table_of self.old) function.now }
        requires there { count ≤ length (operands_of self.old) }
        requires operands { operands_after self.old.control.task (operands_of self.old) ≡ drop count (operands_of self.old) }
        ensures moves { (number : ℕ) → Moves self.old self.new
            (steps.begin_call (around_run self.old) (functions_of self.old) is_used place number (function_in (table_of self.old) function.now)
            (newest_seen self.old count) (config_in self.old).frames (config_in self.old).depth) result }
        ensures kept { IsKept self.old self.new }
    {
        if self.depth >= GREATEST_DEPTH {
            return Err(Halt::Final(Final::Depth));
        }
        let node = Node::Body(function);
        let stage = Stage::Call {
            is_used,
            place,
            base: self.base,
        };
        if self.frames.push(Frame { node, stage }).is_err() {
            return Err(Halt::OutOfMemory);
        }
        self.base = self.store.height();
        self.depth += 1;
        self.control = Control {
            node,
            task: Task::Bind { count, number: 0 },
        };
        Ok(())
    }

    /// A parameter gets its value (C17 6.9.1 paragraph 10).
    pub(crate) fn bind(&mut self, node: Node<'a>, count: usize, number: usize) -> Result<(), Halt>
        requires holds { IsConsistent self.old }
        requires control { self.old.control ≡ record { node = node; task = K.Bind count number } }
        ensures moves { Moves self.old self.new (acting self.old) result }
        ensures kept { IsKept self.old self.new }
    {
        let first = self.operands.len() - count;
        if number < count {
            if let Some(c_type) = parameter(node, number) {
                let value = self.operands[first + number];
                self.store.new_holding(c_type, value)?;
                self.control.task = Task::Bind {
                    count,
                    number: number + 1,
                };
                return Ok(());
            }
        }
        self.operands.truncate(first);
        self.enter(node)
    }

    /// A function returns (C17 6.8.6.4, 6.9.1 paragraph 12).
    pub(crate) fn give_call(
        &mut self,
        node: Node<'a>,
        is_used: bool,
        place: Pos,
        base: usize,
        way: Completion<'a>,
    ) -> Result<(), Halt>
        requires holds { IsConsistent self.old }
        requires free { TakesNone self.old.control.task }
        requires node { NodeStands (table_of self.old) node }
        requires body { IsBody node }
        requires way { CompletionStands (table_of self.old) way }
        requires innermost { (top : ℕ) × IsInnermost self.old top (part_in (table_of self.old) node) (S.Call is_used place base) }
        ensures moves { Moves self.old self.new (taking self.old (innermost self.old (part_seen self.old node.entry) (S.Call is_used place base))
            (WayGiven (completion_in (table_of self.old) way.entry))) result }
        ensures kept { IsKept self.old self.new }
    {
        let returned = match way {
            Completion::Return(value) => value,
            _ => None,
        };
        let value = match returned {
            Some(value) => value,
            None => match node {
                Node::Body(function) => {
                    if function.name.as_slice() == b"main".as_slice() {
                        Scalar::Integer(0)
                    } else if is_used && !self.program.types.same(function.returned, CType::VOID) {
                        return Err(Halt::Final(Final::Undefined(UbKind::U16, place)));
                    } else {
                        Scalar::Null
                    }
                }
                _ => Scalar::Null,
            },
        };
        self.store.leave(self.base);
        self.base = base;
        self.depth -= 1;
        self.done(Given::Scalar(value))
    }

    /// What a library function gives (C17 7.21.7, 7.22.3, 7.22.4.4).
    fn call_library<I: Source, O: Sink>(
        &mut self,
        function: LibraryFunction,
        place: Pos,
        count: usize,
        input: &mut I,
        out: &mut O,
    ) -> Result<Scalar<'a>, Halt>
        requires holds { IsConsistent self.old }
        requires there { count ≤ length (operands_of self.old) }
        ensures evaluates { Evaluates self.old self.new (library (around_run self.old) function place (newest_seen self.old count)) result (I.left input.old)
            (O.written out.old) (I.left input.new) (O.written out.new) }
        ensures stored { IsStored self.old self.new }
        ensures remains { OnOk result (Remains self.old self.new) }
        ensures stands { IfOk result (ScalarStands (table_of self.old)) }
        ensures reads { result ≡ Err Halts.ReadFault → function ≡ Functions.GetChar }
        ensures writes { result ≡ Err Halts.WriteFault → function ≡ Functions.PutChar }
        ensures read_cause { result ≡ Err Halts.ReadFault → Rose (I.faults input.old) (I.faults input.new) }
        ensures write_cause { result ≡ Err Halts.WriteFault → Rose (O.faults out.old) (O.faults out.new) }
        ensures read_faultless { result ≢ Err Halts.ReadFault → I.faults input.new ≡ I.faults input.old }
        ensures write_faultless { result ≢ Err Halts.WriteFault → O.faults out.new ≡ O.faults out.old }
        ensures reads_counted { I.faults input.old ≤ I.faults input.new }
        ensures writes_counted { O.faults out.old ≤ O.faults out.new }
    {
        match self.only_argument(count) {
            Some(argument) => self.call_with(function, place, argument, out),
            None => self.call_without(function, count, input),
        }
    }

    /// The argument of a call that has no other.
    fn only_argument(&self, count: usize) -> Option<Scalar<'a>>
        requires holds { IsConsistent self.now }
        requires there { count ≤ length (operands_of self.now) }
        ensures is { option_map (scalar_in (table_of self.now)) result ≡ only_of (newest (table_of self.now) count (operands_of self.now)) }
        ensures stands { IfSome result (ScalarStands (table_of self.now)) }
    {
        if count == 1 {
            Some(self.operands[self.operands.len() - 1])
        } else {
            None
        }
    }

    /// What a library function gives that gets one argument.
    fn call_with<O: Sink>(
        &mut self,
        function: LibraryFunction,
        place: Pos,
        argument: Scalar<'a>,
        out: &mut O,
    ) -> Result<Scalar<'a>, Halt>
        requires { ScalarStands (table_of self.old) argument }
        ensures evaluates { (is_left : Option (List ℕ)) → Evaluates self.old self.new
            (library (around_run self.old) function place (scalar_seen self.old argument.entry ∷ [])) result is_left (O.written out.old) is_left
            (O.written out.new) }
        ensures stored { IsStored self.old self.new }
        ensures remains { OnOk result (Remains self.old self.new) }
        ensures stands { IfOk result (ScalarStands (table_of self.old)) }
        ensures unread { result ≡ Err Halts.ReadFault → ⊥ }
        ensures writes { result ≡ Err Halts.WriteFault → function ≡ Functions.PutChar }
        ensures write_cause { result ≡ Err Halts.WriteFault → Rose (O.faults out.old) (O.faults out.new) }
        ensures write_faultless { result ≢ Err Halts.WriteFault → O.faults out.new ≡ O.faults out.old }
        ensures writes_counted { O.faults out.old ≤ O.faults out.new }
    {
        match function {
            LibraryFunction::Malloc => Ok(self.store.allocate(argument.integer())?),
            LibraryFunction::Free => {
                self.store.free(place, argument)?;
                Ok(Scalar::Null)
            }
            LibraryFunction::PutChar => {
                let byte = low_byte(argument);
                match write_byte(out, byte) {
                    Ok(()) => Ok(Scalar::Integer(i128::from(byte))),
                    Err(_) => Err(Halt::WriteFault),
                }
            }
            LibraryFunction::Exit => Err(Halt::Final(Final::Ended(low_byte(argument)))),
            LibraryFunction::GetChar => Ok(Scalar::Null),
        }
    }

    /// What a library function gives that gets no argument, or several.
    fn call_without<I: Source>(
        &self,
        function: LibraryFunction,
        count: usize,
        input: &mut I,
    ) -> Result<Scalar<'a>, Halt>
        ensures evaluates { (place : Pos) (given : List values.Scalar) (written : Option (List ℕ)) → count ≡ length given → only_of given ≡ None
            → Evaluates self.now self.now (library (around_run self.now) function place given) result (I.left input.old) written (I.left input.new) written }
        ensures stands { IfOk result (ScalarStands (table_of self.now)) }
        ensures unwritten { result ≡ Err Halts.WriteFault → ⊥ }
        ensures reads { result ≡ Err Halts.ReadFault → function ≡ Functions.GetChar }
        ensures read_cause { result ≡ Err Halts.ReadFault → Rose (I.faults input.old) (I.faults input.new) }
        ensures read_faultless { result ≢ Err Halts.ReadFault → I.faults input.new ≡ I.faults input.old }
        ensures reads_counted { I.faults input.old ≤ I.faults input.new }
    {
        match function {
            LibraryFunction::GetChar => {
                if count > 0 {
                    return Ok(Scalar::Null);
                }
                match read_byte(input) {
                    Ok(byte) => Ok(Scalar::Integer(input_value(byte))),
                    Err(_) => Err(Halt::ReadFault),
                }
            }
            _ => Ok(Scalar::Null),
        }
    }
}

/// What `getchar` gives: the byte that was read, or -1 at the end of the input (C17 7.21.7.6).
fn input_value(byte: Option<u8>) -> i128
    ensures { (before after : Option (List ℕ)) → TakesByte before byte after → (told : List ℕ) → before ≡ Some told → IsNext told result after }
{
    byte.map_or(-1, i128::from)
}

/// The low byte of an integer.
fn low_byte(value: Scalar<'_>) -> u8
    ensures { (table : Interned) → result ≡ rules.low_byte (scalar_in table value.entry) }
{
    value.integer().rem_euclid(256) as u8
}

/// The type of a function's parameter, by its number.
fn parameter(body: Node<'_>, number: usize) -> Option<CType>
    ensures is { (table : Interned) → IsBody body.entry → option_map (type_in table) result
        ≡ slice_get (function_of (part_in table body.entry)).parameters number }
    ensures stands { (table : Interned) → NodeStands table body.entry → IfSome result (IsObjectType table) }
{
    match body {
        Node::Body(function) => function.parameters.get(number).copied(),
        _ => None,
    }
}
