// The locals whose address is taken: it is kept as a value. In `*&x` and `(&x)->m`, where what the value points to is used at once,
// it isn't.

ghost use Rattle.std.specs.Prelude.{◌≡◌, ℕ, ◌<◌, ◌||◌, false, length, slice_get, Some, IfOk, OnOk, map};
ghost use Rattle.tac_build.specs.Taken.{taken_block};
ghost use Rattle.tac_build.specs.Homes.{names_local, names_behind, takes, takes_in, takes_called, takes_any, takes_optional, takes_block};
ghost use Rattle.tac_build.specs.Marks.{is_named, Marks, Declares, Starts, PassesStmt, PassesBlock, PassesItems};
ghost use Rattle.c_typed.specs.Typed as T;
ghost use Rattle.c_typed.specs.Views.{value_in, object_in, designator_in, values_in};
ghost use Rattle.c_typed.specs.StatementViews.{optional_value_in, local_in, start_in, stmt_in, block_in, switch_in};
ghost use Rattle.c_typed.specs.Table.{Interned};

use c_typed::{BlockItem, Designator, ForStart, LocalDef, Object, Stmt, SwitchItem, Value};
use std::alloc::{AllocError, Global};

/// Whether the address of a parameter is taken, and of a local of the body, for each.
#[derive(Drop)]
pub struct Addressed {
    pub parameters: Vec<bool>,
    pub variables: Vec<bool>,
}

/// What is found on the way through a body: a flag for each parameter and for each local so far, in the order of the text, and for each
/// local in scope where its flag stands.
#[derive(Drop)]
struct Search {
    flags: Vec<bool>,
    scope: Vec<usize>,
}

/// The local that an expression names; `*&x` is x (C17 6.5.3.2 paragraph 4).
#[cycle(naming)]
fn named_local(object: &Object) -> Option<usize>
    ensures { (table : Interned) → (number : ℕ) → is_named result number ≡ names_local number (object_in table object.now) }
{
    match object {
        Object::Local(number) => Some(*number),
        Object::Grouped { inner, .. } => named_local(inner),
        Object::Pointed { pointer, .. } => local_behind(pointer),
        _ => None,
    }
}

/// The local to which a value points.
#[cycle(naming)]
fn local_behind(value: &Value) -> Option<usize>
    ensures { (table : Interned) → (number : ℕ) → is_named result number ≡ names_behind number (value_in table value.now) }
{
    match value {
        Value::Grouped(inner) => local_behind(inner),
        Value::AddressOf { object, .. } => named_local(object),
        _ => None,
    }
}

/// The parameters, and the locals of the body in the order of the text.
pub fn find_addressed(
    alloc: Global,
    parameters: usize,
    body: &[BlockItem],
) -> Result<Addressed, AllocError>
    ensures parameters { IfOk result (λ found. length found.parameters.items ≡ parameters) }
    ensures taken { (table : Interned) → IfOk result (λ found. (number : ℕ) → number < parameters → slice_get found.parameters.items number ≡ Some (takes_block number (block_in table body.now))) }
    ensures variables { (table : Interned) → IfOk result (λ found. found.variables.items ≡ taken_block parameters (block_in table body.now)) }
{
    let mut search = Search {
        flags: Vec::new(alloc),
        scope: Vec::new(alloc),
    };
    for number in 0..parameters {
        search.flags.push(false)?;
        search.scope.push(number)?;
    }
    search.block(body)?;
    let mut flags = search.flags;
    let variables = flags.split_off(parameters)?;
    Ok(Addressed {
        parameters: flags,
        variables,
    })
}

impl Search {
    /// The address of a local is taken.
    fn mark(&mut self, number: usize)
        ensures { Marks self.old self.new (is_named (Some number)) }
    {
        if let Some(place) = self.scope.get(number) {
            let place = *place;
            if place < self.flags.len() {
                self.flags[place] = true;
            }
        }
    }

    /// An object whose address is a value that is kept.
    fn address(&mut self, object: &Object)
        ensures { (table : Interned) → Marks self.old self.new (λ number. names_local number (object_in table object.now)) }
    {
        if let Some(number) = named_local(object) {
            self.mark(number);
        }
    }

    /// A value, which points to what is used at once or not.
    #[cycle(values)]
    fn value(&mut self, value: &Value, is_behind: bool)
        ensures { (table : Interned) → Marks self.old self.new (λ number. takes is_behind number (value_in table value.now)) }
    {
        match value {
            Value::Constant { .. } => {}
            Value::NullPointer => {}
            Value::Grouped(inner) => self.value(inner, is_behind),
            Value::Read { object, .. } => self.object(object),
            Value::Decay { object, .. } => self.object(object),
            Value::FunctionValue(function) => self.designator(function),
            Value::Converted { value, .. } => self.value(value, false),
            Value::Repointed { value, .. } => self.value(value, false),
            Value::MadeNull { value, .. } => self.value(value, false),
            Value::Tested { value, .. } => self.value(value, false),
            Value::Plus(operand) => self.value(operand, false),
            Value::Minus { operand, .. } => self.value(operand, false),
            Value::Complement { operand, .. } => self.value(operand, false),
            Value::Not(operand) => self.value(operand, false),
            Value::Arithmetic { left, right, .. } => self.both(left, right),
            Value::Compare { left, right, .. } => self.both(left, right),
            Value::ComparePointers { left, right, .. } => self.both(left, right),
            Value::PointerPlus {
                pointer,
                number,
                ..
            } => self.both(pointer, number),
            Value::NumberPlus {
                number,
                pointer,
                ..
            } => self.both(number, pointer),
            Value::PointerMinus {
                pointer,
                number,
                ..
            } => self.both(pointer, number),
            Value::PointerDifference { left, right, .. } => self.both(left, right),
            Value::And { left, right } => self.both(left, right),
            Value::Or { left, right } => self.both(left, right),
            Value::Conditional {
                condition,
                then,
                otherwise,
            } => {
                self.value(condition, false);
                self.both(then, otherwise);
            }
            Value::AddressOf { object, .. } => {
                if !is_behind {
                    self.address(object);
                }
                self.object(object);
            }
            Value::AddressOfFunction(function) => self.designator(function),
            Value::Cast(value) => self.value(value, false),
            Value::CastVoid(value) => self.value(value, false),
            Value::Assign { object, value, .. } => self.assigned(object, value),
            Value::AssignArithmetic { object, value, .. } => self.assigned(object, value),
            Value::AssignMoved { object, number, .. } => self.assigned(object, number),
            Value::StepInteger { object, .. } => self.object(object),
            Value::StepPointer { object, .. } => self.object(object),
            Value::Call {
                function,
                arguments,
                ..
            } => {
                self.designator(function);
                self.values(arguments.as_slice());
            }
            Value::LibraryCall { arguments, .. } => self.values(arguments.as_slice()),
        }
    }

    /// Two values that are kept.
    #[cycle(values)]
    fn both(&mut self, first: &Value, second: &Value)
        ensures { (table : Interned) → Marks self.old self.new (λ number. takes false number (value_in table first.now) || takes false number (value_in table second.now)) }
    {
        self.value(first, false);
        self.value(second, false);
    }

    /// An object that is assigned to, and what it gets.
    #[cycle(values)]
    fn assigned(&mut self, object: &Object, value: &Value)
        ensures { (table : Interned) → Marks self.old self.new (λ number. takes_in number (object_in table object.now) || takes false number (value_in table value.now)) }
    {
        self.object(object);
        self.value(value, false);
    }

    /// Values that are kept.
    #[cycle(values)]
    fn values(&mut self, values: &[Value])
        ensures { (table : Interned) → Marks self.old self.new (λ number. takes_any number (values_in table values.now)) }
    {
        for value in values {
            self.value(value, false);
        }
    }

    /// An object that is used at once.
    #[cycle(values)]
    fn object(&mut self, object: &Object)
        ensures { (table : Interned) → Marks self.old self.new (λ number. takes_in number (object_in table object.now)) }
    {
        match object {
            Object::Local(_) => {}
            Object::Global(_) => {}
            Object::Literal { .. } => {}
            Object::Grouped { inner, .. } => self.object(inner),
            Object::Pointed { pointer, .. } => self.value(pointer, true),
            Object::Element {
                pointer,
                number,
                ..
            } => self.both(pointer, number),
            Object::ElementOf {
                number,
                pointer,
                ..
            } => self.both(number, pointer),
            Object::MemberOf { object, .. } => self.object(object),
            Object::PointedMember { pointer, .. } => self.value(pointer, true),
        }
    }

    /// A function that is called, or whose address is taken.
    #[cycle(values)]
    fn designator(&mut self, function: &Designator)
        ensures { (table : Interned) → Marks self.old self.new (λ number. takes_called number (designator_in table function.now)) }
    {
        match function {
            Designator::Named(_) => {}
            Designator::Grouped(inner) => self.designator(inner),
            Designator::Pointed { pointer, .. } => self.value(pointer, false),
            Designator::ThroughPointer { pointer, .. } => self.value(pointer, false),
        }
    }

    /// A value, or none.
    fn optional(&mut self, value: &Option<Value>)
        ensures { (table : Interned) → Marks self.old self.new (λ number. takes_optional number (optional_value_in table value.now)) }
    {
        if let Some(value) = value {
            self.value(value, false);
        }
    }

    /// A local begins to live; its first value stands in its own scope.
    fn local(&mut self, local: &LocalDef) -> Result<(), AllocError>
        ensures { (table : Interned) → OnOk result (Declares self.old self.new (local_in table local.now)) }
    {
        let place = self.flags.len();
        self.flags.push(false)?;
        self.scope.push(place)?;
        self.optional(&local.first);
        Ok(())
    }

    /// What a `for` begins with (C17 6.8.5.3).
    fn start(&mut self, start: &ForStart) -> Result<(), AllocError>
        ensures { (table : Interned) → OnOk result (Starts self.old self.new (start_in table start.now)) }
    {
        match start {
            ForStart::Nothing => Ok(()),
            ForStart::Value(value) => {
                self.value(value, false);
                Ok(())
            }
            ForStart::Locals(locals) => self.locals(locals.as_slice()),
        }
    }

    /// The locals of a declaration.
    fn locals(&mut self, locals: &[LocalDef]) -> Result<(), AllocError>
        ensures { (table : Interned) → OnOk result (Starts self.old self.new (T.StartLocals (map (local_in table) locals.now))) }
    {
        for local in locals {
            self.local(local)?;
        }
        Ok(())
    }

    #[cycle(statements)]
    fn statement(&mut self, stmt: &Stmt) -> Result<(), AllocError>
        ensures { (table : Interned) → OnOk result (PassesStmt self.old self.new (stmt_in table stmt.now)) }
    {
        match stmt {
            Stmt::Block(items) => self.block(items.as_slice()),
            Stmt::Empty => Ok(()),
            Stmt::Expression(value) => {
                self.value(value, false);
                Ok(())
            }
            Stmt::If { condition, then } => {
                self.value(condition, false);
                self.statement(then)
            }
            Stmt::IfElse {
                condition,
                then,
                otherwise,
            } => {
                self.value(condition, false);
                self.statement(then)?;
                self.statement(otherwise)
            }
            Stmt::While { condition, body } => {
                self.value(condition, false);
                self.statement(body)
            }
            Stmt::DoWhile { body, condition } => {
                self.statement(body)?;
                self.value(condition, false);
                Ok(())
            }
            Stmt::For {
                start,
                condition,
                step,
                body,
            } => {
                let outside = self.scope.len();
                self.start(start)?;
                self.optional(condition);
                self.optional(step);
                self.statement(body)?;
                self.scope.truncate(outside);
                Ok(())
            }
            Stmt::Switch { value, items } => {
                self.value(value, false);
                self.items(items.as_slice())
            }
            Stmt::Break => Ok(()),
            Stmt::Continue => Ok(()),
            Stmt::Return(value) => {
                self.optional(value);
                Ok(())
            }
        }
    }

    /// The items of a block (C17 6.8.2).
    #[cycle(statements)]
    fn block(&mut self, items: &[BlockItem]) -> Result<(), AllocError>
        ensures { (table : Interned) → OnOk result (PassesBlock self.old self.new (block_in table items.now)) }
    {
        let outside = self.scope.len();
        for item in items {
            match item {
                BlockItem::Local(local) => self.local(local)?,
                BlockItem::Statement(stmt) => self.statement(stmt)?,
            }
        }
        self.scope.truncate(outside);
        Ok(())
    }

    /// The items of a `switch` (C17 6.8.4.2).
    #[cycle(statements)]
    fn items(&mut self, items: &[SwitchItem]) -> Result<(), AllocError>
        ensures { (table : Interned) → OnOk result (PassesItems self.old self.new (switch_in table items.now)) }
    {
        for item in items {
            match item {
                SwitchItem::Case(_) => {}
                SwitchItem::Default => {}
                SwitchItem::Statement(stmt) => self.statement(stmt)?,
            }
        }
        Ok(())
    }
}
