// What a reader expects of budgets.

ghost use Rattle.std.specs.Prelude.{◌≡◌, ℕ, ◌+◌, List};
ghost use Rattle.run_theory.specs.Runs.{trace_of, IsPrefix, IsGoing, IsOver};
ghost use Rattle.c_typed.specs.Typed.{FunctionDef, Program};
ghost use Rattle.ref_semantics.specs.Store.{TypeEnvironment, State};
ghost use Rattle.ref_semantics.specs.First.{reference, spent, status_of};
ghost use Rattle.ref_semantics.specs.Steps.{Config, goes_on};

/// With more units a program does the same, and perhaps more.
pub fn a_larger_budget_extends_the_trace()
    ensures { (program : Program) (input : List ℕ) (units more : ℕ)
        → IsPrefix (trace_of (reference program input units)) (trace_of (reference program input (units + more))) }
{}

/// What is over stays over, in the same way.
pub fn an_end_stays()
    ensures { (program : Program) (input : List ℕ) (units more : ℕ) → IsOver (reference program input units)
        → reference program input (units + more) ≡ reference program input units }
{}

/// A program that is going has spent exactly its units.
pub fn going_spends_all()
    ensures { (program : Program) (input : List ℕ) (units : ℕ) → IsGoing (reference program input units) → spent program input units ≡ units }
{}

/// Whatever is left to do, no event is taken back by it.
pub fn going_on_keeps_the_trace()
    ensures { (around : TypeEnvironment) (functions : List FunctionDef) (config : Config) (state : State)
        → IsPrefix state.trace (trace_of (status_of (goes_on around functions config state))) }
{}
