// The laws of runs: each function's contract is one law, over all of them, and its body does nothing.

ghost use Rattle.run_theory.specs.Laws.{MachineIsRun, Composition, StepsSimulate, StepsSimulateToLimits, ReverseDirection, SimulationFollows, EndsAreThePrograms, TrapsAreUndefined, OutputIsThePrograms};

/// A machine that makes small steps, each of which keeps the events so far, is a run: with more budget it has
/// the same events and perhaps more, and what is over stays over.
pub fn machine_is_run<E, S>()
    ensures { MachineIsRun E S }
{}

/// Simulations compose: layers are proved one by one.
pub fn composition<E, F, G, C, D>()
    ensures { Composition E F G C D }
{}

/// Two machines in step: where each step of the first is a bounded number of steps of the second, the second
/// simulates the first (Milner's simulation, with a measure of steps).
pub fn steps_simulate<E, F, C, S, T>()
    ensures { StepsSimulate E F C S T }
{}

/// The same where the second machine may meet limits, of its memory or its indices, that the first does not have.
pub fn steps_simulate_to_limits<E, F, C, S, T>()
    ensures { StepsSimulateToLimits E F C S T }
{}

/// A simulation from a program to a run of a deterministic machine explains each answer of the run.
pub fn reverse_direction<E, F, C>()
    ensures { ReverseDirection E F C }
{}

/// A simulation within the stated bound makes a run follow the program in both directions, up to its limits.
pub fn simulation_follows<E, F, C>()
    ensures { SimulationFollows E F C }
{}

/// An end of the run that a program can have is the program's own, unless the program goes wrong.
pub fn ends_are_the_programs()
    ensures { EndsAreThePrograms }
{}

/// A trap shows that the program goes wrong.
pub fn traps_are_undefined()
    ensures { TrapsAreUndefined }
{}

/// The output of the run is the program's, unless the program goes wrong.
pub fn output_is_the_programs()
    ensures { OutputIsThePrograms }
{}
