// How a run ends, and where one step leads.

ghost use Rattle.std.specs.Prelude.{◌≡◌, is_some};

use run_theory::TrapKind;

/// How a run ends.
#[derive(Clone, Copy, Debug, PartialEq, Eq)]
pub enum RunEnd {
    /// The program ended with this status.
    Ended(u8),
    /// A call was made at depth 10,000.
    Depth,
    /// The heap has no slab left.
    HeapExhausted,
    /// An indexed pool has no cell left.
    IndexExhausted,
    /// The steps that were allowed are spent.
    StepsSpent,
    Trapped(TrapKind),
    /// The input could not be read. The byte is not taken.
    ReadFault,
    /// The output could not be written. The byte is not added.
    WriteFault,
    /// There was no memory for a step.
    OutOfMemory,
}

impl RunEnd {
    ghost use Rattle.machine.specs.Steps.{final_of};

    /// Whether it ends the run, rather than breaks it off.
    pub(crate) fn is_final(self) -> bool
        ensures { result ≡ is_some (final_of self) }
    {
        matches!(
            self,
            RunEnd::Ended(_)
                | RunEnd::Depth
                | RunEnd::HeapExhausted
                | RunEnd::IndexExhausted
                | RunEnd::Trapped(_)
        )
    }
}

/// Where one step leads.
#[derive(Clone, Copy, Debug, PartialEq, Eq)]
pub(crate) enum Step {
    /// The run goes on.
    On,
    /// The run is over, or the step could not be made.
    Over(RunEnd),
}

impl Step {
    ghost use Rattle.machine.specs.Steps.{goes_on};

    /// Whether the run goes on.
    #[inline(always)]
    pub(crate) fn goes_on(self) -> bool
        ensures { result ≡ goes_on self }
    {
        matches!(self, Step::On)
    }

    /// A step that traps.
    pub(crate) fn trap(kind: TrapKind) -> Step
        ensures { result ≡ Step.Over (RunEnd.Trapped kind) }
    {
        Step::Over(RunEnd::Trapped(kind))
    }
}
