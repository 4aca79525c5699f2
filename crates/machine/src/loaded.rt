// A machine with an image, and its runs.

ghost use Rattle.std.specs.Prelude.{◌≡◌, ◌≢◌, ◌+◌, ◌-◌, ◌^◌, ◌<◌, ◌≤◌, ◌++◌, Some, None, IfOk, OnOk};
ghost use Rattle.pcc_outside.specs.Outside.{Rose};
ghost use Rattle.image_form.specs.Form.{code_of, form_of, IsImage};

use crate::calls::Calls;
use crate::ends::{RunEnd, Step};
use crate::heap::Heap;
use crate::report::{Report, ReportRow};
use image_form::{Image, MachineLimits};
use pcc_outside::{Sink, Source};
use pool_isa::{Instr, Site};
use run_theory::TrapKind;
use std::alloc::{AllocError, Global};

/// A machine that stands between two steps of the run of an image, or whose run is over.
#[derive(Drop)]
pub struct Machine<'a> {
    image: &'a Image,
    limits: MachineLimits,
    alloc: Global,
    calls: Calls,
    heap: Heap,
    /// The steps made.
    spent: u64,
    /// The last answer of `run`.
    last: Option<RunEnd>,
}

impl<'a> Machine<'a> {
    ghost use Rattle.machine.specs.Run.{is_over};
    ghost use Rattle.machine.specs.Promises.{IsAtStart, StepsOn, AdvancesOn, RunsOn, StaysOver, moved_to, rows_of, rows_in, row_in};
    ghost use Rattle.machine.specs.Loaded.{ready_of, IsLoaded};

    /// A machine that stands before the first step of the image, within limits.
    pub fn load(
        alloc: Global,
        image: &'a Image,
        limits: MachineLimits,
    ) -> Result<Machine<'a>, AllocError>
        requires image { IsImage (form_of image.now) }
        requires least { 1 ≤ limits.slabs }
        requires most { limits.slabs ≤ 1048576 }
        requires index { 1 ≤ limits.index }
        ensures code { IfOk result (λ m. (ready_of m).code ≡ code_of (form_of image.now)) }
        ensures limits { IfOk result (λ m. (ready_of m).limits ≡ limits) }
        ensures start { IfOk result (λ m. IsAtStart limits (ready_of m)) }
        ensures spent { IfOk result (λ m. (ready_of m).spent ≡ 0) }
        ensures last { IfOk result (λ m. (ready_of m).last ≡ None) }
        ensures loaded { IfOk result IsLoaded }
    {
        let extra = image.functions.first().map_or(0, |start| start.extra);
        Ok(Machine {
            image,
            limits,
            alloc,
            calls: Calls::new(alloc, extra)?,
            heap: Heap::new(alloc, &image.globals, limits)?,
            spent: 0,
            last: None,
        })
    }

    /// Makes one step.
    fn step<I: Source, O: Sink>(&mut self, input: &mut I, out: &mut O) -> Step
        requires { IsLoaded self.old }
        ensures gives { StepsOn (ready_of self.old) (I.left input.old) (O.written out.old)
            result (ready_of self.new) (I.left input.new) (O.written out.new) }
        ensures loaded { IsLoaded self.new }
        ensures same { ready_of self.new ≡ record (ready_of self.old) { activations = (ready_of self.new).activations; heap = (ready_of self.new).heap } }
        ensures read_cause { result ≡ Step.Over RunEnd.ReadFault → Rose (I.faults input.old) (I.faults input.new) }
        ensures write_cause { result ≡ Step.Over RunEnd.WriteFault → Rose (O.faults out.old) (O.faults out.new) }
        ensures read_faultless { result ≢ Step.Over RunEnd.ReadFault → I.faults input.new ≡ I.faults input.old }
        ensures write_faultless { result ≢ Step.Over RunEnd.WriteFault → O.faults out.new ≡ O.faults out.old }
        ensures reads_counted { I.faults input.old ≤ I.faults input.new }
        ensures writes_counted { O.faults out.old ≤ O.faults out.new }
    {
        let image = self.image;
        let innermost = self.calls.innermost();
        let Some(function) = image.functions.get(innermost.function()) else {
            return Step::trap(TrapKind::Reached);
        };
        let Some(instr) = function.code.get(innermost.place()) else {
            return Step::trap(TrapKind::Reached);
        };
        self.calls.perform(
            self.alloc,
            &mut self.heap,
            image,
            function.height,
            *instr,
            input,
            out,
        )
    }

    /// Makes steps, at most so many, while they change the innermost activation alone and go on, and says how many.
    fn advance(&mut self, steps: u64) -> u64
        requires spent { (ready_of self.old).spent + steps < 2 ^ 64 }
        requires loaded { IsLoaded self.old }
        ensures within { result ≤ steps }
        ensures meaning { AdvancesOn result (ready_of self.old) (ready_of self.new) }
        ensures loaded { IsLoaded self.new }
        ensures same { ready_of self.new ≡ record (ready_of self.old) { activations = (ready_of self.new).activations; spent = (ready_of self.old).spent + result } }
    {
        let image = self.image;
        let Some(function) = image.functions.get(self.calls.innermost().function()) else {
            return 0;
        };
        let made = self
            .calls
            .advance(self.alloc, &function.code, function.height, steps);
        self.spent += made;
        made
    }

    /// Makes at most so many steps.
    fn go_on<I: Source, O: Sink>(&mut self, input: &mut I, out: &mut O, steps: u64) -> RunEnd
        requires spent { (ready_of self.old).spent + steps < 2 ^ 64 }
        requires loaded { IsLoaded self.old }
        ensures meaning { RunsOn steps (ready_of self.old) (I.left input.old) (O.written out.old)
            result (ready_of self.new) (I.left input.new) (O.written out.new) }
        ensures loaded { IsLoaded self.new }
        ensures same { ready_of self.new ≡ moved_to (ready_of self.old) (ready_of self.new) }
        ensures more { (ready_of self.old).spent ≤ (ready_of self.new).spent }
        ensures within { (ready_of self.new).spent ≤ (ready_of self.old).spent + steps }
        ensures read_cause { result ≡ RunEnd.ReadFault → Rose (I.faults input.old) (I.faults input.new) }
        ensures write_cause { result ≡ RunEnd.WriteFault → Rose (O.faults out.old) (O.faults out.new) }
        ensures read_faultless { result ≢ RunEnd.ReadFault → I.faults input.new ≡ I.faults input.old }
        ensures write_faultless { result ≢ RunEnd.WriteFault → O.faults out.new ≡ O.faults out.old }
        ensures reads_counted { I.faults input.old ≤ I.faults input.new }
        ensures writes_counted { O.faults out.old ≤ O.faults out.new }
    {
        let mut remaining = steps;
        while remaining > 0 {
            match self.step(input, out) {
                Step::On => self.spent += 1,
                Step::Over(end) => {
                    if end.is_final() {
                        self.spent += 1;
                    }
                    return end;
                }
            }
            remaining -= 1;
            remaining -= self.advance(remaining);
        }
        RunEnd::StepsSpent
    }

    /// Runs at most so many steps. Bytes of the input that the program did not take stay unread. After `StepsSpent`, a fault
    /// or want of memory the machine stands before the next step, and a further call goes on; after any other end it
    /// answers that end again.
    pub fn run<I: Source, O: Sink>(&mut self, input: &mut I, out: &mut O, steps: u64) -> RunEnd
        // the steps of all calls
        requires spent { (ready_of self.old).spent + steps < 2 ^ 64 }
        requires loaded { IsLoaded self.old }
        // For told bytes: what is left, what was written, the answer and the machine are those of the machine's meaning.
        ensures meaning { is_over (ready_of self.old).last ≡ None → RunsOn steps (ready_of self.old) (I.left input.old) (O.written out.old)
            result (ready_of self.new) (I.left input.new) (O.written out.new) }
        // A run that is over stays so.
        ensures again { StaysOver (ready_of self.old) (I.left input.old) (O.written out.old)
            result (ready_of self.new) (I.left input.new) (O.written out.new) }
        ensures loaded { IsLoaded self.new }
        ensures same { ready_of self.new ≡ record (moved_to (ready_of self.old) (ready_of self.new)) { last = Some result } }
        ensures more { (ready_of self.old).spent ≤ (ready_of self.new).spent }
        ensures within { (ready_of self.new).spent ≤ (ready_of self.old).spent + steps }
        ensures read_cause { result ≡ RunEnd.ReadFault → Rose (I.faults input.old) (I.faults input.new) }
        ensures write_cause { result ≡ RunEnd.WriteFault → Rose (O.faults out.old) (O.faults out.new) }
        // Want of memory is told of only where no call on the input or the output has failed.
        ensures memory_cause { result ≡ RunEnd.OutOfMemory → (I.faults input.new ≡ I.faults input.old) × (O.faults out.new ≡ O.faults out.old) }
        ensures reads_counted { I.faults input.old ≤ I.faults input.new }
        ensures writes_counted { O.faults out.old ≤ O.faults out.new }
    {
        match self.last {
            Some(end) if end.is_final() => end,
            _ => {
                let end = self.go_on(input, out, steps);
                self.last = Some(end);
                end
            }
        }
    }

    /// The steps made.
    pub fn spent(&self) -> u64
        ensures { result ≡ (ready_of self.now).spent }
    {
        self.spent
    }

    /// What was counted of pools so far.
    pub fn report(&self) -> Result<Report, AllocError>
        ensures last { IfOk result (λ report. report.last ≡ (ready_of self.now).last) }
        ensures rows { IfOk result (λ report. report.rows.items ≡ rows_of (ready_of self.now)) }
        ensures made { IfOk result (λ report. report.made ≡ (ready_of self.now).heap.tally.made) }
        ensures objects { IfOk result (λ report. report.objects ≡ (ready_of self.now).heap.tally.objects) }
        ensures slabs { IfOk result (λ report. report.slabs ≡ (ready_of self.now).limits.slabs - (ready_of self.now).heap.tally.free) }
    {
        let mut rows = Vec::new(self.alloc);
        for (number, function) in self.image.functions.iter().enumerate() {
            self.append_rows(&mut rows, number, &function.code)?;
        }
        Ok(Report {
            last: self.last,
            rows,
            made: self.heap.tally.made(),
            objects: self.heap.tally.objects(),
            slabs: self.limits.slabs.saturating_sub(self.heap.tally.free()),
        })
    }

    /// Appends the rows of a function.
    fn append_rows(
        &self,
        rows: &mut Vec<ReportRow>,
        function: usize,
        code: &[Instr],
    ) -> Result<(), AllocError>
        ensures { OnOk result (rows.new.items ≡ rows.old.items ++ rows_in (ready_of self.now) function code.now) }
    {
        for (place, instr) in code.iter().enumerate() {
            if let Instr::PoolInit(kind) = instr {
                self.append_row(rows, Site { function, place }, *kind)?;
            }
        }
        Ok(())
    }

    /// Appends the row of an instruction that makes pools of this kind.
    fn append_row(&self, rows: &mut Vec<ReportRow>, site: Site, kind: u64) -> Result<(), AllocError>
        ensures { OnOk result (rows.new.items ≡ rows.old.items ++ row_in (ready_of self.now) site kind) }
    {
        if let Some(kind) = self.image.kinds.get(kind as usize) {
            rows.push(ReportRow {
                function: site.function,
                kind: *kind,
                counts: self.heap.tally.counts(site),
            })?;
        }
        Ok(())
    }
}
