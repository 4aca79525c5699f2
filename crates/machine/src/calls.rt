// The functions that were called and have not returned, and the instructions that change them.

ghost use Rattle.std.specs.Prelude.{◌≡◌, ◌≢◌, ◌+◌, ◌-◌, ◌^◌, ◌<◌, ◌≤◌, ◌∷◌, length, reverse, Some, None, OnOk, OnErr, map, IfOk};
ghost use Rattle.std.specs.Bool.{OnFalse};
ghost use Rattle.std.specs.List.{AllByRecursion};
ghost use Rattle.std.specs.Option.{option_map, IfSome};
ghost use Rattle.byteorder.specs.Endian.{little_bytes, little_number};
ghost use Rattle.pcc_outside.specs.Outside.{Rose};
ghost use Rattle.image_form.specs.Form.{IsKind, function_of};
ghost use Rattle.pool_isa.specs.Machine.{bytes_at, function_word, named_by, with_bytes_at};
ghost use Rattle.machine.specs.Heaps.{heap_of};

use crate::activation::Activation;
use crate::ends::{RunEnd, Step};
use crate::heap::Heap;
use crate::memory::{read_from, write_to};
use crate::pages::Spare;
use crate::words::{bytes_in, converted_word, size_of};
use c_num::IntType;
use image_form::{Function, Image, PoolKind};
use pcc_outside::{Sink, Source, write_byte};
use pool_isa::{Instr, Width};
use pool_runtime::PoolId;
use run_theory::TrapKind;
use std::alloc::{AllocError, Global};
use std::marker::Model;
use std::mem;

/// How deep calls may be nested: `start` has depth 0.
const MAX_DEPTH: usize = 10_000;

/// The address of the first frame.
const FIRST_FRAME: u64 = 1 << 40;

/// The word of function 0; those of the others follow.
const FUNCTION_WORD: u64 = 1 << 48;

/// The bytes of a link.
const LINK: usize = 4;

/// The function that a word names, with its number, if it has this signature.
fn named_by(functions: &[Function], signature: u64, word: u64) -> Option<(usize, &Function)>
    ensures number { IfSome result (λ found. found.0 ≡ word - function_word) }
    ensures function { option_map (λ found. function_of found.1.now) result ≡ named_by (map function_of functions.now) signature word }
{
    let number = word.checked_sub(FUNCTION_WORD)? as usize;
    let function = functions.get(number)?;
    if u64::from(function.signature) == signature {
        Some((number, function))
    } else {
        None
    }
}

/// The functions that were called and have not returned.
#[derive(Drop)]
pub(crate) struct Calls {
    innermost: Activation,
    /// The outermost first.
    callers: Vec<Activation>,
}

impl Model for Calls {
    ghost use Rattle.std.specs.Prelude.{◌∷◌, reverse};
    ghost use Rattle.machine.specs.Steps.{CallStack, IsStacked};

    ghost Value = { CallStack };

    ghost view = { λ c. record { innermost = c.innermost; callers = reverse c.callers.items } };

    ghost invariant = { λ c. IsStacked (c.innermost ∷ reverse c.callers.items) };
}

impl Calls {
    ghost use Rattle.image_form.specs.Form.{code_of, form_of, function_of};
    ghost use Rattle.machine.specs.Steps.{activations_of, fetched, Puts, IsInside, IsOfPools};
    ghost use Rattle.machine.specs.Promises.{start_alone, Writes, callee_entered, caller_left};
    ghost use Rattle.machine.specs.Promises.{PerformsAnywhere, PerformsBesideHeap, PerformsAmong, PerformsWithKinds, PerformsAtHeight};
    ghost use Rattle.machine.specs.Promises.{GetsChar, PutsChar, ExecutesAtHeight, AdvancesBy};
    ghost use Rattle.pool_isa.specs.Machine as machine;

    /// `start` at its entry.
    pub(crate) fn new(alloc: Global, extra: u32) -> Result<Calls, AllocError>
        ensures { IfOk result (λ calls. calls ≡ start_alone extra) }
    {
        Ok(Calls {
            innermost: Activation::enter(alloc, 0, FIRST_FRAME, &[], extra)?,
            callers: Vec::new(alloc),
        })
    }

    /// The innermost one.
    pub(crate) fn innermost(&self) -> &Activation
        ensures { result.now ≡ self.now.innermost }
    {
        &self.innermost
    }

    /// The number in the `size` bytes from `address` on, if they lie in one living frame.
    fn read(&self, address: u64, size: usize) -> Option<u64>
        requires low { 1 ≤ size }
        requires high { size ≤ 8 }
        ensures word { result ≡ option_map (little_number size) (bytes_at (activations_of self.now) address size) }
        ensures small { IfSome result (λ number. number < 256 ^ size) }
    {
        let number = self.innermost.read(address, size);
        if number.is_some() {
            return number;
        }
        if self.innermost.start() <= address {
            return None;
        }
        read_from(&self.callers, address, size)
    }

    /// Writes the lowest `size` bytes of a word from `address` on, if they lie in one living frame, and says whether they do.
    fn write(&mut self, address: u64, word: u64, size: usize, spare: &mut Spare) -> bool
        requires low { 1 ≤ size }
        requires high { size ≤ 8 }
        requires spare { 2 ≤ spare.old }
        ensures written { Writes result (with_bytes_at (activations_of self.old) address (little_bytes size word)) (activations_of self.new) }
        ensures kept { OnFalse result (self.new ≡ self.old) }
        ensures spare { OnFalse result (spare.new ≡ spare.old) }
    {
        if self.innermost.write(address, word, size, spare) {
            return true;
        }
        if self.innermost.start() <= address {
            return false;
        }
        write_to(&mut self.callers, address, word, size, spare)
    }

    /// The number in the `size` bytes from `address` on, if they lie in one living frame, in the globals, or in one live
    /// cell or object.
    fn fetch(&self, heap: &Heap, address: u64, size: usize) -> Option<u64>
        requires low { 1 ≤ size }
        requires high { size ≤ 8 }
        ensures word { result ≡ fetched (activations_of self.now) (heap_of heap.now) address size }
        ensures small { IfSome result (λ number. number < 256 ^ size) }
    {
        let number = self.read(address, size);
        if number.is_some() {
            return number;
        }
        heap.read(address, size)
    }

    /// Writes the lowest `size` bytes of a word from `address` on, if they lie in one living frame, in the globals, or in
    /// one live cell or object, and says whether they do.
    fn put(&mut self, heap: &mut Heap, address: u64, word: u64, size: usize) -> bool
        requires low { 1 ≤ size }
        requires high { size ≤ 8 }
        requires spare { 2 ≤ heap.old.spare }
        ensures { Puts (activations_of self.old) (heap_of heap.old) address size word result (activations_of self.new) (heap_of heap.new) }
    {
        self.write(address, word, size, &mut heap.spare) || heap.write(address, word, size)
    }

    /// Loads a value in the place of its address.
    fn load(&mut self, heap: &Heap, int_type: IntType) -> Step
        requires { self.old.innermost.place + 1 < 2 ^ 64 }
        ensures { PerformsAnywhere (Instr.Load int_type) self.old (heap_of heap.now) result self.new (heap_of heap.now) }
    {
        let Some(address) = self.innermost.last() else {
            return Step::trap(TrapKind::StackEmpty);
        };
        let Some(number) = self.fetch(heap, address, size_of(int_type)) else {
            return Step::trap(TrapKind::BadAccess);
        };
        self.innermost.replace(converted_word(number, int_type));
        Step::On
    }

    /// Stores the last operand at the address before it.
    fn store(&mut self, heap: &mut Heap, width: Width) -> Step
        requires { self.old.innermost.place + 1 < 2 ^ 64 }
        ensures { PerformsAnywhere (Instr.Store width) self.old (heap_of heap.old) result self.new (heap_of heap.new) }
    {
        let Some((address, word)) = self.innermost.last_two() else {
            return Step::trap(TrapKind::StackEmpty);
        };
        if heap.spare.fill().is_err() {
            return Step::Over(RunEnd::OutOfMemory);
        }
        self.innermost.discard(2);
        if self.put(heap, address, word, bytes_in(width)) {
            Step::On
        } else {
            Step::trap(TrapKind::BadAccess)
        }
    }

    /// Loads a link in the place of its address and its target's pool: the address of the cell that it names.
    fn load_link(&mut self, heap: &Heap) -> Step
        requires { self.old.innermost.place + 1 < 2 ^ 64 }
        ensures { PerformsAnywhere Instr.LoadLink self.old (heap_of heap.now) result self.new (heap_of heap.now) }
    {
        let Some((address, pool)) = self.innermost.last_two() else {
            return Step::trap(TrapKind::StackEmpty);
        };
        let Some(index) = self.fetch(heap, address, LINK) else {
            return Step::trap(TrapKind::BadAccess);
        };
        let cell = heap.pools.address(PoolId(pool), index as u32);
        self.innermost.combine(cell);
        Step::On
    }

    /// Stores a link: the number of the cell that begins at an address, in a pool.
    fn store_link(&mut self, heap: &mut Heap) -> Step
        requires { self.old.innermost.place + 1 < 2 ^ 64 }
        ensures { PerformsAnywhere Instr.StoreLink self.old (heap_of heap.old) result self.new (heap_of heap.new) }
    {
        let Some((address, value, pool)) = self.innermost.last_three() else {
            return Step::trap(TrapKind::StackEmpty);
        };
        if heap.spare.fill().is_err() {
            return Step::Over(RunEnd::OutOfMemory);
        }
        let index = heap.pools.index(PoolId(pool), value);
        self.innermost.discard(3);
        if self.put(heap, address, u64::from(index), LINK) {
            Step::On
        } else {
            Step::trap(TrapKind::BadAccess)
        }
    }

    /// Calls a function, which takes its parameters.
    fn call(&mut self, alloc: Global, functions: &[Function], callee: u64) -> Step
        requires { self.old.innermost.place + 1 < 2 ^ 64 }
        ensures { PerformsAmong functions.now (Instr.Call callee) self.old result self.new }
    {
        let Some(function) = functions.get(callee as usize) else {
            return Step::trap(TrapKind::BadCall);
        };
        if self.innermost.height() < function.parameters as usize {
            return Step::trap(TrapKind::StackEmpty);
        }
        if self.callers.len() >= MAX_DEPTH {
            return Step::Over(RunEnd::Depth);
        }
        match self.enter(alloc, callee as usize, function, 0) {
            Ok(()) => Step::On,
            Err(_) => Step::Over(RunEnd::OutOfMemory),
        }
    }

    /// Calls the function that the last operand names, if it has this signature.
    fn call_indirect(&mut self, alloc: Global, functions: &[Function], signature: u64) -> Step
        requires { self.old.innermost.place + 1 < 2 ^ 64 }
        ensures { PerformsAmong functions.now (Instr.CallIndirect signature) self.old result self.new }
    {
        let Some(word) = self.innermost.last() else {
            return Step::trap(TrapKind::StackEmpty);
        };
        let Some((callee, function)) = named_by(functions, signature, word) else {
            return Step::trap(TrapKind::BadCall);
        };
        if self.innermost.height() - 1 < function.parameters as usize {
            return Step::trap(TrapKind::StackEmpty);
        }
        if self.callers.len() >= MAX_DEPTH {
            return Step::Over(RunEnd::Depth);
        }
        match self.enter(alloc, callee, function, 1) {
            Ok(()) => Step::On,
            Err(_) => Step::Over(RunEnd::OutOfMemory),
        }
    }

    /// Lets a function that is called take its parameters, which stand behind the last `above` operands.
    fn enter(
        &mut self,
        alloc: Global,
        callee: usize,
        function: &Function,
        above: usize,
    ) -> Result<(), AllocError>
        requires next { self.old.innermost.place + 1 < 2 ^ 64 }
        requires above { above ≤ 1 }
        requires there { above + function.now.parameters ≤ length self.old.innermost.operands }
        requires depth { length self.old.callers < 10000 }
        ensures callee { OnOk result (self.new.innermost ≡ callee_entered callee above function.now self.old.innermost) }
        ensures callers { OnOk result (self.new.callers ≡ caller_left above function.now self.old.innermost ∷ self.old.callers) }
        ensures err { OnErr result (self.new ≡ self.old) }
    {
        self.callers.reserve(1)?;
        let start = self.innermost.next_start();
        let count = function.parameters as usize;
        let parameters = self.innermost.parameters(above, count);
        let entered = Activation::enter(alloc, callee, start, parameters, function.extra)?;
        self.innermost.discard(above + count);
        let caller = mem::replace(&mut self.innermost, entered);
        self.callers.push(caller).unwrap();
        Ok(())
    }

    /// Goes back to the caller.
    fn leave(&mut self)
        requires { 0 < length self.old.callers }
        ensures { self.old.callers ≡ activations_of self.new }
    {
        self.innermost = self.callers.pop().unwrap();
    }

    /// Returns to the caller. `start` has none: its return ends the run.
    fn finish(&mut self) -> Step
        ensures { PerformsBesideHeap Instr.Return self.old result self.new }
    {
        if self.callers.is_empty() {
            return Step::Over(RunEnd::Ended(0));
        }
        self.leave();
        Step::On
    }

    /// Returns the last operand to the caller. At the return of `start` it ends the run, modulo 256.
    fn finish_with_value(&mut self, functions: &[Function]) -> Step
        ensures { PerformsAmong functions.now Instr.ReturnValue self.old result self.new }
    {
        let Some(word) = self.innermost.last() else {
            return Step::trap(TrapKind::StackEmpty);
        };
        if self.callers.is_empty() {
            return Step::Over(RunEnd::Ended((word % 256) as u8));
        }
        let last = self.callers.len() - 1;
        let caller = &mut self.callers[last];
        let Some(function) = functions.get(caller.function()) else {
            return Step::trap(TrapKind::Reached);
        };
        if caller.is_full(function.height) {
            return Step::trap(TrapKind::StackFull);
        }
        match caller.give(word) {
            Ok(()) => {
                self.leave();
                Step::On
            }
            Err(_) => Step::Over(RunEnd::OutOfMemory),
        }
    }

    /// Reads a byte, where the function may hold one more operand.
    fn get_char<I: Source>(&mut self, input: &mut I, height: u32) -> Step
        requires { self.old.innermost.place + 1 < 2 ^ 64 }
        ensures does { GetsChar height self.old (I.left input.old) result self.new (I.left input.new) }
        ensures fault { result ≡ Step.Over RunEnd.ReadFault → Rose (I.faults input.old) (I.faults input.new) }
        ensures faultless { result ≢ Step.Over RunEnd.ReadFault → I.faults input.new ≡ I.faults input.old }
        ensures other { result ≢ Step.Over RunEnd.WriteFault }
        ensures counted { I.faults input.old ≤ I.faults input.new }
    {
        if self.innermost.is_full(height) {
            return Step::trap(TrapKind::StackFull);
        }
        self.innermost.push_next(input)
    }

    /// Writes the low byte of the last operand, and leaves that byte in its place.
    fn put_char<O: Sink>(&mut self, out: &mut O) -> Step
        requires { self.old.innermost.place + 1 < 2 ^ 64 }
        ensures does { PutsChar self.old (O.written out.old) result self.new (O.written out.new) }
        ensures fault { result ≡ Step.Over RunEnd.WriteFault → Rose (O.faults out.old) (O.faults out.new) }
        ensures faultless { result ≢ Step.Over RunEnd.WriteFault → O.faults out.new ≡ O.faults out.old }
        ensures other { result ≢ Step.Over RunEnd.ReadFault }
        ensures counted { O.faults out.old ≤ O.faults out.new }
    {
        let Some(word) = self.innermost.last() else {
            return Step::trap(TrapKind::StackEmpty);
        };
        let byte = (word % 256) as u8;
        match write_byte(out, byte) {
            Ok(()) => {
                self.innermost.replace(u64::from(byte));
                Step::On
            }
            Err(_) => Step::Over(RunEnd::WriteFault),
        }
    }

    /// Performs instructions of the innermost function, at most so many, while they change its activation alone and go on,
    /// and says how many.
    pub(crate) fn advance(&mut self, alloc: Global, code: &[Instr], height: u32, steps: u64) -> u64
        ensures within { result ≤ steps }
        ensures advances { (function : machine.Function) → function.code ≡ code.now → function.height ≡ height → AdvancesBy function result self.old.innermost self.new.innermost }
        ensures callers { self.new.callers ≡ self.old.callers }
    {
        // in a variable its fields can be kept in registers
        let mut innermost = mem::replace(&mut self.innermost, Activation::vacant(alloc));
        let made = innermost.advance_by(code, height, steps);
        self.innermost = innermost;
        made
    }

    /// Performs an instruction on pools.
    fn perform_in_pools(
        &mut self,
        heap: &mut Heap,
        kinds: &[PoolKind],
        height: u32,
        instr: Instr,
    ) -> Step
        requires next { self.old.innermost.place + 1 < 2 ^ 64 }
        requires pools { IsOfPools instr }
        requires kinds { AllByRecursion IsKind kinds.now }
        ensures { PerformsWithKinds kinds.now height instr self.old (heap_of heap.old) result self.new (heap_of heap.new) }
    {
        match instr {
            Instr::PoolInit(kind) => self.innermost.make_pool(heap, kinds, height, kind),
            Instr::PoolDestroy => self.innermost.destroy_pool(heap),
            Instr::PoolAlloc => self.innermost.allocate(heap),
            _ => self.innermost.free(heap),
        }
    }

    /// Performs an instruction that neither reads nor writes.
    fn perform_inside(
        &mut self,
        alloc: Global,
        heap: &mut Heap,
        image: &Image,
        height: u32,
        instr: Instr,
    ) -> Step
        requires next { self.old.innermost.place + 1 < 2 ^ 64 }
        requires inside { IsInside instr }
        requires kinds { AllByRecursion IsKind image.now.kinds.items }
        ensures { PerformsAtHeight (code_of (form_of image.now)) height instr self.old (heap_of heap.old) result self.new (heap_of heap.new) }
    {
        match instr {
            Instr::Load(int_type) => self.load(heap, int_type),
            Instr::Store(width) => self.store(heap, width),
            Instr::LoadLink => self.load_link(heap),
            Instr::StoreLink => self.store_link(heap),
            Instr::Call(callee) => self.call(alloc, &image.functions, callee),
            Instr::CallIndirect(signature) => {
                self.call_indirect(alloc, &image.functions, signature)
            }
            Instr::Return => self.finish(),
            Instr::ReturnValue => self.finish_with_value(&image.functions),
            Instr::PoolInit(_) | Instr::PoolDestroy | Instr::PoolAlloc | Instr::PoolFree => {
                self.perform_in_pools(heap, &image.kinds, height, instr)
            }
            _ => self.innermost.perform_alone(height, instr),
        }
    }

    /// Performs an instruction of a function that may hold `height` operands.
    pub(crate) fn perform<I: Source, O: Sink>(
        &mut self,
        alloc: Global,
        heap: &mut Heap,
        image: &Image,
        height: u32,
        instr: Instr,
        input: &mut I,
        out: &mut O,
    ) -> Step
        requires next { self.old.innermost.place + 1 < 2 ^ 64 }
        requires kinds { AllByRecursion IsKind image.now.kinds.items }
        ensures does { ExecutesAtHeight (code_of (form_of image.now)) height instr self.old (heap_of heap.old) (I.left input.old) (O.written out.old)
            result self.new (heap_of heap.new) (I.left input.new) (O.written out.new) }
        ensures read_cause { result ≡ Step.Over RunEnd.ReadFault → Rose (I.faults input.old) (I.faults input.new) }
        ensures write_cause { result ≡ Step.Over RunEnd.WriteFault → Rose (O.faults out.old) (O.faults out.new) }
        ensures read_faultless { result ≢ Step.Over RunEnd.ReadFault → I.faults input.new ≡ I.faults input.old }
        ensures write_faultless { result ≢ Step.Over RunEnd.WriteFault → O.faults out.new ≡ O.faults out.old }
        ensures reads_counted { I.faults input.old ≤ I.faults input.new }
        ensures writes_counted { O.faults out.old ≤ O.faults out.new }
    {
        match instr {
            Instr::GetChar => self.get_char(input, height),
            Instr::PutChar => self.put_char(out),
            _ => self.perform_inside(alloc, heap, image, height, instr),
        }
    }
}
