// A function that was called and has not returned: its place, its operands and its frame.

ghost use Rattle.std.specs.Prelude.{◌≡◌, ◌≢◌, suc, ◌+◌, ◌-◌, ◌%◌, ◌^◌, ◌<◌, ◌≤◌, [], ◌∷◌, length, take, drop, reverse, Some, None};
ghost use Rattle.std.specs.Bool.{OnTrue, OnFalse};
ghost use Rattle.std.specs.Prelude.{true, IfOk, IfSome, OnOk, OnErr, IsTrue, ◌↔◌, MatchOption, if◌then◌else◌};
ghost use Rattle.pcc_outside.specs.Outside.{Rose};
ghost use Rattle.image_form.specs.Form.{IsKind};
ghost use Rattle.pool_isa.specs.Machine.{advanced, covers, site_of, next_start, with_new_pool};
ghost use Rattle.machine.specs.Heaps.{heap_of};
ghost use Rattle.machine.specs.Promises.{entry_of, frame_number, with_frame_word};

use crate::ends::{RunEnd, Step};
use crate::heap::Heap;
use crate::pages::Spare;
use crate::region::{Region, is_small};
use crate::words::input_word;
use byteorder::{ByteOrder, LittleEndian};
use image_form::PoolKind;
use pcc_outside::{Source, read_byte};
use pool_isa::{Instr, Site};
use pool_runtime::OutOfMemory;
use std::alloc::{AllocError, Global};
use std::marker::Model;

/// A function that was called and has not returned.
#[derive(Drop)]
pub(crate) struct Activation {
    /// The function's number.
    function: usize,
    /// The instruction that comes next.
    place: usize,
    /// The operands, the last one at the end.
    operands: Vec<u64>,
    /// The address of the frame.
    start: u64,
    /// The frame.
    bytes: Region,
}

impl Model for Activation {
    ghost use Rattle.std.specs.Prelude.{reverse};
    ghost use Rattle.pool_isa.specs.Machine as machine;

    ghost Value = { machine.Activation };

    ghost view = { λ a. record { function = a.function; place = a.place; operands = reverse a.operands.items; start = a.start; bytes = a.bytes } };
}

impl Activation {
    ghost use Rattle.machine.specs.Steps.{PushesNext, MayAdvance};

    /// A function at its entry: the frame holds the parameters and `extra` zeros.
    pub(crate) fn enter(
        alloc: Global,
        function: usize,
        start: u64,
        parameters: &[u64],
        extra: u32,
    ) -> Result<Activation, AllocError>
        ensures { IfOk result (λ a. a ≡ entry_of function start parameters.now extra) }
    {
        let len = 8 * parameters.len() + extra as usize;
        let room = if is_small(len) {
            len
        } else {
            8 * parameters.len()
        };
        let mut bytes = Vec::with_capacity(alloc, room)?;
        let mut word_bytes = [0u8; 8];
        for word in parameters {
            LittleEndian::write_u64(&mut word_bytes, *word);
            bytes.extend_from_slice(&word_bytes)?;
        }
        let bytes = Region::new(alloc, bytes, extra as usize)?;
        Ok(Activation {
            function,
            place: 0,
            operands: Vec::new(alloc),
            start,
            bytes,
        })
    }

    /// The function's number.
    pub(crate) fn function(&self) -> usize
        ensures { result ≡ self.now.function }
    {
        self.function
    }

    /// The instruction that comes next.
    #[inline(always)]
    pub(crate) fn place(&self) -> usize
        ensures { result ≡ self.now.place }
    {
        self.place
    }

    /// How many operands there are.
    #[inline(always)]
    pub(crate) fn height(&self) -> usize
        ensures { result ≡ length self.now.operands }
    {
        self.operands.len()
    }

    /// Whether a function that may hold `height` operands can't hold one more.
    #[inline(always)]
    pub(crate) fn is_full(&self, height: u32) -> bool
        ensures { IsTrue result ↔ (height ≤ length self.now.operands) }
    {
        self.operands.len() >= height as usize
    }

    /// The last operand.
    #[inline(always)]
    pub(crate) fn last(&self) -> Option<u64>
        ensures { MatchOption result (self.now.operands ≡ []) (λ word. self.now.operands ≡ word ∷ drop 1 self.now.operands) }
    {
        self.operands.last().copied()
    }

    /// The last two operands, in the order in which they were pushed.
    #[inline(always)]
    pub(crate) fn last_two(&self) -> Option<(u64, u64)>
        ensures { MatchOption result (length self.now.operands < 2) (λ two. self.now.operands ≡ two.1 ∷ two.0 ∷ drop 2 self.now.operands) }
    {
        match self.operands.as_slice() {
            [.., first, last] => Some((*first, *last)),
            _ => None,
        }
    }

    /// The last three operands, in the order in which they were pushed.
    pub(crate) fn last_three(&self) -> Option<(u64, u64, u64)>
        ensures { MatchOption result (length self.now.operands < 3) (λ three. self.now.operands ≡ three.2 ∷ three.1 ∷ three.0 ∷ drop 3 self.now.operands) }
    {
        match self.operands.as_slice() {
            [.., first, second, last] => Some((*first, *second, *last)),
            _ => None,
        }
    }

    /// Pushes an operand, and goes to the next instruction.
    pub(crate) fn push(&mut self, word: u64) -> Result<(), AllocError>
        requires { self.old.place + 1 < 2 ^ 64 }
        ensures ok { OnOk result (self.new ≡ advanced self.old (word ∷ self.old.operands)) }
        ensures err { OnErr result (self.new ≡ self.old) }
    {
        self.operands.push(word)?;
        self.place += 1;
        Ok(())
    }

    /// Pushes an operand and goes to the next instruction, if room is reserved for it and a function that may hold `height`
    /// operands can hold it; says whether it did.
    #[inline(always)]
    pub(crate) fn push_within(&mut self, word: u64, height: u32) -> bool
        requires { self.old.place + 1 < 2 ^ 64 }
        ensures advances { MayAdvance height (Instr.Constant word) result self.old self.new }
        ensures frame { next_start self.new ≡ next_start self.old }
        ensures start { self.new.start ≡ self.old.start }
        ensures function { self.new.function ≡ self.old.function }
    {
        if self.is_full(height) || self.operands.len() >= self.operands.capacity() {
            return false;
        }
        self.operands.push_reserved(word);
        self.place += 1;
        true
    }

    /// What stands in the place of a function that is away for a while.
    pub(crate) fn vacant(alloc: Global) -> Activation {
        Activation {
            function: 0,
            place: 0,
            operands: Vec::new(alloc),
            start: 0,
            bytes: Region::empty(alloc),
        }
    }

    /// Pushes the word that `getchar` gives, and goes to the next instruction. There is room for it before a byte is read.
    pub(crate) fn push_next<I: Source>(&mut self, input: &mut I) -> Step
        requires { self.old.place + 1 < 2 ^ 64 }
        ensures pushed { PushesNext result self.old (I.left input.old) self.new (I.left input.new) }
        ensures frame { next_start self.new ≡ next_start self.old }
        ensures start { self.new.start ≡ self.old.start }
        ensures fault { result ≡ Step.Over RunEnd.ReadFault → Rose (I.faults input.old) (I.faults input.new) }
        ensures faultless { result ≢ Step.Over RunEnd.ReadFault → I.faults input.new ≡ I.faults input.old }
        ensures other { result ≢ Step.Over RunEnd.WriteFault }
        ensures counted { I.faults input.old ≤ I.faults input.new }
    {
        if self.operands.reserve(1).is_err() {
            return Step::Over(RunEnd::OutOfMemory);
        }
        match read_byte(input) {
            Ok(byte) => {
                self.operands.push(input_word(byte)).unwrap();
                self.place += 1;
                Step::On
            }
            Err(_) => Step::Over(RunEnd::ReadFault),
        }
    }

    /// The instruction that it stands at.
    fn site(&self) -> Site
        ensures { result ≡ site_of self.now }
    {
        Site {
            function: self.function,
            place: self.place,
        }
    }

    /// Makes a pool, pushes its number, and goes to the next instruction. There is room for the number before.
    pub(crate) fn push_pool(&mut self, heap: &mut Heap, kind: PoolKind) -> Result<(), OutOfMemory>
        requires next { self.old.place + 1 < 2 ^ 64 }
        requires kind { IsKind kind }
        ensures ok { OnOk result (self.new ≡ advanced self.old (suc (length heap.old.pools.pools) ∷ self.old.operands)) }
        ensures heap { OnOk result (heap_of heap.new ≡ with_new_pool (site_of self.old) kind (heap_of heap.old)) }
        ensures err { OnErr result (self.new ≡ self.old) }
        ensures unchanged { OnErr result (heap_of heap.new ≡ heap_of heap.old) }
    {
        if self.operands.reserve(1).is_err() {
            return Err(OutOfMemory);
        }
        let pool = heap.make_pool(self.site(), kind)?;
        self.operands.push(pool).unwrap();
        self.place += 1;
        Ok(())
    }

    /// Puts an operand in the place of the last one, and goes to the next instruction.
    #[inline(always)]
    pub(crate) fn replace(&mut self, word: u64)
        requires next { self.old.place + 1 < 2 ^ 64 }
        requires there { 0 < length self.old.operands }
        ensures { self.new ≡ advanced self.old (word ∷ drop 1 self.old.operands) }
    {
        let last = self.operands.len() - 1;
        self.operands[last] = word;
        self.place += 1;
    }

    /// Puts two operands in the place of the last two, and goes to the next instruction.
    #[inline(always)]
    pub(crate) fn replace_two(&mut self, first: u64, last: u64)
        requires next { self.old.place + 1 < 2 ^ 64 }
        requires there { 2 ≤ length self.old.operands }
        ensures { self.new ≡ advanced self.old (last ∷ first ∷ drop 2 self.old.operands) }
    {
        let count = self.operands.len();
        self.operands[count - 2] = first;
        self.operands[count - 1] = last;
        self.place += 1;
    }

    /// Puts an operand in the place of the last two, and goes to the next instruction.
    #[inline(always)]
    pub(crate) fn combine(&mut self, word: u64)
        requires next { self.old.place + 1 < 2 ^ 64 }
        requires there { 2 ≤ length self.old.operands }
        ensures { self.new ≡ advanced self.old (word ∷ drop 2 self.old.operands) }
    {
        let left = self.operands.len() - 1;
        self.operands.truncate(left);
        self.operands[left - 1] = word;
        self.place += 1;
    }

    /// Drops the last operands, and goes to the next instruction.
    #[inline(always)]
    pub(crate) fn discard(&mut self, count: usize)
        requires next { self.old.place + 1 < 2 ^ 64 }
        requires there { count ≤ length self.old.operands }
        ensures { self.new ≡ advanced self.old (drop count self.old.operands) }
    {
        self.operands.truncate(self.operands.len() - count);
        self.place += 1;
    }

    /// Goes to an instruction.
    #[inline(always)]
    pub(crate) fn jump(&mut self, target: usize)
        ensures { self.new ≡ record self.old { place = target } }
    {
        self.place = target;
    }

    /// Pushes what a call gave back.
    pub(crate) fn give(&mut self, word: u64) -> Result<(), AllocError>
        ensures ok { OnOk result (self.new ≡ record self.old { operands = word ∷ self.old.operands }) }
        ensures err { OnErr result (self.new ≡ self.old) }
    {
        self.operands.push(word)?;
        Ok(())
    }

    /// The operands behind the last `above` ones, as many as there are parameters, the first one deepest.
    pub(crate) fn parameters(&self, above: usize, count: usize) -> &[u64]
        requires { above + count ≤ length self.now.operands }
        ensures { result.now ≡ reverse (take count (drop above self.now.operands)) }
    {
        let end = self.operands.len() - above;
        &self.operands[end - count..end]
    }

    /// The address so many bytes behind the start of the frame.
    #[inline(always)]
    pub(crate) fn address(&self, offset: u64) -> u64
        ensures { result ≡ (self.now.start + offset) % 2 ^ 64 }
    {
        self.start.wrapping_add(offset)
    }

    /// Where the frame begins.
    pub(crate) fn start(&self) -> u64
        ensures { result ≡ self.now.start }
    {
        self.start
    }

    /// Where the next frame begins.
    pub(crate) fn next_start(&self) -> u64
        requires { next_start self.now < 2 ^ 64 }
        ensures { result ≡ next_start self.now }
    {
        self.start + (self.bytes.len() as u64 + 15) / 16 * 16
    }

    /// Where the bytes from `address` on stand in the frame, if `size` of them lie there.
    #[inline(always)]
    fn offset_of(&self, address: u64, size: usize) -> Option<usize>
        ensures { result ≡ (if covers self.now address size then Some (address - self.now.start) else None) }
    {
        let offset = address.checked_sub(self.start)?;
        let behind = (self.bytes.len() as u64).checked_sub(offset)?;
        if size as u64 <= behind {
            Some(offset as usize)
        } else {
            None
        }
    }

    /// The number in the `size` bytes from `address` on, if they lie in the frame.
    #[inline(always)]
    pub(crate) fn read(&self, address: u64, size: usize) -> Option<u64>
        requires low { 1 ≤ size }
        requires high { size ≤ 8 }
        ensures word { result ≡ frame_number self.now address size }
        ensures small { IfSome result (λ number. number < 256 ^ size) }
    {
        let offset = self.offset_of(address, size)?;
        Some(self.bytes.read(offset, size))
    }

    /// Writes the lowest `size` bytes of a word from `address` on, if they lie in the frame, and says whether they do.
    #[inline(always)]
    pub(crate) fn write(&mut self, address: u64, word: u64, size: usize, spare: &mut Spare) -> bool
        requires low { 1 ≤ size }
        requires high { size ≤ 8 }
        requires spare { 2 ≤ spare.old }
        ensures written { result ≡ covers self.old address size }
        ensures bytes { self.new ≡ with_frame_word self.old address size word }
        ensures spare { OnFalse result (spare.new ≡ spare.old) }
    {
        match self.offset_of(address, size) {
            Some(offset) => {
                self.bytes.write(offset, word, size, spare);
                true
            }
            None => false,
        }
    }

    /// Writes the lowest `size` bytes of a word from `address` on, if they lie in the frame and that lies in one piece, and says
    /// whether it did.
    #[inline(always)]
    pub(crate) fn write_in_place(&mut self, address: u64, word: u64, size: usize) -> bool
        requires { size ≤ 8 }
        ensures there { OnTrue result (covers self.old address size ≡ true) }
        ensures written { OnTrue result (self.new ≡ with_frame_word self.old address size word) }
        ensures kept { OnFalse result (self.new ≡ self.old) }
    {
        match self.offset_of(address, size) {
            Some(offset) => self.bytes.write_in_place(offset, word, size),
            None => false,
        }
    }
}
