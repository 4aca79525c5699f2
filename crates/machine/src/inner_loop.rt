// The inner loop of a run: the instructions of a function that change its own activation alone and go on. It stops before any
// other one, and before one for whose operand no room is reserved.

ghost use Rattle.std.specs.Prelude.{◌≡◌, ◌+◌, ◌^◌, ◌<◌, ◌≤◌, MatchBool};
ghost use Rattle.pool_isa.specs.Machine.{next_start};

use crate::activation::Activation;
use crate::words::{bytes_in, converted_word, size_of};
use c_num::IntType;
use pool_isa::{Instr, Width};

impl Activation {
    ghost use Rattle.pool_isa.specs.Machine as machine;
    ghost use Rattle.machine.specs.Steps.{Advances, MayAdvance};
    ghost use Rattle.machine.specs.Promises.{AdvancesBy};

    /// Pushes the last operand again, where there is room for it, and says whether it did.
    #[inline(always)]
    fn duplicate_within(&mut self, height: u32) -> bool
        requires { self.old.place + 1 < 2 ^ 64 }
        ensures advances { MayAdvance height Instr.Duplicate result self.old self.new }
        ensures frame { next_start self.new ≡ next_start self.old }
        ensures start { self.new.start ≡ self.old.start }
        ensures function { self.new.function ≡ self.old.function }
    {
        match self.last() {
            Some(word) => self.push_within(word, height),
            None => false,
        }
    }

    /// Loads a value that lies in the frame, and says whether it does.
    #[inline(always)]
    fn load_in_frame(&mut self, int_type: IntType) -> bool
        requires { self.old.place + 1 < 2 ^ 64 }
        ensures advances { MatchBool result ((function : machine.Function) → Advances function (Instr.Load int_type) self.old self.new) (self.new ≡ self.old) }
        ensures frame { next_start self.new ≡ next_start self.old }
        ensures start { self.new.start ≡ self.old.start }
        ensures function { self.new.function ≡ self.old.function }
    {
        let Some(address) = self.last() else {
            return false;
        };
        let Some(number) = self.read(address, size_of(int_type)) else {
            return false;
        };
        self.replace(converted_word(number, int_type));
        true
    }

    /// Stores a value in the frame, if that lies in one piece, and says whether it did.
    #[inline(always)]
    fn store_in_frame(&mut self, width: Width) -> bool
        requires { self.old.place + 1 < 2 ^ 64 }
        ensures advances { MatchBool result ((function : machine.Function) → Advances function (Instr.Store width) self.old self.new) (self.new ≡ self.old) }
        ensures frame { next_start self.new ≡ next_start self.old }
        ensures start { self.new.start ≡ self.old.start }
        ensures function { self.new.function ≡ self.old.function }
    {
        let Some((address, word)) = self.last_two() else {
            return false;
        };
        if !self.write_in_place(address, word, bytes_in(width)) {
            return false;
        }
        self.discard(2);
        true
    }

    /// Performs an instruction, if it changes this activation alone and goes on, and says whether it did.
    #[inline(always)]
    fn advance(&mut self, height: u32, instr: Instr) -> bool
        requires { self.old.place + 1 < 2 ^ 64 }
        ensures advances { MayAdvance height instr result self.old self.new }
        ensures frame { next_start self.new ≡ next_start self.old }
        ensures start { self.new.start ≡ self.old.start }
        ensures function { self.new.function ≡ self.old.function }
    {
        match instr {
            Instr::Local(offset) => self.push_within(self.address(offset), height),
            Instr::Load(int_type) => self.load_in_frame(int_type),
            Instr::Convert(int_type) => self.convert(int_type).goes_on(),
            Instr::Constant(word) => self.push_within(word, height),
            Instr::Store(width) => self.store_in_frame(width),
            Instr::Binary(operator, int_type) => self.binary(operator, int_type).goes_on(),
            Instr::Compare(relation, int_type) => self.compare(relation, int_type).goes_on(),
            Instr::JumpIfZero(target) => self.jump_if_zero(target).goes_on(),
            Instr::JumpIfNotZero(target) => self.jump_if_not_zero(target).goes_on(),
            Instr::Jump(target) => {
                self.jump(target as usize);
                true
            }
            Instr::Discard => self.discard_last().goes_on(),
            Instr::Duplicate => self.duplicate_within(height),
            Instr::Swap => self.swap().goes_on(),
            Instr::Negate(int_type) => self.negate(int_type).goes_on(),
            Instr::Complement(int_type) => self.complement(int_type).goes_on(),
            _ => false,
        }
    }

    /// Performs instructions of its function, at most so many, while they change this activation alone and go on, and says
    /// how many.
    #[inline(always)]
    pub(crate) fn advance_by(&mut self, code: &[Instr], height: u32, steps: u64) -> u64
        ensures within { result ≤ steps }
        ensures advances { (function : machine.Function) → function.code ≡ code.now → function.height ≡ height → AdvancesBy function result self.old self.new }
        ensures frame { next_start self.new ≡ next_start self.old }
        ensures start { self.new.start ≡ self.old.start }
    {
        for made in 0..steps {
            let Some(instr) = code.get(self.place()) else {
                return made;
            };
            if !self.advance(height, *instr) {
                return made;
            }
        }
        steps
    }
}
