// The instructions that concern the innermost function alone: its operands and its place.

ghost use Rattle.std.specs.Prelude.{◌≡◌, ◌+◌, ◌^◌, ◌<◌, ◌≤◌, drop, length};
ghost use Rattle.pool_isa.specs.Machine.{branched, next_start};

use crate::activation::Activation;
use crate::ends::{RunEnd, Step};
use pool_isa::Instr;
use run_theory::TrapKind;

impl Activation {
    ghost use Rattle.pool_isa.specs.Machine as machine;
    ghost use Rattle.machine.specs.Steps.{IsAlone, Keeps, PerformsAlone};

    /// Pushes a word, where the function may hold one more operand.
    fn push_if_room(&mut self, word: u64, height: u32) -> Step
        requires { self.old.place + 1 < 2 ^ 64 }
        ensures performs { (function : machine.Function) → function.height ≡ height → PerformsAlone function (Instr.Constant word) self.old result self.new }
        ensures frame { next_start self.new ≡ next_start self.old }
        ensures start { self.new.start ≡ self.old.start }
    {
        if self.is_full(height) {
            return Step::trap(TrapKind::StackFull);
        }
        match self.push(word) {
            Ok(()) => Step::On,
            Err(_) => Step::Over(RunEnd::OutOfMemory),
        }
    }

    /// Pushes the last operand again, where the function may hold one more.
    fn duplicate(&mut self, height: u32) -> Step
        requires { self.old.place + 1 < 2 ^ 64 }
        ensures performs { (function : machine.Function) → function.height ≡ height → PerformsAlone function Instr.Duplicate self.old result self.new }
        ensures frame { next_start self.new ≡ next_start self.old }
        ensures start { self.new.start ≡ self.old.start }
    {
        match self.last() {
            Some(word) => self.push_if_room(word, height),
            None => Step::trap(TrapKind::StackEmpty),
        }
    }

    /// Drops the last operand.
    #[inline(always)]
    pub(crate) fn discard_last(&mut self) -> Step
        requires { self.old.place + 1 < 2 ^ 64 }
        ensures performs { (function : machine.Function) → PerformsAlone function Instr.Discard self.old result self.new }
        ensures frame { next_start self.new ≡ next_start self.old }
        ensures start { self.new.start ≡ self.old.start }
        ensures kept { Keeps result self.old self.new }
    {
        if self.height() == 0 {
            return Step::trap(TrapKind::StackEmpty);
        }
        self.discard(1);
        Step::On
    }

    /// Exchanges the last two operands.
    #[inline(always)]
    pub(crate) fn swap(&mut self) -> Step
        requires { self.old.place + 1 < 2 ^ 64 }
        ensures performs { (function : machine.Function) → PerformsAlone function Instr.Swap self.old result self.new }
        ensures frame { next_start self.new ≡ next_start self.old }
        ensures start { self.new.start ≡ self.old.start }
        ensures kept { Keeps result self.old self.new }
    {
        let Some((first, last)) = self.last_two() else {
            return Step::trap(TrapKind::StackEmpty);
        };
        self.replace_two(last, first);
        Step::On
    }

    /// Drops the last operand, and goes to an instruction, or to the next one.
    #[inline(always)]
    pub(crate) fn branch(&mut self, test: bool, target: u64)
        requires next { self.old.place + 1 < 2 ^ 64 }
        requires there { 1 ≤ length self.old.operands }
        ensures { self.new ≡ branched test target self.old (drop 1 self.old.operands) }
    {
        self.discard(1);
        if test {
            self.jump(target as usize);
        }
    }

    /// Jumps if the last operand is zero.
    #[inline(always)]
    pub(crate) fn jump_if_zero(&mut self, target: u64) -> Step
        requires { self.old.place + 1 < 2 ^ 64 }
        ensures performs { (function : machine.Function) → PerformsAlone function (Instr.JumpIfZero target) self.old result self.new }
        ensures frame { next_start self.new ≡ next_start self.old }
        ensures start { self.new.start ≡ self.old.start }
        ensures kept { Keeps result self.old self.new }
    {
        let Some(word) = self.last() else {
            return Step::trap(TrapKind::StackEmpty);
        };
        self.branch(word == 0, target);
        Step::On
    }

    /// Jumps if the last operand is not zero.
    #[inline(always)]
    pub(crate) fn jump_if_not_zero(&mut self, target: u64) -> Step
        requires { self.old.place + 1 < 2 ^ 64 }
        ensures performs { (function : machine.Function) → PerformsAlone function (Instr.JumpIfNotZero target) self.old result self.new }
        ensures frame { next_start self.new ≡ next_start self.old }
        ensures start { self.new.start ≡ self.old.start }
        ensures kept { Keeps result self.old self.new }
    {
        let Some(word) = self.last() else {
            return Step::trap(TrapKind::StackEmpty);
        };
        self.branch(word != 0, target);
        Step::On
    }

    /// Ends the run with the last operand, modulo 256.
    fn exit(&self) -> Step
        ensures { (function : machine.Function) → PerformsAlone function Instr.Exit self.now result self.now }
    {
        match self.last() {
            Some(word) => Step::Over(RunEnd::Ended((word % 256) as u8)),
            None => Step::trap(TrapKind::StackEmpty),
        }
    }

    /// Performs an instruction of a function that may hold `height` operands.
    pub(crate) fn perform_alone(&mut self, height: u32, instr: Instr) -> Step
        requires next { self.old.place + 1 < 2 ^ 64 }
        requires alone { IsAlone instr }
        ensures performs { (function : machine.Function) → function.height ≡ height → PerformsAlone function instr self.old result self.new }
        ensures frame { next_start self.new ≡ next_start self.old }
        ensures start { self.new.start ≡ self.old.start }
    {
        match instr {
            Instr::Constant(word) => self.push_if_room(word, height),
            Instr::Discard => self.discard_last(),
            Instr::Duplicate => self.duplicate(height),
            Instr::Swap => self.swap(),
            Instr::Local(offset) => self.push_if_room(self.address(offset), height),
            Instr::Jump(target) => {
                self.jump(target as usize);
                Step::On
            }
            Instr::JumpIfZero(target) => self.jump_if_zero(target),
            Instr::JumpIfNotZero(target) => self.jump_if_not_zero(target),
            Instr::Exit => self.exit(),
            Instr::Binary(operator, int_type) => self.binary(operator, int_type),
            Instr::Negate(int_type) => self.negate(int_type),
            Instr::Complement(int_type) => self.complement(int_type),
            Instr::Compare(relation, int_type) => self.compare(relation, int_type),
            Instr::Convert(int_type) => self.convert(int_type),
            // `Trap`: no other one is left.
            _ => Step::trap(TrapKind::Reached),
        }
    }
}
