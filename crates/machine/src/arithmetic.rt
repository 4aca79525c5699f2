// The instructions that put what an operator on words gives in the place of its operands.

ghost use Rattle.std.specs.Prelude.{◌≡◌, ◌+◌, ◌^◌, ◌<◌};
ghost use Rattle.pool_isa.specs.Machine.{next_start};

use crate::activation::Activation;
use crate::bits::converted_word;
use crate::ends::Step;
use crate::operators::{binary_word, compared_word, complement_word, negated_word};
use c_num::{BinOp, IntType, Relation};
use pool_isa::Instr;
use run_theory::TrapKind;

impl Activation {
    ghost use Rattle.pool_isa.specs.Machine as machine;
    ghost use Rattle.machine.specs.Steps.{Keeps, PerformsAlone};

    /// Puts what a binary operator gives in the place of its operands.
    #[inline(always)]
    pub(crate) fn binary(&mut self, operator: BinOp, int_type: IntType) -> Step
        requires { self.old.place + 1 < 2 ^ 64 }
        ensures performs { (function : machine.Function) → PerformsAlone function (Instr.Binary operator int_type) self.old result self.new }
        ensures frame { next_start self.new ≡ next_start self.old }
        ensures start { self.new.start ≡ self.old.start }
        ensures kept { Keeps result self.old self.new }
    {
        let Some((left, right)) = self.last_two() else {
            return Step::trap(TrapKind::StackEmpty);
        };
        self.combine(binary_word(operator, int_type, left, right));
        Step::On
    }

    /// Puts 1 or 0 in the place of two operands, which are compared.
    #[inline(always)]
    pub(crate) fn compare(&mut self, relation: Relation, int_type: IntType) -> Step
        requires { self.old.place + 1 < 2 ^ 64 }
        ensures performs { (function : machine.Function) → PerformsAlone function (Instr.Compare relation int_type) self.old result self.new }
        ensures frame { next_start self.new ≡ next_start self.old }
        ensures start { self.new.start ≡ self.old.start }
        ensures kept { Keeps result self.old self.new }
    {
        let Some((left, right)) = self.last_two() else {
            return Step::trap(TrapKind::StackEmpty);
        };
        self.combine(compared_word(relation, int_type, left, right));
        Step::On
    }

    /// Puts the negative in the place of the last operand.
    #[inline(always)]
    pub(crate) fn negate(&mut self, int_type: IntType) -> Step
        requires { self.old.place + 1 < 2 ^ 64 }
        ensures performs { (function : machine.Function) → PerformsAlone function (Instr.Negate int_type) self.old result self.new }
        ensures frame { next_start self.new ≡ next_start self.old }
        ensures start { self.new.start ≡ self.old.start }
        ensures kept { Keeps result self.old self.new }
    {
        let Some(operand) = self.last() else {
            return Step::trap(TrapKind::StackEmpty);
        };
        self.replace(negated_word(int_type, operand));
        Step::On
    }

    /// Puts the bitwise complement in the place of the last operand.
    #[inline(always)]
    pub(crate) fn complement(&mut self, int_type: IntType) -> Step
        requires { self.old.place + 1 < 2 ^ 64 }
        ensures performs { (function : machine.Function) → PerformsAlone function (Instr.Complement int_type) self.old result self.new }
        ensures frame { next_start self.new ≡ next_start self.old }
        ensures start { self.new.start ≡ self.old.start }
        ensures kept { Keeps result self.old self.new }
    {
        let Some(operand) = self.last() else {
            return Step::trap(TrapKind::StackEmpty);
        };
        self.replace(complement_word(int_type, operand));
        Step::On
    }

    /// Converts the last operand to a type.
    #[inline(always)]
    pub(crate) fn convert(&mut self, int_type: IntType) -> Step
        requires { self.old.place + 1 < 2 ^ 64 }
        ensures performs { (function : machine.Function) → PerformsAlone function (Instr.Convert int_type) self.old result self.new }
        ensures frame { next_start self.new ≡ next_start self.old }
        ensures start { self.new.start ≡ self.old.start }
        ensures kept { Keeps result self.old self.new }
    {
        let Some(operand) = self.last() else {
            return Step::trap(TrapKind::StackEmpty);
        };
        self.replace(converted_word(operand, int_type));
        Step::On
    }
}
