// What holds of all spellings.

ghost use Rattle.std.specs.Prelude.{◌≡◌, ◌↔◌, ℕ, List, ◌++◌};
ghost use Rattle.pool_isa.specs.declared.instr.Instr.{Instr as AnInstr};
ghost use Rattle.pool_isa.specs.Number.{IsNumber, number_bytes};
ghost use Rattle.pool_isa.specs.Instr.{spelling};

/// No instruction's spelling begins another's: what follows one is told apart from it.
pub fn no_instruction_begins_another()
    ensures { (a b : AnInstr) (x y : List ℕ) → spelling a ++ x ≡ spelling b ++ y → (a ≡ b) × (x ≡ y) }
{}

/// No number's bytes begin another's.
pub fn no_number_begins_another()
    ensures { (m n : ℕ) (x y : List ℕ) → number_bytes m ++ x ≡ number_bytes n ++ y → (m ≡ n) × (x ≡ y) }
{}

/// The bytes of a number are those of the grammar, and no others.
pub fn number_grammar()
    ensures { (bytes : List ℕ) (n : ℕ) → IsNumber bytes n ↔ (bytes ≡ number_bytes n) }
{}
