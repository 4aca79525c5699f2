// The instructions of the machine.

use c_num::{BinOp, IntType, Relation};

/// How many bytes a store writes.
#[derive(Clone, Copy, Debug, PartialEq, Eq)]
pub enum Width {
    One,
    Two,
    Four,
    Eight,
}

/// An instruction of the machine. Operands are popped from the function's stack, the last one first.
#[derive(Clone, Copy, Debug, PartialEq, Eq)]
pub enum Instr {
    /// Pushes the number.
    Constant(u64),
    /// Pops a word.
    Discard,
    /// Pushes the top word again.
    Duplicate,
    /// Exchanges the top two words.
    Swap,
    /// Pushes the address that is so many bytes behind the start of the frame.
    Local(u64),
    /// Pops an address, and pushes the value of this type that lies there.
    Load(IntType),
    /// Pops a value and then an address, and writes so many bytes of the value there.
    Store(Width),
    /// Pops a pool and then an address, reads an index of four bytes, and pushes the address of that cell.
    LoadLink,
    /// Pops a pool, an address of a cell and an address, and writes the cell's index there in four bytes.
    StoreLink,
    /// Goes on at this instruction of the function.
    Jump(u64),
    /// Pops a word, and jumps if it is zero.
    JumpIfZero(u64),
    /// Pops a word, and jumps if it is not zero.
    JumpIfNotZero(u64),
    /// Calls the function of this number, and pops its parameters, the first one deepest.
    Call(u64),
    /// Pops the word of a function of this signature, and calls that function.
    CallIndirect(u64),
    /// Returns to the caller.
    Return,
    /// Pops a word, and returns it to the caller, for which it is pushed.
    ReturnValue,
    /// Pops a word, and ends the run with it, modulo 256.
    Exit,
    /// Stops the run as a place that is never reached.
    Trap,
    /// Pops two words, the right one first, and pushes what the operator gives at the type, wrapped.
    Binary(BinOp, IntType),
    /// Pops a word and pushes its negative at the type, wrapped.
    Negate(IntType),
    /// Pops a word and pushes its bitwise complement at the type.
    Complement(IntType),
    /// Pops two words, the right one first, and pushes whether the relation holds between their values: 1 or 0.
    Compare(Relation, IntType),
    /// Pops a word, and pushes it converted to the type.
    Convert(IntType),
    /// Makes a pool of this kind, and pushes its number.
    PoolInit(u64),
    /// Pops a pool, and destroys it.
    PoolDestroy,
    /// Pops a number of bytes and then a pool, and pushes the address of a new cell or object.
    PoolAlloc,
    /// Pops an address and then a pool, and frees what begins there. Address 0 does nothing.
    PoolFree,
    /// Reads a byte of the input, and pushes it, or the word of -1 at the end.
    GetChar,
    /// Pops a word, writes its low byte, and pushes that byte.
    PutChar,
}
