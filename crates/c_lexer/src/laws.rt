// The laws of divisions and faults: each function's contract is one law, over all texts, and its body does nothing.

ghost use Rattle.c_lexer.specs.Laws.{OneDivision, OneFault, NoBoth, Decided};

/// A text divides into tokens in one way at most.
pub fn texts_divide_in_one_way()
    ensures { OneDivision }
{}

/// A text has one first fault at most.
pub fn texts_have_one_fault()
    ensures { OneFault }
{}

/// A text with a fault doesn't divide into tokens.
pub fn faults_leave_no_division()
    ensures { NoBoth }
{}

/// A text divides into tokens or has a fault.
pub fn texts_divide_or_have_a_fault()
    ensures { Decided }
{}
