// Values that were worked out by hand from the rules of C17 6.5.3.2 and 7.22.3.

use crate::sources::program;
use ref_meaning::{Name, Scalar, Store};
use std::test::Fail;

/// How many bytes are allocated, one allocation after another, and the pointer to them.
const ALLOCATIONS: [(i128, Scalar<'static>); 3] = [
    (0, Scalar::Null),
    (1, Scalar::Raw(1)),
    (1, Scalar::Raw(2)),
];

#[test]
fn no_bytes_are_null(rt: HostRuntime) -> Result<(), Fail> {
    let program = program(rt.alloc(), "int main(void) { return 0; }")?;
    let mut store = Store::new(rt.alloc(), &program)?;
    for (size, expected) in ALLOCATIONS {
        assert_eq!(rt; store.allocate(size)?, expected, "{size} bytes");
    }
    Ok(())
}

#[test]
fn names_are_told_apart(rt: HostRuntime) {
    assert!(rt; Name::Heap(1) != Name::Own(1));
    assert!(rt; Scalar::truth(true).is_true());
}
