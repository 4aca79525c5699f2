// What is put in is read back.

use run_theory::ByteString;
use std::test::Fail;

#[test]
fn a_byte_string_is_a_copy(rt: HostRuntime) -> Result<(), Fail> {
    let bytes = ByteString::from_slice(rt.alloc(), b"a\0b")?;
    assert_eq!(rt; bytes.as_slice(), b"a\0b".as_slice());
    Ok(())
}
