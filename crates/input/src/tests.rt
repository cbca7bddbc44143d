// How much of an input is read.

use crate::read_input;
use std::alloc::Global;
use std::process::Abort;
use std::test::Fail;

// How many bytes are read of `given` sevens, with the limit `most`.
fn read_of(rt: &impl Abort, heap: Global, given: usize, most: usize) -> Result<usize, Fail> {
    let bytes = vec![in heap; 7u8; given]?;
    let read = read_input(heap, bytes.as_slice(), most)?;
    for byte in &read {
        assert_eq!(rt; *byte, 7);
    }
    Ok(read.len())
}

#[test]
fn one_byte_past_the_limit_is_read(rt: HostRuntime) -> Result<(), Fail> {
    assert_eq!(rt; read_of(&rt, rt.alloc(), 0, 8)?, 0);
    assert_eq!(rt; read_of(&rt, rt.alloc(), 8, 8)?, 8);
    assert_eq!(rt; read_of(&rt, rt.alloc(), 9, 8)?, 9);
    assert_eq!(rt; read_of(&rt, rt.alloc(), 10, 8)?, 9);
    assert_eq!(rt; read_of(&rt, rt.alloc(), 65_538, 65_536)?, 65_537);
    Ok(())
}
