// All but one on a plain store of two sectors, neither written.

use crate::empty::NoSectors;
use console::respond::respond;
use std::process::Abort;
use std::test::Fail;
use store::plain::PlainStore;

fn prints(rt: &(impl Abort + AllocGlobal), input: &[u8], expected: &[u8]) -> Result<(), Fail> {
    let mut bytes = [0u8; 1026];
    let out = respond(rt.alloc(), &mut PlainStore::new(&mut bytes), input)?;
    assert!(rt; out.as_slice() == expected);
    Ok(())
}

#[test]
fn an_empty_input_has_no_line(rt: HostRuntime) -> Result<(), Fail> {
    prints(&rt, b"", b"")
}

#[test]
fn an_empty_end_is_no_line(rt: HostRuntime) -> Result<(), Fail> {
    prints(&rt, b"r 0\n", b"r 0 -\n")?;
    prints(&rt, b"r 0", b"r 0 -\n")?;
    prints(&rt, b"\n", b"line 1 refused 15\n")?;
    prints(
        &rt,
        b"\n\nr 1",
        b"line 1 refused 15\nline 2 refused 15\nr 1 -\n",
    )
}

#[test]
fn the_last_of_two_writes_is_read(rt: HostRuntime) -> Result<(), Fail> {
    prints(
        &rt,
        b"w 1 a\nw 1 b\nr 1\nr 0\nw 2 c",
        b"w 1 0 0\nw 1 0 0\nr 1 =b\nr 0 -\nline 5 refused 13\n",
    )
}

#[test]
fn an_input_of_65_536_bytes_is_taken(rt: HostRuntime) -> Result<(), Fail> {
    let input = vec![in rt.alloc(); b'r'; 65_536]?;
    prints(&rt, &input, b"line 1 refused 15\n")
}

#[test]
fn a_longer_input_is_not_begun(rt: HostRuntime) -> Result<(), Fail> {
    let input = vec![in rt.alloc(); b'\n'; 65_537]?;
    prints(&rt, &input, b"too long\n")
}

#[test]
fn a_store_may_leave_out_what_its_calls_make(rt: HostRuntime) -> Result<(), Fail> {
    let out = respond(rt.alloc(), &mut NoSectors, b"r 0\nw 0 a\nx")?;
    let expected = b"line 1 refused 13\nline 2 refused 13\nline 3 refused 15\n";
    assert!(rt; out.as_slice() == expected.as_slice());
    Ok(())
}
