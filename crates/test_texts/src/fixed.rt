//! Texts in a room of fixed size.
use arrayvec::ArrayVec;
use parts_text::{add, add_number};
use std::test::Fail;

#[test]
fn parts_follow_one_another(rt: HostRuntime) -> Result<(), Fail> {
    let mut text: ArrayVec<u8, 64> = ArrayVec::new();
    add(&mut text, b"task ");
    add_number(&mut text, u64::MAX);
    add(&mut text, b" of ");
    add_number(&mut text, 0);
    assert_eq!(rt;
        text.as_slice(),
        b"task 18446744073709551615 of 0".as_slice()
    );
    Ok(())
}
