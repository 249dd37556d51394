//! A script that is generated, through the one call.
use crate::commands::written_before;
use std::test::Fail;

#[test]
fn each_write_of_a_script_fails_in_turn(rt: HostRuntime) -> Result<(), Fail> {
    let written = [0, 10, 27, 48, 57];
    for k in 0..5usize {
        let found = written_before(rt.alloc(), &["gen", "0"], b"", k as u64 + 1)?;
        assert_eq!(rt; found, Some(written[k]));
    }
    Ok(())
}
