use crate::*;
use fare_ports::{read_all, write_all};
use std::test::Fail;

#[test]
fn standard_input_ends(rt: HostRuntime) -> Result<(), Fail> {
    let mut src = StdSource::new(&rt);
    let bytes = read_all(rt.alloc(), &mut src, 1_000_000)?;
    assert!(rt; bytes.len() <= 1_000_000);
    Ok(())
}

#[test]
fn standard_output_takes_a_text(rt: HostRuntime) -> Result<(), Fail> {
    let mut out = StdSink::new(&rt);
    write_all(&mut out, b"standard output\n")?;
    Ok(())
}
