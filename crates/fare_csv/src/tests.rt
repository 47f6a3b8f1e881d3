use crate::spelling::read_at_once;
use std::alloc::Global;
use std::test::Fail;

/// A text of more than 256 KiB, which has a record of each city that there may be.
fn every_city(alloc: Global) -> Result<Vec<u8>, Fail> {
    let mut text = Vec::new(alloc);
    text.extend_from_slice(b"HEAD,2,7,2025-01-01\r\nCUR,GB,GBP,0.750000,0,1,U\r\n")?;
    for number in 0..17_576u32 {
        let first = b'A' + (number / 676) as u8;
        let second = b'A' + (number / 26 % 26) as u8;
        let third = b'A' + (number % 26) as u8;
        text.extend_from_slice(b"CITY,")?;
        text.extend_from_slice(&[first, second, third])?;
        text.extend_from_slice(b",GB,2\r\n")?;
    }
    text.extend_from_slice(b"END\r\n")?;
    Ok(text)
}

#[test]
fn a_long_text_is_read_in_pieces(rt: HostRuntime) -> Result<(), Fail> {
    let text = every_city(rt.alloc())?;
    assert!(rt; read_at_once(&rt, rt.alloc(), text.as_slice()).is_ok());
    Ok(())
}
