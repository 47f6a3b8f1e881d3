//! Sources and sinks in memory.

use super::some_bytes;
use fare_outside::*;
use std::alloc::Global;
use std::test::Fail;

/// What a source of nine bytes, whose calls of these numbers fail, is read as by whoever wants so many at most.
fn read_nine(alloc: Global, most: usize, fail: Vec<u32>) -> Result<Result<Vec<u8>, ReadEnd>, Fail> {
    let mut src = MemSource::new(some_bytes(alloc, b"itinerary")?, fail);
    Ok(read_all(alloc, &mut src, most))
}

#[test]
fn a_source_is_read_whole_or_refused(rt: HostRuntime) -> Result<(), Fail> {
    let alloc = rt.alloc();
    let whole = read_nine(alloc, 9, Vec::new(alloc))??;
    assert!(rt; whole.as_slice() == b"itinerary".as_slice());
    let long = read_nine(alloc, 8, Vec::new(alloc))?;
    assert!(rt; long.err() == Some(ReadEnd::TooLong));
    // The first read takes all; the second, which would find the end, fails.
    let broken = read_nine(alloc, 9, vec![in alloc; 2]?)?;
    assert!(rt; broken.err() == Some(ReadEnd::ReadFault));
    Ok(())
}

#[test]
fn a_large_source_is_read_fast(rt: HostRuntime) -> Result<(), Fail> {
    let alloc = rt.alloc();
    let mut src = PlainSource::new(vec![in alloc; 7; 16_777_216]?);
    assert!(rt; read_all(alloc, &mut src, 16_777_216)?.len() == 16_777_216);
    Ok(())
}

#[test]
fn a_sink_takes_what_fits(rt: HostRuntime) -> Result<(), Fail> {
    let mut narrow = PlainSink::new(rt.alloc(), 4)?;
    assert!(rt; write_all(&mut narrow, b"fares") == Err(Failed));
    assert!(rt; narrow.bytes() == b"fare".as_slice());
    Ok(())
}

/// Whether a sink takes a text, then fails, and then takes another one.
fn takes_but_the_second(sink: &mut MemSink) -> bool {
    let first = sink.write(b"fare");
    let second = sink.write(b"fare");
    let third = write_all(sink, b"fares");
    first == Ok(4) && second == Err(Failed) && third == Ok(())
}

#[test]
fn a_listed_call_of_a_sink_fails(rt: HostRuntime) -> Result<(), Fail> {
    let alloc = rt.alloc();
    let mut broken = MemSink::new(alloc, 9, vec![in alloc; 2]?)?;
    assert!(rt; takes_but_the_second(&mut broken));
    assert!(rt; broken.bytes() == b"farefares".as_slice());
    Ok(())
}
