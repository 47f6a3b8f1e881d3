use arrayvec::ArrayString;
use fare_csv::{edition_text, read_edition, text_reads_back, text_tells};
use std::alloc::Global;
use std::test::Fail;
use std::thread::Threads;

const VERSION_1: &[u8] =
    b"HEAD,1,1,2025-01-01\nCUR,GB,GBP,0.750000,0,1,U\nCUR,FR,EUR,0.900000,2,1,N\nCUR,IT,EUR,0.900000,2,1,N\nCITY,LON,GB,2\nCITY,PAR,FR,2\nCITY,ROM,IT,2\nFARE,LON,ROM,EH,YY,Y,OW,,400.00\nTPM,LON,PAR,300\nTPM,PAR,ROM,700\nMPM,LON,ROM,EH,1000\nEND\n";

const VERSION_2: &[u8] =
    b"HEAD,2,1,2025-01-01\nCUR,GB,GBP,0.750000,0,1,U\nCUR,FR,EUR,0.900000,2,1,N\nCUR,IT,EUR,0.900000,2,1,N\nCITY,LON,GB,2\nCITY,PAR,FR,2\nCITY,ROM,IT,2\nFARE,LON,ROM,EH,YY,Y,OW,,01-01,12-31,400.00\nTPM,LON,PAR,300\nTPM,PAR,ROM,700\nMPM,LON,ROM,EH,1000\nEND\n";

const EVERY_KIND: &[u8] =
    b"HEAD,2,99999,2025-12-31\nRULE,A1,16,0,3,0,999,Y,*,\nRULE,B,0,16,0,7,30,N,- A1,C9 -\nCITY,LON,GB,2\nCITY,ROM,GB,3\nCUR,GB,GBP,9999999.000001,2,10000,N\nFARE,LON,ROM,AT,Q1,F,HR,B,11-01,03-31,9999999.99\nEMA,ROM,LON,PA,LON,99999\nEMA,ROM,LON,PA,,1\nMPM,LON,ROM,AP,99999\nTPM,ROM,LON,1\nEND\n";

#[test]
fn version_1_reads_as_version_2(rt: HostRuntime) -> Result<(), Fail> {
    let edition = read_edition(&rt, rt.alloc(), VERSION_1)?;
    assert!(rt; edition.number() == 1);
    assert!(rt; edition.records().len() == 10);
    let text = edition_text(rt.alloc(), &edition)?;
    assert!(rt; text.as_slice() == VERSION_2);
    Ok(())
}

#[test]
fn each_kind_reads_back(rt: HostRuntime) -> Result<(), Fail> {
    let edition = read_edition(&rt, rt.alloc(), EVERY_KIND)?;
    text_reads_back(&edition);
    text_tells(&edition, &edition);
    let text = edition_text(rt.alloc(), &edition)?;
    assert!(rt; text.as_slice() == EVERY_KIND);
    Ok(())
}

#[test]
fn lines_end_as_csv_lines_do(rt: HostRuntime) -> Result<(), Fail> {
    let text = b"\xef\xbb\xbfHEAD,1,7,2025-01-01\r\n\r\n\"CUR\",GB,GBP,0.750000,0,1,U\r\rEND";
    let edition = read_edition(&rt, rt.alloc(), text)?;
    assert!(rt; edition.number() == 7);
    assert!(rt; edition.records().len() == 1);
    Ok(())
}

fn fault_of<R: AllocGlobal + Threads + Sync>(rt: &R, text: &[u8]) -> ArrayString<64> {
    match read_edition(rt, rt.alloc(), text) {
        Ok(_) => ArrayString::new(),
        Err(fault) => fault.text(),
    }
}

/// Texts that are no tariff, with their first faults.
static FAULTS: [(&[u8], &str); 6] = [
    (b"", "TARIFF 1 NoHeader"),
    (b"HEAD,1,1,2025-01-01\n", "TARIFF 2 NoEnd"),
    (b"HEAD,3,1,2025-01-01\n", "TARIFF 1 BadRecord 2"),
    (b"HEAD,1,1,2025-01-01\nHEAD\n", "TARIFF 2 UnknownRecord"),
    (b"HEAD,1,1,2025-01-01\nEND\nEND\n", "TARIFF 3 AfterEnd"),
    (
        b"HEAD,1,1,2025-01-01\nTPM,LON,PAR,1\nTPM,PAR,LON,1\nEND\n",
        "TARIFF 2 UnknownCity",
    ),
];

#[test]
fn faults_are_told(rt: HostRuntime) {
    for (text, fault) in &FAULTS {
        assert!(rt; fault_of(&rt, text).as_str() == *fault, "{fault}");
    }
}

/// A text of more than 256 KiB without its END, which has a record of each city that there may be.
fn every_city(alloc: Global) -> Result<Vec<u8>, Fail> {
    let mut text = Vec::new(alloc);
    text.extend_from_slice(b"HEAD,2,7,2025-01-01\r\nCUR,GB,GBP,0.750000,0,1,U\r\n")?;
    for number in 0..17_576u32 {
        let first = b'A' + (number / 676) as u8;
        let second = b'A' + (number / 26 % 26) as u8;
        let third = b'A' + (number % 26) as u8;
        text.extend_from_slice(b"CITY,")?;
        text.extend_from_slice(&[first, second, third])?;
        text.extend_from_slice(b",GB,2\r\n")?;
    }
    Ok(text)
}

#[test]
fn a_long_text_is_read_and_its_fault_is_told(rt: HostRuntime) -> Result<(), Fail> {
    let mut text = every_city(rt.alloc())?;
    text.extend_from_slice(b"END\r\n")?;
    let edition = read_edition(&rt, rt.alloc(), text.as_slice())?;
    assert!(rt; edition.records().len() == 17_577);
    text.extend_from_slice(b"END\r\n")?;
    assert!(rt; fault_of(&rt, text.as_slice()).as_str() == "TARIFF 17580 AfterEnd");
    Ok(())
}
