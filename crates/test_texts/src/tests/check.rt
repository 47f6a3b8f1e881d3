//! Texts with their faults, the report of more faults than it shows, and the sentence of one fault.

mod texts;

use fare_check::{check_text, first_fault_is_the_editions, tariff_words};
use fare_csv::TextFault;
use std::alloc::Global;
use std::process::Abort;
use std::test::Fail;
use std::thread::Threads;
use texts::{Case, OTHERS, WORKED};

/// What the check of a text answers, with nothing known of it.
fn answer_to<R: Abort + AllocGlobal + Threads + Sync>(
    rt: &R,
    text: &[u8],
) -> (Option<TextFault>, Vec<u8>) {
    let checked = check_text(rt, rt.alloc(), text).expect(rt, "memory");
    (checked.fault, checked.text)
}

fn are_right<R: Abort + AllocGlobal + Threads + Sync>(rt: &R, cases: &[Case]) {
    for case in cases {
        let (_, text) = answer_to(rt, case.text);
        assert!(rt; text.as_slice() == case.answer);
    }
}

#[test]
fn worked_texts(rt: HostRuntime) {
    are_right(&rt, &WORKED);
}

#[test]
fn other_texts(rt: HostRuntime) {
    are_right(&rt, &OTHERS);
}

#[test]
fn the_first_fault_is_that_of_the_edition(rt: HostRuntime) {
    first_fault_is_the_editions(WORKED[0].text);
    let (broken, _) = answer_to(&rt, WORKED[0].text);
    assert!(rt; broken == Some(TextFault::BadRecord(2, 0)));
    let (none, _) = answer_to(&rt, WORKED[3].text);
    assert!(rt; none.is_none());
}

/// HEAD, a country, a city, and as many records of one pair with equal cities and no miles.
fn equal_pairs(alloc: Global, count: usize) -> Result<Vec<u8>, Fail> {
    let mut text = Vec::new(alloc);
    text.extend_from_slice(b"HEAD,1,1,2025-01-01\nCUR,GB,GBP,0.750000,0,1,U\nCITY,LON,GB,2\n")?;
    for _ in 0..count {
        text.extend_from_slice(b"TPM,LON,LON,0\n")?;
    }
    text.extend_from_slice(b"END\n")?;
    Ok(text)
}

#[test]
fn a_hundred_faults_are_shown_and_the_others_counted(rt: HostRuntime) -> Result<(), Fail> {
    let source = equal_pairs(rt.alloc(), 3_140)?;
    let (_, text) = answer_to(&rt, source.as_slice());
    let first =
        b"TARIFF 4 SamePoint  TPM,LON,LON,0  its two cities are equal\nTARIFF 5 Duplicate 4  TPM,LON,LON,0  its key is that of record 4\n";
    assert!(rt; text.as_slice().starts_with(first));
    assert!(rt;
        text.as_slice()
            .ends_with(b"  its key is that of record 4\nMORE 3040\n")
    );
    assert!(rt;
        text.as_slice()
            .iter()
            .filter(|byte| **byte == b'\n')
            .count()
            == 101
    );
    Ok(())
}

fn words_of<R: Abort + AllocGlobal + Threads + Sync>(
    rt: &R,
    text: &[u8],
    fault: TextFault,
) -> Vec<u8> {
    tariff_words(rt, rt.alloc(), text, fault).expect(rt, "memory")
}

#[test]
fn the_sentence_of_a_fault(rt: HostRuntime) {
    let bad = words_of(&rt, WORKED[2].text, TextFault::BadRecord(8, 9));
    assert!(rt;
        bad.as_slice()
            == b"record 8: field 9 (amount) has to be an amount from 0.00 to 9999999.99 with two decimals".as_slice()
    );
}
