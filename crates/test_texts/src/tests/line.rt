//! Lines and bytes that are none, with the answers of a separate program.

use fare_codes::{Cabin, Kind};
use fare_line::*;
use std::process::Abort;
use std::test::Fail;

/// Lines of quotations.
static LINES: [&[u8]; 10] = [
    b"LON Q1 ROM 400.00 YYYOW/1 NUC400.00END ROE0.750000",
    b"LON Q1 PAR Q1 ROM M400.00 YYYOW/1 NUC400.00END ROE0.750000",
    b"LON Q1 PAR Q1 ROM MLONPAR450.00 YYYOW/1 P/1 50.00 NUC500.00END ROE0.750000",
    b"LON Q1 X/PAR Q1 ROM M400.00 YYYOW/1 NUC400.00END ROE0.750000",
    b"LON Q1 TYO 400.00 YYYHR/1 Q1 LAX Q1 LON M390.00 YYYHR/1 P/1 110.00 NUC900.00END ROE0.750000",
    b"LON Q1 PAR 100.00 YYYHR/1 Q1 ROM 80.00 YYYHR/2 Q1 PAR 80.00 YYYHR/2 Q1 LON 100.00 YYYHR/1 NUC360.00END ROE0.750000",
    b"LON Q1 PAR 200.00 YYYOW/1 Q1 ROM 100.00 YYYOWRB/2 NUC300.00END ROE0.750000",
    b"LON Q1 X/FRA Q1 TYO M1200.00 YYYHRFLEX/1 Q2 LAX Q2 NYC Q2 LON 5M1575.00 YYYHRFLEX/1 P/1 25.00 NUC2800.00END ROE0.750000",
    b"LON Q1 PAR 100.00 YYYHR/1 // LYS Q1 LON 90.00 YYYHR/1 NUC190.00END ROE0.750000",
    b"CSG FW TSE M0.28 04FOWD9UGOP4P/16 F8 EWR 20M1.66 CYYHRF/16 PW QUS 5M530105452.63 88FOW/2 P/5 9.03 P/1 1.79 NUC10.63END ROE1419276.641328",
];

/// Bytes that are no line, and how many of them could have become one.
static REFUSED: [(&[u8], u32); 16] = [
    (b"", 0),
    (b"LON Q1 RO", 9),
    (b"LON Q1 ROM 400.0X", 16),
    (b"HIC QL /3 999999999.68 NUC1.30END ROE400.175050", 7),
    (
        b"ZZC WE X/Q 2RYOWXWL6OJ2Q/16 // MIM CL CQI ZL X/YDN 10.30 14FHRU325/1 P/2 0.33 NUC9.65END ROE1.078724",
        10,
    ),
    (
        b"LZE RR X/EJM 932134335.84 UVCHR/16 Q7 X/FXS 15MJRWZMT1.06 B3FOW8C0Y/16 NUC343235439.M90END ROE10.312659",
        84,
    ),
    (
        b"AHQ TL CZA RB WFD 25M10.40 SVCHRUGU44HKA/1 P/7 1065 NUC11547759.12END ROE10.244340",
        51,
    ),
    (
        b"LJU FK X/OZH II X/WPP M9.76 OFYHR/16 9I LGZ 9.56 FVFHR/16 P/13 400.3400.01 NUC125185795.58END ROE5736766.355791",
        69,
    ),
    (b"EJW 7E RFH P2 UUN 15M400.90 4BCHR/.00END ROE10.325787", 34),
    (
        b"OWA F4 GCE MNUKLLL182377465.97 6KCOWZ3EPFMKJ/16 P/3 311949538.30 P/3 1.89 NUC1.40END ROE9999999.6414",
        100,
    ),
    (
        b"UVH NV X/KXE 5777M14488.34 CHFOW/9 NUC999999999.96END ROE0.680233",
        17,
    ),
    (
        b"XCE F1 VZT 15MDPAVKN1.91 GFFHR/10 MZ X/GJA M9.64 LVCHR3EX2VNRD/1 NU\xe914110599.53END ROE400.503344",
        67,
    ),
    (b"IHT 9B BXQ QE XzDWN 999999999.20 PWFHRR/1682.109387", 15),
    (
        b"GQF 4C JZM DQ SWV 2M999999999.23 TLCHR/16 BR HRQ 1.83 3MYOWK7DBB0NZ/16 NUC0.22END RE9.181490",
        20,
    ),
    (b"VYA J4 DNR 20MRITAXZ1.78 7HFOW/16 NUC", 37),
    (
        b"KYC 43 VQN M9.15 67YOW7E6SKEYM/17 DU YMT 25M9.36 PYYOW/1 8M AHF 25MXCPAOW1.45 VSFHRK7E8PY0M/9 NUC10.30END ROE0.193037",
        32,
    ),
];

/// The line of a text of the lists above.
fn line_of(rt: &impl Abort, text: &[u8]) -> Line {
    read_line(text).ok().expect(rt, "a line")
}

#[test]
fn lines_print_as_they_stand(rt: HostRuntime) -> Result<(), Fail> {
    for text in &LINES {
        let line = line_of(&rt, text);
        let printed = print_line(rt.alloc(), &line)?;
        assert!(rt; printed.as_slice() == *text);
    }
    Ok(())
}

/// Where no line goes on like these bytes.
fn refused_at(bytes: &[u8]) -> Option<u32> {
    match read_line(bytes) {
        Ok(_) => None,
        Err(BadLine(number)) => Some(number),
    }
}

#[test]
fn bytes_that_are_no_line_are_refused_where_no_line_goes_on(rt: HostRuntime) {
    for (bytes, number) in &REFUSED {
        assert!(rt; refused_at(bytes) == Some(*number));
    }
}

/// The second part of a line of two sectors.
fn second_part(line: &Line) -> Option<LinePart> {
    if line.sectors.len() != 2 || line.parts.len() != 2 {
        return None;
    }
    Some(line.parts[1])
}

#[test]
fn a_line_is_read_in_all_its_parts(rt: HostRuntime) -> Result<(), Fail> {
    let line = line_of(&rt, LINES[8]);
    assert!(rt; line.from.text().as_str() == "LON");
    assert!(rt; line.total == 19_000);
    assert!(rt; line.roe == 750_000);
    let part = second_part(&line).ok_or("two sectors and two parts")?;
    assert!(rt; part.end == 3 && part.unit == 1);
    assert!(rt; part.letter == Letter::Bare);
    assert!(rt; part.amount == 9_000);
    assert!(rt; part.class == Cabin::Y);
    assert!(rt; part.kind == Kind::HR);
    assert!(rt; part.gap.is_some());
    Ok(())
}
