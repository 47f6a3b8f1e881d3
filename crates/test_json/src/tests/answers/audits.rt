//! Audits of presented lines, to the byte.

use fare_audit::{audit, read_audit};
use fare_csv::read_edition;
use fare_json::audit_json;
use fare_units::PlainQuoter;
use std::alloc::Global;
use std::test::Fail;
use std::thread::Threads;

/// What is asked to be audited in an edition, and the answer.
#[derive(Clone, Copy)]
struct Case {
    tariff: &'static str,
    asked: &'static str,
    text: &'static str,
}

static AUDITS: [Case; 6] = [
    // The best line.
    Case {
        tariff: "HEAD,1,1,2025-01-01\n\
                 CUR,GB,GBP,0.750000,0,1,U\n\
                 CUR,FR,EUR,0.900000,2,1,N\n\
                 CUR,IT,EUR,0.900000,2,1,N\n\
                 CITY,LON,GB,2\n\
                 CITY,PAR,FR,2\n\
                 CITY,ROM,IT,2\n\
                 FARE,LON,ROM,EH,YY,Y,OW,,400.00\n\
                 FARE,LON,PAR,EH,YY,Y,OW,,450.00\n\
                 FARE,PAR,ROM,EH,YY,Y,OW,,200.00\n\
                 TPM,LON,PAR,300\n\
                 TPM,PAR,ROM,700\n\
                 MPM,LON,ROM,EH,1000\n\
                 END\n",
        asked: r#"{"line":"LON Q1 PAR Q1 ROM MLONPAR450.00 YYYOW/1 P/1 50.00 NUC500.00END ROE0.750000","trip":{"sale":"2025-03-01","from":"LON","sectors":[{"to":"PAR","carrier":"Q1","day":"2025-04-10","cabin":"Y"},{"to":"ROM","carrier":"Q1","day":"2025-04-12","cabin":"Y"}]}}"#,
        text: "{\"edition\":{\"effective\":\"2025-01-01\",\"number\":1},\"verdict\":{\"name\":\"LAWFUL\",\"over\":\"0.00\",\"price\":\"500.00\",\"words\":\"the line is lawful, and no lawful one costs less\"}}\n",
    },
    // A lawful line that costs more.
    Case {
        tariff: "HEAD,1,1,2025-01-01\n\
                 CUR,GB,GBP,0.750000,0,1,U\n\
                 CUR,FR,EUR,0.900000,2,1,N\n\
                 CUR,IT,EUR,0.900000,2,1,N\n\
                 CITY,LON,GB,2\n\
                 CITY,PAR,FR,2\n\
                 CITY,ROM,IT,2\n\
                 FARE,LON,ROM,EH,YY,Y,OW,,400.00\n\
                 FARE,LON,PAR,EH,YY,Y,OW,,450.00\n\
                 FARE,PAR,ROM,EH,YY,Y,OW,,200.00\n\
                 TPM,LON,PAR,300\n\
                 TPM,PAR,ROM,700\n\
                 MPM,LON,ROM,EH,1000\n\
                 END\n",
        asked: r#"{"line":"LON Q1 PAR 450.00 YYYOW/1 Q1 ROM 200.00 YYYOW/2 NUC650.00END ROE0.750000","trip":{"sale":"2025-03-01","from":"LON","sectors":[{"to":"PAR","carrier":"Q1","day":"2025-04-10","cabin":"Y"},{"to":"ROM","carrier":"Q1","day":"2025-04-12","cabin":"Y"}]}}"#,
        text: "{\"edition\":{\"effective\":\"2025-01-01\",\"number\":1},\"verdict\":{\"name\":\"LAWFUL\",\"over\":\"150.00\",\"price\":\"650.00\",\"words\":\"the line is lawful, and a lawful one costs 150.00 less\"}}\n",
    },
    // The line of another trip.
    Case {
        tariff: "HEAD,1,1,2025-01-01\n\
                 CUR,GB,GBP,0.750000,0,1,U\n\
                 CUR,FR,EUR,0.900000,2,1,N\n\
                 CUR,IT,EUR,0.900000,2,1,N\n\
                 CITY,LON,GB,2\n\
                 CITY,PAR,FR,2\n\
                 CITY,ROM,IT,2\n\
                 FARE,LON,ROM,EH,YY,Y,OW,,400.00\n\
                 FARE,LON,PAR,EH,YY,Y,OW,,450.00\n\
                 FARE,PAR,ROM,EH,YY,Y,OW,,200.00\n\
                 TPM,LON,PAR,300\n\
                 TPM,PAR,ROM,700\n\
                 MPM,LON,ROM,EH,1000\n\
                 END\n",
        asked: r#"{"line":"LON Q1 X/PAR Q1 ROM M400.00 YYYOW/1 NUC400.00END ROE0.750000","trip":{"sale":"2025-03-01","from":"LON","sectors":[{"to":"PAR","carrier":"Q1","day":"2025-04-10","cabin":"Y"},{"to":"ROM","carrier":"Q1","day":"2025-04-12","cabin":"Y"}]}}"#,
        text: "{\"edition\":{\"effective\":\"2025-01-01\",\"number\":1},\"verdict\":{\"name\":\"OTHER TRIP\",\"sector\":1,\"words\":\"the line and the trip differ at sector 1\"}}\n",
    },
    // Units that cross.
    Case {
        tariff: "HEAD,1,1,2025-01-01\n\
                 CUR,GB,GBP,0.750000,0,1,U\n\
                 CUR,FR,EUR,0.900000,2,1,N\n\
                 CUR,IT,EUR,0.900000,2,1,N\n\
                 CITY,LON,GB,2\n\
                 CITY,PAR,FR,2\n\
                 CITY,ROM,IT,2\n\
                 FARE,LON,PAR,EH,YY,Y,HR,,100.00\n\
                 FARE,PAR,ROM,EH,YY,Y,HR,,80.00\n\
                 END\n",
        asked: r#"{"line":"LON Q1 PAR 100.00 YYYHR/1 Q1 ROM 80.00 YYYHR/2 Q1 PAR 80.00 YYYHR/1 Q1 LON 100.00 YYYHR/2 NUC360.00END ROE0.750000","trip":{"sale":"2025-03-01","from":"LON","sectors":[{"to":"PAR","carrier":"Q1","day":"2025-04-10","cabin":"Y"},{"to":"ROM","carrier":"Q1","day":"2025-04-12","cabin":"Y"},{"to":"PAR","carrier":"Q1","day":"2025-04-14","cabin":"Y"},{"to":"LON","carrier":"Q1","day":"2025-04-16","cabin":"Y"}]}}"#,
        text: "{\"edition\":{\"effective\":\"2025-01-01\",\"number\":1},\"verdict\":{\"name\":\"BROKEN\",\"place\":4,\"rule\":4,\"words\":\"the units cross, first at part 4\"}}\n",
    },
    // Another total.
    Case {
        tariff: "HEAD,1,1,2025-01-01\n\
                 CUR,GB,GBP,0.750000,0,1,U\n\
                 CUR,IT,EUR,0.900000,2,1,N\n\
                 CITY,LON,GB,2\n\
                 CITY,ROM,IT,2\n\
                 FARE,LON,ROM,EH,YY,Y,OW,,400.00\n\
                 END\n",
        asked: r#"{"line":"LON Q1 ROM 400.00 YYYOW/1 NUC399.00END ROE0.750000","trip":{"sale":"2025-03-01","from":"LON","sectors":[{"to":"ROM","carrier":"Q1","day":"2025-04-10","cabin":"Y"}]}}"#,
        text: "{\"edition\":{\"effective\":\"2025-01-01\",\"number\":1},\"verdict\":{\"name\":\"FIGURES\",\"part\":2,\"words\":\"the figures of the parts are right, and something else of the line is wrong\"}}\n",
    },
    // A rule that has no fare.
    Case {
        tariff: "HEAD,1,1,2025-01-01\n\
                 CUR,GB,GBP,0.750000,0,1,U\n\
                 CUR,IT,EUR,0.900000,2,1,N\n\
                 CITY,LON,GB,2\n\
                 CITY,ROM,IT,2\n\
                 FARE,LON,ROM,EH,YY,Y,OW,,400.00\n\
                 END\n",
        asked: r#"{"line":"LON Q1 ROM 400.00 YYYOWRA/1 NUC400.00END ROE0.750000","trip":{"sale":"2025-03-01","from":"LON","sectors":[{"to":"ROM","carrier":"Q1","day":"2025-04-10","cabin":"Y"}]}}"#,
        text: "{\"edition\":{\"effective\":\"2025-01-01\",\"number\":1},\"verdict\":{\"name\":\"NO RECORD\",\"part\":1,\"words\":\"no record files the fare of part 1\"}}\n",
    },
];

/// Whether the audit of a case is answered as it says.
fn holds<R: Threads + Sync>(rt: &R, alloc: Global, case: &Case) -> Result<bool, Fail> {
    let edition = read_edition(rt, alloc, case.tariff.as_bytes())?;
    let (line, trip) = read_audit(alloc, case.asked.as_bytes())?;
    let verdict = audit(rt, alloc, &PlainQuoter, &edition, &trip, &line)?;
    let text = audit_json(alloc, &edition, &line, &verdict)?;
    Ok(text.as_slice() == case.text.as_bytes())
}

#[test]
fn worked_audits(rt: HostRuntime) -> Result<(), Fail> {
    for case in &AUDITS {
        assert!(rt; holds(&rt, rt.alloc(), case)?, "{}", case.text);
    }
    Ok(())
}
