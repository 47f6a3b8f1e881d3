//! Drills whose texts were worked from the format by other means, and each public call once.

use fare_csv::edition_text;
use fare_drill::{drill_input, drill_text};
use fare_trip::trip_text;
use fare_units::{Construction, Part};
use std::test::Fail;

const ONE_SECTOR: &[u8] =
    b"HEAD,2,1,2025-01-01\nCUR,XA,XXA,1.000000,2,1,U\nCUR,XB,XXB,1.000000,2,1,U\nCITY,CAA,XA,2\nCITY,CAB,XB,2\nRULE,A,16,16,0,0,999,Y,*,*\nFARE,CAA,CAB,EH,YY,Y,OW,,01-01,12-31,238.38\nFARE,CAA,CAB,EH,YY,Y,OW,A,01-01,12-31,247.58\nFARE,CAA,CAB,EH,Q1,Y,OW,,01-01,12-31,231.13\nFARE,CAA,CAB,EH,Q1,Y,OW,A,01-01,12-31,245.15\nFARE,CAA,CAB,EH,YY,Y,HR,,01-01,12-31,265.51\nFARE,CAA,CAB,EH,YY,Y,HR,A,01-01,12-31,271.27\nFARE,CAA,CAB,EH,Q1,Y,HR,,01-01,12-31,265.10\nFARE,CAA,CAB,EH,Q1,Y,HR,A,01-01,12-31,269.19\nFARE,CAB,CAA,EH,YY,Y,OW,,01-01,12-31,232.12\nFARE,CAB,CAA,EH,YY,Y,OW,A,01-01,12-31,230.86\nFARE,CAB,CAA,EH,Q1,Y,OW,,01-01,12-31,237.49\nFARE,CAB,CAA,EH,Q1,Y,OW,A,01-01,12-31,237.67\nFARE,CAB,CAA,EH,YY,Y,HR,,01-01,12-31,265.84\nFARE,CAB,CAA,EH,YY,Y,HR,A,01-01,12-31,255.60\nFARE,CAB,CAA,EH,Q1,Y,HR,,01-01,12-31,257.25\nFARE,CAB,CAA,EH,Q1,Y,HR,A,01-01,12-31,270.43\nMPM,CAA,CAB,EH,120\nTPM,CAA,CAB,100\nEND\n";

const ONE_SECTOR_TRIP: &[u8] =
    b"{\"from\":\"CAA\",\"sale\":\"2025-01-01\",\"sectors\":[{\"cabin\":\"Y\",\"carrier\":\"Q1\",\"day\":\"2025-02-01\",\"over\":\"\",\"stop\":true,\"surface\":false,\"to\":\"CAB\"}]}";

const TWO_SECTOR_TRIP: &[u8] =
    b"{\"from\":\"CAA\",\"sale\":\"2025-01-01\",\"sectors\":[{\"cabin\":\"Y\",\"carrier\":\"Q1\",\"day\":\"2025-02-01\",\"over\":\"\",\"stop\":true,\"surface\":false,\"to\":\"CAB\"},{\"cabin\":\"Y\",\"carrier\":\"Q1\",\"day\":\"2025-02-01\",\"over\":\"\",\"stop\":true,\"surface\":false,\"to\":\"CAA\"}]}";

#[test]
fn one_sector(rt: HostRuntime) -> Result<(), Fail> {
    let (edition, trip) = drill_input(&rt, rt.alloc(), 1, 1, 0)?;
    assert_eq!(rt; edition_text(rt.alloc(), &edition)?.as_slice(), ONE_SECTOR);
    assert_eq!(rt; trip_text(rt.alloc(), &trip)?.as_slice(), ONE_SECTOR_TRIP);
    Ok(())
}

#[test]
fn two_sectors_in_the_same_edition(rt: HostRuntime) -> Result<(), Fail> {
    let (edition, trip) = drill_input(&rt, rt.alloc(), 1, 2, 0)?;
    assert_eq!(rt; edition_text(rt.alloc(), &edition)?.as_slice(), ONE_SECTOR);
    assert_eq!(rt; trip_text(rt.alloc(), &trip)?.as_slice(), TWO_SECTOR_TRIP);
    Ok(())
}

#[test]
fn extra_records_stand_last(rt: HostRuntime) -> Result<(), Fail> {
    let (edition, _trip) = drill_input(&rt, rt.alloc(), 2_147_483_647, 3, 20)?;
    assert_eq!(rt; edition.records().len(), 60 + 676 + 20);
    let text = edition_text(rt.alloc(), &edition)?;
    assert!(rt; text.ends_with(b"TPM,DAA,DAT,19\nTPM,DAA,DAU,20\nEND\n"));
    Ok(())
}

#[test]
fn most_records(rt: HostRuntime) -> Result<(), Fail> {
    let (edition, _trip) = drill_input(&rt, rt.alloc(), 1, 2, 200_000)?;
    assert_eq!(rt; edition.records().len(), 200_699);
    Ok(())
}

#[test]
fn summaries(rt: HostRuntime) -> Result<(), Fail> {
    let mut parts = Construction::new();
    let pushed = parts.try_push(Part {
        end: 1,
        unit: 1,
        fare: 9,
    });
    assert!(rt; pushed.is_ok());
    let found = drill_text(rt.alloc(), 1, 1, 23, Some(&(parts, 23_113)))?;
    assert_eq!(rt;
        found.as_slice(),
        b"DRILL seed 1 sectors 1 records 23\nTOTAL NUC 231.13\nPARTS 1 UNITS 1\n".as_slice()
    );
    let none = drill_text(rt.alloc(), 0, 16, 700, None)?;
    assert_eq!(rt;
        none.as_slice(),
        b"DRILL seed 0 sectors 16 records 700\nNO FARE\nPARTS 0 UNITS 0\n".as_slice()
    );
    Ok(())
}
