//! A batch whose items are answered side by side.

ghost use Rattle.std.specs.Prelude.{◌<◌};

use fare_book::Book;
use fare_csv::read_edition;
use fare_desk::{Clerk, SideBySide};
use fare_http::Form;
use fare_trip::read_json;
use fare_units::PlainQuoter;
use std::alloc::Global;
use std::test::Fail;
use std::thread::Threads;

/// London and Rome, with one fare.
const TARIFF: &[u8] = b"HEAD,1,1,2025-01-01
CUR,GB,GBP,0.750000,0,1,U
CUR,IT,EUR,0.900000,2,1,N
CITY,LON,GB,2
CITY,ROM,IT,2
FARE,LON,ROM,EH,YY,Y,OW,,400.00
END
";

/// The fare's trip, an object without members, and the trip sold before there was an edition.
const ITEMS: &[u8] = b"[\
{\"sale\":\"2025-01-15\",\"from\":\"LON\",\"sectors\":[{\"to\":\"ROM\",\"carrier\":\"Q1\",\"day\":\"2025-04-10\",\"cabin\":\"Y\"}]},{},\
{\"sale\":\"2024-12-31\",\"from\":\"LON\",\"sectors\":[{\"to\":\"ROM\",\"carrier\":\"Q1\",\"day\":\"2025-04-10\",\"cabin\":\"Y\"}]}]";

/// The texts that they are answered, one after the other.
const TEXTS: &[u8] = b"EDITION 1 2025-01-01
LON Q1 ROM 400.00 YYYOW/1 NUC400.00END ROE0.750000
PART 1 LON-ROM UNIT 1 OUT
FARE 6 YYYOW 400.00
MILES DIRECT
HIP NONE
AF 400.00
UNIT 1 OW SUM 400.00 CHECK NONE PRICE 400.00
TOTAL NUC 400.00
ROE 0.750000
LOCAL GBP 300
TRIP Missing sale 0
NO EDITION 2024-12-31
";

/// The texts of the replies to the items on so many threads.
fn texts_on<R: Threads + Sync>(rt: &R, alloc: Global, threads: usize) -> Result<Vec<u8>, Fail>
    requires { 0 < threads }
{
    let book = Book::of(alloc, read_edition(rt, alloc, TARIFF)?)?;
    let clerk = Clerk {
        book: &book,
        quoter: &PlainQuoter,
        form: Form::Text,
    };
    let batcher = SideBySide { clerk, threads };
    let Some(value) = read_json(alloc, ITEMS)? else {
        return Err(Fail::new("no JSON"));
    };
    let Some(items) = value.as_array() else {
        return Err(Fail::new("no items"));
    };
    let mut texts = Vec::new(alloc);
    for reply in batcher.replies(rt, alloc, items.as_slice())? {
        let Some(reply) = reply else {
            return Err(Fail::new("no reply"));
        };
        texts.extend_from_slice(reply.body.as_slice())?;
    }
    Ok(texts)
}

#[test]
fn a_batch_has_the_same_replies_on_one_thread_and_on_three(rt: HostRuntime) -> Result<(), Fail> {
    let alone = texts_on(&rt, rt.alloc(), 1)?;
    assert!(rt; alone.as_slice() == TEXTS);
    let beside = texts_on(&rt, rt.alloc(), 3)?;
    assert!(rt; beside.as_slice() == TEXTS);
    Ok(())
}
