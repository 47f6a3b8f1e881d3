//! Refusals, lists and batches, to the byte.

use fare_book::Book;
use fare_codes::{City, Day};
use fare_csv::{TextFault, read_edition};
use fare_json::{
    Fault, fault_json, list_json, push_batch_begin, push_batch_end, push_batch_item,
    tariff_fault_json,
};
use fare_trip::{Member, TripFault};
use std::test::Fail;

#[test]
fn refusals_are_answered(rt: HostRuntime) -> Result<(), Fail> {
    let city = City::read(b"MIL").expect(&rt, "a city");
    let unknown = fault_json(rt.alloc(), &Fault::UnknownPlace(city))?;
    assert_eq!(rt;
        unknown.as_slice(),
        b"{\"fault\":{\"text\":\"UNKNOWN PLACE MIL\",\"words\":\"the edition has no record of the city MIL\"}}\n".as_slice()
    );
    let day = Day::read(b"2024-12-31").expect(&rt, "a day");
    let none = fault_json(rt.alloc(), &Fault::NoEdition(day))?;
    assert_eq!(rt;
        none.as_slice(),
        b"{\"fault\":{\"text\":\"NO EDITION 2024-12-31\",\"words\":\"no edition is effective by 2024-12-31\"}}\n".as_slice()
    );
    Ok(())
}

#[test]
fn a_tariff_fault_has_the_sentence_that_it_is_given(rt: HostRuntime) -> Result<(), Fail> {
    let words =
        b"record 8: field 9 (amount) has to be an amount from 0.00 to 9999999.99 with two decimals";
    let text = tariff_fault_json(rt.alloc(), &TextFault::BadRecord(8, 9), words)?;
    assert_eq!(rt;
        text.as_slice(),
        b"{\"fault\":{\"text\":\"TARIFF 8 BadRecord 9\",\"words\":\"record 8: field 9 (amount) has to be an amount from 0.00 to 9999999.99 with two decimals\"}}\n".as_slice()
    );
    Ok(())
}

#[test]
fn a_batch_has_its_items_in_order(rt: HostRuntime) -> Result<(), Fail> {
    let city = City::read(b"XXX").expect(&rt, "a city");
    let unknown = fault_json(rt.alloc(), &Fault::UnknownPlace(city))?;
    let missing = fault_json(
        rt.alloc(),
        &Fault::Trip(TripFault::Missing(Member::Sale, 0)),
    )?;
    let mut text = Vec::new(rt.alloc());
    push_batch_begin(&mut text)?;
    push_batch_item(&mut text, 1, &unknown, 422)?;
    push_batch_item(&mut text, 2, &missing, 400)?;
    push_batch_end(&mut text)?;
    assert_eq!(rt;
        text.as_slice(),
        b"{\"items\":[{\"answer\":{\"fault\":{\"text\":\"UNKNOWN PLACE XXX\",\"words\":\"the edition has no record of the city XXX\"}},\"status\":422},{\"answer\":{\"fault\":{\"text\":\"TRIP Missing sale 0\",\"words\":\"the itinerary has no member sale\"}},\"status\":400}]}\n".as_slice()
    );
    Ok(())
}

#[test]
fn editions_are_listed(rt: HostRuntime) -> Result<(), Fail> {
    let tariff = b"HEAD,1,8,2025-01-01\nCUR,GB,GBP,0.750000,0,1,U\nCITY,LON,GB,2\nEND\n";
    let edition = read_edition(&rt, rt.alloc(), tariff)?;
    let book = Book::of(rt.alloc(), edition)?;
    let text = list_json(rt.alloc(), &book)?;
    assert_eq!(rt;
        text.as_slice(),
        b"{\"editions\":[{\"effective\":\"2025-01-01\",\"number\":8,\"records\":2}]}\n".as_slice()
    );
    Ok(())
}
