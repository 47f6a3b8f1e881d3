//! Books over keepers in memory, for texts known from outside.

use fare_book::{
    Book, Damage, PublishFault, Published, RestoreFault, bodies_in_words, repeat_is_already,
    selected_is_latest,
};
use fare_codes::Day;
use fare_csv::{TextFault, edition_text, read_edition};
use fare_outside::{FailAt, MemKeeper, PlainKeeper};
use fare_ports::{Bodies, Keeper};
use std::alloc::Global;
use std::test::Fail;

const VERSION_1: &[u8] =
    b"HEAD,1,1,2025-01-01\nCUR,GB,GBP,0.750000,0,1,U\nCUR,FR,EUR,0.900000,2,1,N\nCUR,IT,EUR,0.900000,2,1,N\nCITY,LON,GB,2\nCITY,PAR,FR,2\nCITY,ROM,IT,2\nFARE,LON,ROM,EH,YY,Y,OW,,400.00\nTPM,LON,PAR,300\nTPM,PAR,ROM,700\nMPM,LON,ROM,EH,1000\nEND\n";

const WITH_CR: &[u8] =
    b"HEAD,1,1,2025-01-01\r\nCUR,GB,GBP,0.750000,0,1,U\r\nCUR,FR,EUR,0.900000,2,1,N\r\nCUR,IT,EUR,0.900000,2,1,N\r\nCITY,LON,GB,2\r\nCITY,PAR,FR,2\r\nCITY,ROM,IT,2\r\nFARE,LON,ROM,EH,YY,Y,OW,,400.00\r\nTPM,LON,PAR,300\r\nTPM,PAR,ROM,700\r\nMPM,LON,ROM,EH,1000\r\nEND\r\n";

const DEARER: &[u8] =
    b"HEAD,1,1,2025-01-01\nCUR,GB,GBP,0.750000,0,1,U\nCUR,FR,EUR,0.900000,2,1,N\nCUR,IT,EUR,0.900000,2,1,N\nCITY,LON,GB,2\nCITY,PAR,FR,2\nCITY,ROM,IT,2\nFARE,LON,ROM,EH,YY,Y,OW,,401.00\nTPM,LON,PAR,300\nTPM,PAR,ROM,700\nMPM,LON,ROM,EH,1000\nEND\n";

const CANONICAL: &[u8] =
    b"HEAD,2,1,2025-01-01\nCUR,GB,GBP,0.750000,0,1,U\nCUR,FR,EUR,0.900000,2,1,N\nCUR,IT,EUR,0.900000,2,1,N\nCITY,LON,GB,2\nCITY,PAR,FR,2\nCITY,ROM,IT,2\nFARE,LON,ROM,EH,YY,Y,OW,,01-01,12-31,400.00\nTPM,LON,PAR,300\nTPM,PAR,ROM,700\nMPM,LON,ROM,EH,1000\nEND\n";

const SECOND: &[u8] = b"HEAD,1,2,2025-02-01\nEND\n";

const THIRD: &[u8] = b"HEAD,1,3,2025-02-01\nEND\n";

/// A keeper of no body whose calls of these numbers fail, each with its body kept or not.
fn failing(alloc: Global, fail: &[(u32, bool)]) -> Result<MemKeeper, Fail> {
    let mut listed = Vec::new(alloc);
    for &(call, kept) in fail {
        listed.push(FailAt { call, kept })?;
    }
    Ok(MemKeeper::new(Bodies::new(alloc), listed))
}

/// An edition with a number and no record.
fn numbered(alloc: Global, number: u32) -> Result<String, Fail> {
    Ok(format!(in alloc; "HEAD,1,{number},2025-01-01\nEND\n")?)
}

#[test]
fn a_text_is_published_once(rt: HostRuntime) -> Result<(), Fail> {
    let alloc = rt.alloc();
    let mut store = PlainKeeper::new(Bodies::new(alloc));
    store.open(alloc, "editions")?;
    let mut book = Book::restore(&rt, alloc, &mut store)?;
    assert_eq!(rt;
        book.publish(&rt, alloc, &mut store, VERSION_1),
        Ok(Published::New(1))
    );
    assert_eq!(rt;
        book.publish(&rt, alloc, &mut store, WITH_CR),
        Ok(Published::Already(1))
    );
    assert_eq!(rt;
        book.publish(&rt, alloc, &mut store, DEARER),
        Err(PublishFault::Differs(1))
    );
    assert_eq!(rt;
        book.publish(&rt, alloc, &mut store, b"junk"),
        Err(PublishFault::Malformed(TextFault::NoHeader))
    );
    assert_eq!(rt; store.kept().len(), 1);
    assert_eq!(rt; store.kept().get(0), Some(CANONICAL));
    assert!(rt; book.find(9).is_none() && book.settled());
    repeat_is_already();
    bodies_in_words();
    selected_is_latest();
    let again = Book::restore(&rt, alloc, &mut store)?;
    assert_eq!(rt; again.editions().len(), 1);
    match again.find(1) {
        Some(edition) => assert_eq!(rt; edition_text(alloc, edition)?.as_slice(), CANONICAL),
        None => assert!(rt; false),
    }
    Ok(())
}

#[test]
fn a_book_holds_32_editions(rt: HostRuntime) -> Result<(), Fail> {
    let alloc = rt.alloc();
    let mut bodies = Bodies::new(alloc);
    for number in 1..33 {
        bodies.push(numbered(alloc, number)?.as_bytes())?;
    }
    let mut store = PlainKeeper::new(bodies);
    store.open(alloc, "editions")?;
    let mut book = Book::restore(&rt, alloc, &mut store)?;
    assert_eq!(rt; book.editions().len(), 32);
    let more = numbered(alloc, 33)?;
    assert_eq!(rt;
        book.publish(&rt, alloc, &mut store, more.as_bytes()),
        Err(PublishFault::Full)
    );
    let first = numbered(alloc, 1)?;
    assert_eq!(rt;
        book.publish(&rt, alloc, &mut store, first.as_bytes()),
        Ok(Published::Already(1))
    );
    store.append(alloc, more.as_bytes())?;
    assert_eq!(rt;
        Book::restore(&rt, alloc, &mut store).err(),
        Some(RestoreFault::Damaged(33, Damage::TooMany))
    );
    Ok(())
}

/// The number of the edition that a day selects, or 0.
fn selected(book: &Book, day: &[u8]) -> u32 {
    match Day::read(day) {
        None => 0,
        Some(day) => match book.select(day) {
            None => 0,
            Some(edition) => edition.number(),
        },
    }
}

#[test]
fn a_day_selects_the_latest(rt: HostRuntime) -> Result<(), Fail> {
    let alloc = rt.alloc();
    let mut store = PlainKeeper::new(Bodies::new(alloc));
    store.open(alloc, "editions")?;
    let mut book = Book::of(alloc, read_edition(&rt, alloc, THIRD)?)?;
    book.publish(&rt, alloc, &mut store, SECOND)?;
    book.publish(&rt, alloc, &mut store, VERSION_1)?;
    assert_eq!(rt; selected(&book, b"2025-02-15"), 3);
    assert_eq!(rt; selected(&book, b"2025-01-31"), 1);
    assert_eq!(rt; selected(&book, b"2024-12-31"), 0);
    Ok(())
}

#[test]
fn the_first_damage_is_told(rt: HostRuntime) -> Result<(), Fail> {
    let alloc = rt.alloc();
    let mut bodies = Bodies::new(alloc);
    bodies.push(VERSION_1)?;
    bodies.push(b"junk")?;
    let mut store = PlainKeeper::new(bodies);
    store.open(alloc, "editions")?;
    let fault = Damage::Text(TextFault::NoHeader);
    assert_eq!(rt;
        Book::restore(&rt, alloc, &mut store).err(),
        Some(RestoreFault::Damaged(2, fault))
    );
    assert_eq!(rt; fault.text().as_str(), "1 NoHeader");
    store.replace(alloc, 2, VERSION_1)?;
    let repeat = Damage::Repeat(1);
    assert_eq!(rt;
        Book::restore(&rt, alloc, &mut store).err(),
        Some(RestoreFault::Damaged(2, repeat))
    );
    assert_eq!(rt; repeat.text().as_str(), "Repeat 1");
    assert_eq!(rt; Damage::TooMany.text().as_str(), "TooMany");
    Ok(())
}

#[test]
fn a_failed_append_is_found_again(rt: HostRuntime) -> Result<(), Fail> {
    let alloc = rt.alloc();
    for kept in [false, true] {
        let mut store = failing(alloc, &[(4, kept)])?;
        store.open(alloc, "editions")?;
        let mut book = Book::restore(&rt, alloc, &mut store)?;
        book.publish(&rt, alloc, &mut store, VERSION_1)?;
        assert_eq!(rt;
            book.publish(&rt, alloc, &mut store, SECOND),
            Err(PublishFault::KeeperFault)
        );
        assert!(rt; !book.settled() && book.editions().len() == 1);
        let answer = if kept {
            Published::Already(2)
        } else {
            Published::New(2)
        };
        assert_eq!(rt; book.publish(&rt, alloc, &mut store, SECOND), Ok(answer));
        assert!(rt; book.settled() && book.editions().len() == 2);
        assert_eq!(rt; store.kept().len(), 2);
    }
    Ok(())
}

#[test]
fn a_damage_is_told_before_an_edition_differs(rt: HostRuntime) -> Result<(), Fail> {
    let alloc = rt.alloc();
    let mut store = failing(alloc, &[(4, false)])?;
    store.open(alloc, "editions")?;
    let mut book = Book::restore(&rt, alloc, &mut store)?;
    book.publish(&rt, alloc, &mut store, VERSION_1)?;
    assert_eq!(rt;
        book.publish(&rt, alloc, &mut store, SECOND),
        Err(PublishFault::KeeperFault)
    );
    store.append(alloc, b"junk")?;
    let damage = PublishFault::Damaged(2, Damage::Text(TextFault::NoHeader));
    assert_eq!(rt; book.publish(&rt, alloc, &mut store, DEARER), Err(damage));
    assert!(rt; !book.settled() && book.editions().len() == 1);
    Ok(())
}

#[test]
fn a_keeper_that_fails_restores_no_book(rt: HostRuntime) -> Result<(), Fail> {
    let alloc = rt.alloc();
    let mut store = failing(alloc, &[(2, false)])?;
    store.open(alloc, "editions")?;
    assert_eq!(rt;
        Book::restore(&rt, alloc, &mut store).err(),
        Some(RestoreFault::KeeperFault)
    );
    Ok(())
}

#[test]
fn a_keeper_that_fails_opens_no_book(rt: HostRuntime) -> Result<(), Fail> {
    let alloc = rt.alloc();
    let mut store = failing(alloc, &[(3, true), (5, false)])?;
    store.open(alloc, "editions")?;
    let mut book = Book::restore(&rt, alloc, &mut store)?;
    assert_eq!(rt;
        book.publish(&rt, alloc, &mut store, VERSION_1),
        Err(PublishFault::KeeperFault)
    );
    // The body is there now; the call that would load it fails.
    assert_eq!(rt;
        book.publish(&rt, alloc, &mut store, VERSION_1),
        Err(PublishFault::KeeperFault)
    );
    assert!(rt; !book.settled() && book.editions().is_empty());
    assert_eq!(rt;
        book.publish(&rt, alloc, &mut store, VERSION_1),
        Ok(Published::Already(1))
    );
    Ok(())
}

#[test]
fn an_old_body_is_migrated_once(rt: HostRuntime) -> Result<(), Fail> {
    let alloc = rt.alloc();
    let mut bodies = Bodies::new(alloc);
    bodies.push(VERSION_1)?;
    bodies.push(b"HEAD,2,2,2025-02-01\nEND\n")?;
    let mut store = PlainKeeper::new(bodies);
    store.open(alloc, "editions")?;
    let mut book = Book::of(alloc, read_edition(&rt, alloc, THIRD)?)?;
    assert_eq!(rt; book.migrate(&rt, alloc, &mut store), Ok(1));
    assert_eq!(rt; store.kept().get(0), Some(CANONICAL));
    assert_eq!(rt; book.migrate(&rt, alloc, &mut store), Ok(0));
    assert!(rt; book.settled() && book.find(3).is_none() && book.editions().len() == 2);
    store.append(alloc, b"junk")?;
    let damage = RestoreFault::Damaged(3, Damage::Text(TextFault::NoHeader));
    assert_eq!(rt; book.migrate(&rt, alloc, &mut store), Err(damage));
    Ok(())
}

#[test]
fn a_migration_goes_on_where_it_failed(rt: HostRuntime) -> Result<(), Fail> {
    let alloc = rt.alloc();
    for kept in [false, true] {
        // The second `replace`, behind `open`, two `append`, `len`, two `load`, `load`, `replace` and `load`.
        let mut store = failing(alloc, &[(10, kept)])?;
        store.open(alloc, "editions")?;
        store.append(alloc, VERSION_1)?;
        store.append(alloc, SECOND)?;
        let mut book = Book::of(alloc, read_edition(&rt, alloc, THIRD)?)?;
        let answer = book.migrate(&rt, alloc, &mut store);
        assert_eq!(rt; answer, Err(RestoreFault::KeeperFault));
        assert_eq!(rt; store.kept().get(0), Some(CANONICAL));
        let left = if kept { 0 } else { 1 };
        assert_eq!(rt; book.migrate(&rt, alloc, &mut store), Ok(left));
        assert_eq!(rt; book.migrate(&rt, alloc, &mut store), Ok(0));
    }
    Ok(())
}
