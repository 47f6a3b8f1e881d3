ghost use Rattle.std.specs.Prelude.{IsTrue};

use fare_ports::{KeepFault, Keeper};
use fare_sqlite::*;
use sqlite::{Connection, Error, MemStore};
use sqlite_disk::Wary;
use std::alloc::Global;
use std::fs;
use std::process::Abort;
use std::test::Fail;

/// The folder in which the tests on files lie.
const FOLDER: &str = "fare_sqlite_test";

/// The folder in which a keeper is opened by two names.
const NAMES: &str = "fare_sqlite_names";

/// A connection to a database in memory, after these statements.
fn database(alloc: Global, sql: &str) -> Result<Connection<MemStore>, Error> {
    let mut conn = Connection::open_in_memory(alloc)?;
    conn.execute_batch(sql)?;
    Ok(conn)
}

/// What `open` answers over such a database.
fn opening(alloc: Global, sql: &str) -> Result<Result<(), KeepFault>, Fail> {
    let mut store = SqliteKeeper::over(database(alloc, sql)?);
    Ok(store.open(alloc, "editions"))
}

/// Opens the store, adds a body, and answers how many there are then.
fn publish<S: FoundFile>(
    store: &mut FileKeeper<S>,
    alloc: Global,
    name: &str,
    body: &[u8],
) -> Result<u64, KeepFault> {
    store.open(alloc, name)?;
    store.append(alloc, body)?;
    store.len(alloc)
}

/// Whether that body stands at a place.
fn is_at<P: Keeper>(
    store: &mut P,
    alloc: Global,
    place: u32,
    body: &[u8],
) -> Result<bool, KeepFault>
    requires { IsTrue (P.ready store.old) }
    ensures { IsTrue (P.ready store.new) }
{
    let count = store.len(alloc)?;
    if place == 0 || place as u64 > count {
        return Ok(false);
    }
    let kept = store.load(alloc, place)?;
    Ok(kept.as_slice() == body)
}

/// Puts another body at a place, and answers whether one stood there.
fn put_at<P: Keeper>(
    store: &mut P,
    alloc: Global,
    place: u32,
    body: &[u8],
) -> Result<bool, KeepFault>
    requires { IsTrue (P.ready store.old) }
    ensures { IsTrue (P.ready store.new) }
{
    let count = store.len(alloc)?;
    if place == 0 || place as u64 > count {
        return Ok(false);
    }
    store.replace(alloc, place, body)?;
    Ok(true)
}

/// Opens the store, and answers whether its first body is that one.
fn is_first<S: FoundFile>(
    store: &mut FileKeeper<S>,
    alloc: Global,
    name: &str,
    body: &[u8],
) -> Result<bool, KeepFault> {
    store.open(alloc, name)?;
    is_at(store, alloc, 1, body)
}

#[test]
fn a_table_keeps_bodies_by_place(rt: HostRuntime) -> Result<(), Fail> {
    let alloc = rt.alloc();
    let mut store = SqliteKeeper::over(database(alloc, "")?);
    store.open(alloc, "editions")?;
    store.append(alloc, b"one")?;
    store.append(alloc, b"two")?;
    assert_eq!(rt; store.len(alloc)?, 2);
    assert!(rt; is_at(&mut store, alloc, 2, b"two")?);
    assert!(rt; put_at(&mut store, alloc, 1, b"")?);
    assert!(rt; is_at(&mut store, alloc, 1, b"")?);
    assert!(rt; !put_at(&mut store, alloc, 3, b"three")?);
    store.open(alloc, "editions")?;
    assert_eq!(rt; store.len(alloc)?, 2);
    Ok(())
}

/// Databases of editions.
static OPENED: [&str; 3] = [
    "",
    "CREATE TABLE edition(place INTEGER PRIMARY KEY, body BLOB NOT NULL)",
    "CREATE TABLE edition(place INTEGER PRIMARY KEY, body BLOB NOT NULL); INSERT INTO edition VALUES (2, x''), (1, x'')",
];

/// Databases of something else, or with places astray.
static REFUSED: [&str; 9] = [
    "CREATE TABLE edition(place INTEGER PRIMARY KEY, body BLOB NOT NULL); INSERT INTO edition VALUES (1, x''), (3, x'')",
    "CREATE TABLE edition(place INTEGER PRIMARY KEY, body BLOB NOT NULL); INSERT INTO edition VALUES (0, x'00')",
    "CREATE TABLE edition(place INTEGER PRIMARY KEY, body BLOB NOT NULL); INSERT INTO edition VALUES (1, 'text')",
    "CREATE TABLE edition(place INTEGER PRIMARY KEY, body BLOB NOT NULL); CREATE INDEX by_body ON edition(body)",
    "CREATE TABLE edition(place INTEGER PRIMARY KEY, body BLOB NOT NULL); BEGIN",
    "CREATE TABLE edition(place INTEGER, body BLOB NOT NULL)",
    "CREATE TABLE edition(place INTEGER PRIMARY KEY, body TEXT NOT NULL)",
    "CREATE TABLE edition(place INTEGER PRIMARY KEY, body BLOB)",
    "CREATE TABLE other(place INTEGER PRIMARY KEY, body BLOB NOT NULL)",
];

#[test]
fn only_a_database_of_editions_is_opened(rt: HostRuntime) -> Result<(), Fail> {
    for sql in &OPENED {
        assert_eq!(rt; opening(rt.alloc(), sql)?, Ok(()));
    }
    for sql in &REFUSED {
        assert_eq!(rt; opening(rt.alloc(), sql)?, Err(KeepFault::Failed));
    }
    Ok(())
}

#[test]
fn a_file_keeps_bodies_for_one_keeper_at_a_time(rt: HostRuntime) -> Result<(), Fail> {
    let _ = fs::remove_dir_all(&rt, FOLDER);
    is_kept_for_one::<Wary, HostRuntime>(&rt, &rt)?;
    fs::remove_dir_all(&rt, FOLDER)?;
    Ok(())
}

fn is_kept_for_one<S: FoundFile, R: Abort>(rt: &R, host: &HostRuntime) -> Result<(), Fail> {
    let alloc = host.alloc();
    let name = "fare_sqlite_test/editions";
    let mut first = FileKeeper::<S>::new(host);
    let in_no_folder = publish(&mut first, alloc, name, b"one");
    assert_eq!(rt; in_no_folder, Err(KeepFault::Failed));
    fs::create_dir(host, FOLDER)?;
    assert_eq!(rt; publish(&mut first, alloc, name, b"one")?, 1);
    let mut second = FileKeeper::<S>::new(host);
    let beside_the_first = publish(&mut second, alloc, name, b"two");
    assert_eq!(rt; beside_the_first, Err(KeepFault::Failed));
    drop(first);
    assert_eq!(rt; publish(&mut second, alloc, name, b"two")?, 2);
    assert!(rt; is_first(&mut second, alloc, name, b"one")?);
    Ok(())
}

#[test]
fn a_file_that_is_open_is_opened_by_no_other_name(rt: HostRuntime) -> Result<(), Fail> {
    let _ = fs::remove_dir_all(&rt, NAMES);
    fs::create_dir(&rt, NAMES)?;
    is_opened_by_one_name::<Wary, HostRuntime>(&rt, &rt)?;
    fs::remove_dir_all(&rt, NAMES)?;
    Ok(())
}

fn is_opened_by_one_name<S: FoundFile, R: Abort>(rt: &R, host: &HostRuntime) -> Result<(), Fail> {
    let alloc = host.alloc();
    let (one, other) = ("fare_sqlite_names/one", "fare_sqlite_names/other");
    let mut store = FileKeeper::<S>::new(host);
    assert_eq!(rt; publish(&mut store, alloc, one, b"one")?, 1);
    assert_eq!(rt; publish(&mut store, alloc, other, b"two")?, 2);
    assert!(rt; fs::metadata(host, other).is_err());
    drop(store);
    let mut again = FileKeeper::<S>::new(host);
    assert!(rt; is_first(&mut again, alloc, one, b"one")?);
    assert_eq!(rt; publish(&mut again, alloc, one, b"three")?, 3);
    Ok(())
}
