//! Two publications into an empty store, with a stop at each call of either file, and the store opened again.

ghost use Rattle.std.specs.Prelude.{IsTrue};

use fare_book::{Book, Published};
use fare_ports::Keeper;
use fare_sqlite::SqliteKeeper;
use sqlite::{Connection, Error, FileStore, Files, Options};
use sqlite_disk::{Crash, Disk, Fuse, Memory};
use std::alloc::Global;
use std::process::Abort;
use std::test::Fail;
use std::thread::Threads;

const FIRST: &[u8] = b"HEAD,2,1,2025-01-01\nEND\n";

const SECOND: &[u8] = b"HEAD,2,2,2025-02-01\nEND\n";

/// More calls of a file than two publications make, or two replacements.
pub const MOST_CALLS: u64 = 200;

/// A database and its log, on disks that stop.
pub type Stopping = Files<Fuse<Memory>>;

pub type Database = Connection<FileStore<Fuse<Memory>>>;

/// How many publications or replacements were acknowledged, and the disks that they leave.
#[derive(Drop)]
pub struct Left {
    pub acknowledged: usize,
    pub files: Stopping,
}

/// How many of the two editions were published before a call was refused.
fn publish_both<R: Threads + Sync, P: Keeper>(rt: &R, alloc: Global, store: &mut P) -> usize {
    if store.open(alloc, "").is_err() {
        return 0;
    }
    match Book::restore(rt, alloc, store) {
        Ok(mut book) => publish_in(rt, alloc, store, &mut book),
        Err(_) => 0,
    }
}

fn publish_in<R: Threads + Sync, P: Keeper>(
    rt: &R,
    alloc: Global,
    store: &mut P,
    book: &mut Book,
) -> usize
    requires { IsTrue (P.ready store.old) }
{
    if book.publish(rt, alloc, store, FIRST) != Ok(Published::New(1)) {
        return 0;
    }
    if book.publish(rt, alloc, store, SECOND) != Ok(Published::New(2)) {
        return 1;
    }
    2
}

/// Publishes both over disks that pass so many calls on, and stops them.
fn stopped<R: Threads + Sync>(rt: &R, alloc: Global, log_calls: u64, db_calls: u64) -> Left {
    let files = Files {
        log: Fuse::new(Memory::new(alloc), log_calls),
        db: Fuse::new(Memory::new(alloc), db_calls),
    };
    match Connection::open_files(alloc, files, Options::new(1)) {
        Ok(conn) => published(rt, alloc, conn),
        Err((_, left)) => Left {
            acknowledged: 0,
            files: left.into_files(),
        },
    }
}

fn published<R: Threads + Sync>(rt: &R, alloc: Global, conn: Database) -> Left {
    let mut store = SqliteKeeper::over(conn);
    let acknowledged = publish_both(rt, alloc, &mut store);
    let files = store.into_connection().into_store().close();
    Left {
        acknowledged,
        files,
    }
}

/// The machine stops and comes back: what wasn't synced may be lost.
pub fn crashed(left: Left) -> Stopping {
    let Left { mut files, .. } = left;
    files.log.crash();
    files.db.crash();
    files
}

/// How many editions the store holds when it is opened again.
fn reopened<R: Threads + Sync>(rt: &R, alloc: Global, files: Stopping) -> Result<usize, Fail> {
    if !files.log.may_be_used() || !files.db.may_be_used() {
        Err("a disk that came back may be used")?;
    }
    match Connection::open_files(alloc, files, Options::new(2)) {
        Ok(conn) => restored(rt, alloc, &mut SqliteKeeper::over(conn)),
        Err(_) => Err("the store opens again")?,
    }
}

/// How many editions are restored: both of them, the first one, or none.
fn restored<R: Threads + Sync, P: Keeper>(
    rt: &R,
    alloc: Global,
    store: &mut P,
) -> Result<usize, Fail> {
    store.open(alloc, "")?;
    let book = Book::restore(rt, alloc, store)?;
    let held = book.editions().len();
    if book.find(1).is_some() != (held >= 1) || book.find(2).is_some() != (held >= 2) {
        Err("the editions stand in the order of publication")?;
    }
    Ok(held)
}

/// Whether a store that was stopped so holds what was acknowledged, and at most the one edition more.
fn is_whole<R: Threads + Sync>(
    rt: &R,
    alloc: Global,
    log_calls: u64,
    db_calls: u64,
) -> Result<bool, Fail> {
    let left = stopped(rt, alloc, log_calls, db_calls);
    let acknowledged = left.acknowledged;
    let held = reopened(rt, alloc, crashed(left))?;
    Ok(acknowledged <= held && held - acknowledged <= 1 && held <= 2)
}

#[test]
fn a_stop_of_the_log_loses_nothing_acknowledged(rt: HostRuntime) -> Result<(), Fail> {
    for calls in 0..MOST_CALLS {
        assert!(rt; is_whole(&rt, rt.alloc(), calls, u64::MAX)?, "{}", calls);
    }
    Ok(())
}

#[test]
fn a_stop_of_the_file_loses_nothing_acknowledged(rt: HostRuntime) -> Result<(), Fail> {
    for calls in 0..MOST_CALLS {
        assert!(rt; is_whole(&rt, rt.alloc(), u64::MAX, calls)?, "{}", calls);
    }
    Ok(())
}

#[test]
fn both_are_published_without_a_stop(rt: HostRuntime) -> Result<(), Fail> {
    let left = stopped(&rt, rt.alloc(), MOST_CALLS, MOST_CALLS);
    assert!(rt; left.acknowledged == 2);
    Ok(())
}
