//! A migration of two bodies in the former version of the text, with a stop at each call of either file, and the store
//! opened again.

use crate::tests::{Database, Left, MOST_CALLS, Stopping, crashed};
use fare_book::{Book, RestoreFault};
use fare_ports::Keeper;
use fare_sqlite::SqliteKeeper;
use sqlite::{Connection, FileStore, Files, Options};
use sqlite_disk::{Disk, Fuse, Memory};
use std::alloc::Global;
use std::test::Fail;
use std::thread::Threads;

const FIRST: &[u8] = b"HEAD,1,1,2025-01-01\nEND\n";

const SECOND: &[u8] = b"HEAD,1,2,2025-02-01\nEND\n";

/// The disks of a store that holds both.
fn old_store(alloc: Global) -> Result<Files<Memory>, Fail> {
    let files = Files {
        log: Memory::new(alloc),
        db: Memory::new(alloc),
    };
    match Connection::open_files(alloc, files, Options::new(1)) {
        Ok(conn) => kept_in(alloc, conn),
        Err(_) => Err("a store of nothing opens")?,
    }
}

fn kept_in(alloc: Global, conn: Connection<FileStore<Memory>>) -> Result<Files<Memory>, Fail> {
    let mut store = SqliteKeeper::over(conn);
    store.open(alloc, "")?;
    store.append(alloc, FIRST)?;
    store.append(alloc, SECOND)?;
    Ok(store.into_connection().into_store().close())
}

/// Migrates both over disks that pass so many calls on, and stops them.
fn stopped<R: Threads + Sync>(
    rt: &R,
    alloc: Global,
    log_calls: u64,
    db_calls: u64,
) -> Result<Left, Fail> {
    let old = old_store(alloc)?;
    let files = Files {
        log: Fuse::new(old.log, log_calls),
        db: Fuse::new(old.db, db_calls),
    };
    if !files.log.may_be_used() || !files.db.may_be_used() {
        Err("a disk that doesn't stop may be used")?;
    }
    match Connection::open_files(alloc, files, Options::new(2)) {
        Ok(conn) => Ok(migrated(rt, alloc, conn)),
        Err((_, left)) => Ok(Left {
            acknowledged: 0,
            files: left.into_files(),
        }),
    }
}

fn migrated<R: Threads + Sync>(rt: &R, alloc: Global, conn: Database) -> Left {
    let mut store = SqliteKeeper::over(conn);
    let acknowledged = if migrate_all(rt, alloc, &mut store) == Ok(2) {
        2
    } else {
        0
    };
    let files = store.into_connection().into_store().close();
    Left {
        acknowledged,
        files,
    }
}

fn migrate_all<R: Threads + Sync, P: Keeper>(
    rt: &R,
    alloc: Global,
    store: &mut P,
) -> Result<u32, RestoreFault> {
    store.open(alloc, "")?;
    let mut book = Book::restore(rt, alloc, store)?;
    book.migrate(rt, alloc, store)
}

/// How many bodies are left to a migration of the store that is opened again.
fn left_over<R: Threads + Sync>(rt: &R, alloc: Global, files: Stopping) -> Result<u32, Fail> {
    if !files.log.may_be_used() || !files.db.may_be_used() {
        Err("a disk that doesn't stop may be used")?;
    }
    match Connection::open_files(alloc, files, Options::new(3)) {
        Ok(conn) => finished(rt, alloc, &mut SqliteKeeper::over(conn)),
        Err(_) => Err("the store opens again")?,
    }
}

fn finished<R: Threads + Sync, P: Keeper>(
    rt: &R,
    alloc: Global,
    store: &mut P,
) -> Result<u32, Fail> {
    store.open(alloc, "")?;
    let mut book = Book::restore(rt, alloc, store)?;
    let replaced = book.migrate(rt, alloc, store)?;
    if book.find(1).is_none() || book.find(2).is_none() || book.editions().len() != 2 {
        Err("both editions are held")?;
    }
    if book.migrate(rt, alloc, store)? != 0 {
        Err("a second migration finds nothing to do")?;
    }
    Ok(replaced)
}

/// Whether a store that was stopped so holds both editions, in canonical texts where that was acknowledged.
fn is_whole<R: Threads + Sync>(
    rt: &R,
    alloc: Global,
    log_calls: u64,
    db_calls: u64,
) -> Result<bool, Fail> {
    let left = stopped(rt, alloc, log_calls, db_calls)?;
    let acknowledged = left.acknowledged;
    let replaced = left_over(rt, alloc, crashed(left))?;
    Ok(acknowledged == 0 || replaced == 0)
}

#[test]
fn a_stop_of_the_log_loses_no_edition(rt: HostRuntime) -> Result<(), Fail> {
    for calls in 0..MOST_CALLS {
        assert!(rt; is_whole(&rt, rt.alloc(), calls, u64::MAX)?, "{}", calls);
    }
    Ok(())
}

#[test]
fn a_stop_of_the_file_loses_no_edition(rt: HostRuntime) -> Result<(), Fail> {
    for calls in 0..MOST_CALLS {
        assert!(rt; is_whole(&rt, rt.alloc(), u64::MAX, calls)?, "{}", calls);
    }
    Ok(())
}

#[test]
fn both_are_migrated_without_a_stop(rt: HostRuntime) -> Result<(), Fail> {
    let left = stopped(&rt, rt.alloc(), MOST_CALLS, MOST_CALLS)?;
    assert!(rt; left.acknowledged == 2);
    Ok(())
}
