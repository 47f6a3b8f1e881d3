//! A publication whose disk refuses a sync, and the next one by the same desk, whose keeper has opened the database
//! again.

ghost use Rattle.std.specs.Prelude.{IsTrue, None};

use crate::tests::{Database, MOST_CALLS};
use fare_book::{Book, PublishFault, Published};
use fare_ports::{KeepFault, Keeper};
use fare_sqlite::{NamedKeeper, Opener, SqliteKeeper};
use sqlite::{Connection, FileStore, Files, Options};
use sqlite_disk::{Disk, Fuse, Memory};
use std::alloc::Global;
use std::test::Fail;
use std::thread::Threads;

const FIRST: &[u8] = b"HEAD,2,1,2025-01-01\nEND\n";

const SECOND: &[u8] = b"HEAD,2,2,2025-02-01\nEND\n";

/// Opens a store of one edition, on disks of which the first log passes so many calls on and no more.
#[derive(Drop)]
struct Disks {
    alloc: Global,
    log_calls: u64,
}

impl Opener<FileStore<Fuse<Memory>>> for Disks {
    ghost bodies = { None };

    fn open(&mut self, _name: &str) -> Result<Database, KeepFault> {
        let calls = self.log_calls;
        self.log_calls = u64::MAX;
        let stored = store_of_one(self.alloc)?;
        opened(
            self.alloc,
            Files {
                log: Fuse::new(stored.log, calls),
                db: Fuse::new(stored.db, u64::MAX),
            },
        )
    }
}

fn opened(alloc: Global, files: Files<Fuse<Memory>>) -> Result<Database, KeepFault> {
    if !files.log.may_be_used() || !files.db.may_be_used() {
        return Err(KeepFault::Failed);
    }
    match Connection::open_files(alloc, files, Options::new(2)) {
        Ok(conn) => Ok(conn),
        Err(_) => Err(KeepFault::Failed),
    }
}

/// The disks of a store that holds the first edition.
fn store_of_one(alloc: Global) -> Result<Files<Memory>, KeepFault> {
    let files = Files {
        log: Memory::new(alloc),
        db: Memory::new(alloc),
    };
    match Connection::open_files(alloc, files, Options::new(1)) {
        Ok(conn) => one_kept_in(alloc, conn),
        Err(_) => Err(KeepFault::Failed),
    }
}

fn one_kept_in(
    alloc: Global,
    conn: Connection<FileStore<Memory>>,
) -> Result<Files<Memory>, KeepFault> {
    let mut store = SqliteKeeper::over(conn);
    store.open(alloc, "")?;
    store.append(alloc, FIRST)?;
    Ok(store.into_connection().into_store().close())
}

/// Whether the first log refused the second edition, and the desk stored it at the next publication.
fn goes_on<R: Threads + Sync>(rt: &R, alloc: Global, log_calls: u64) -> Result<bool, Fail> {
    let mut store = NamedKeeper::over(alloc, Disks { alloc, log_calls });
    if store.open(alloc, "editions").is_err() {
        return Ok(false);
    }
    match Book::restore(rt, alloc, &mut store) {
        Ok(mut book) => publishes_again(rt, alloc, &mut store, &mut book),
        Err(_) => Ok(false),
    }
}

fn publishes_again<R: Threads + Sync, P: Keeper>(
    rt: &R,
    alloc: Global,
    store: &mut P,
    book: &mut Book,
) -> Result<bool, Fail>
    requires { IsTrue (P.ready store.old) }
{
    if book.publish(rt, alloc, store, SECOND) != Err(PublishFault::KeeperFault) {
        return Ok(false);
    }
    if book.publish(rt, alloc, store, SECOND) != Ok(Published::New(2)) {
        return Ok(false);
    }
    let stored = Book::restore(rt, alloc, store)?;
    Ok(stored.editions().len() == 2 && book.editions().len() == 2)
}

#[test]
fn a_desk_goes_on_after_a_refused_sync(rt: HostRuntime) -> Result<(), Fail> {
    let mut is_mended = false;
    for calls in 0..MOST_CALLS {
        if goes_on(&rt, rt.alloc(), calls)? {
            is_mended = true;
        }
    }
    assert!(rt; is_mended);
    Ok(())
}
