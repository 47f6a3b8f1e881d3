ghost use Rattle.std.specs.Prelude.{◌≡◌, [], false, true, None, IfOk};
ghost use Rattle.sqlite.specs.Files.{file_state};
ghost use Rattle.fare_ports.specs.Keeper.{BodiesStay, WhereTold};
ghost use Rattle.fare_sqlite.specs.Kept.{kept};

use crate::count::fault_of;
use crate::found::FoundFile;
use crate::named_keeper::NamedKeeper;
use crate::opener::Opener;
use fare_ports::KeepFault;
use sqlite::{Connection, FileFrom, FileStore};
use std::marker::PhantomData;

/// A keeper over the database file of a name, whatever that file holds as it is found.
///
/// The file is locked for this keeper alone from `open` until the keeper is dropped, for readers as
/// for writers. Nothing waits for a lock: where another process or keeper has the file open, `open`
/// fails at once. Beside the file stands its log, `NAME-wal`, which may hold editions that the file
/// doesn't hold yet: the two belong together.
pub type FileKeeper<S> = NamedKeeper<FileStore<FileFrom<S>>, FileOpener<S>>;

/// Opens database files, which it makes where there are none.
#[derive(Drop)]
pub struct FileOpener<S: FoundFile> {
    runtime: HostRuntime,
    found: PhantomData<S>,
}

impl<S: FoundFile> FileOpener<S> {
    /// An opener of this process.
    pub fn new(rt: &HostRuntime) -> FileOpener<S> {
        FileOpener {
            runtime: *rt,
            found: PhantomData,
        }
    }
}

impl<S: FoundFile> Opener<FileStore<FileFrom<S>>> for FileOpener<S> {
    ghost bodies = { S.FoundFile.bodies };

    /// It fails where the file can't be opened for writing, as where its folder is missing or it is
    /// read-only, where it is no database, and where it is open elsewhere. Such a file keeps what it
    /// holds and is closed again; an empty log may be left beside it.
    fn open(&mut self, name: &str) -> Result<Connection<FileStore<FileFrom<S>>>, KeepFault> {
        match Connection::open_from(&self.runtime, name, false, S::found()) {
            Ok(conn) => Ok(conn),
            Err((error, _)) => Err(fault_of(error)),
        }
    }
}

impl<S: FoundFile> FileKeeper<S> {
    /// A keeper of this process, over no file yet.
    pub fn new(rt: &HostRuntime) -> FileKeeper<S>
        ensures { result ≡ record { name = []; table = None; is_as_found = true; is_ready = false; faults = 0 } }
    {
        NamedKeeper::over(rt.alloc(), FileOpener::new(rt))
    }
}
