//! What a file of editions holds as it is first opened.

ghost use Rattle.std.specs.Prelude.{List, ℕ, Option, None, IfSome, ⊤};
ghost use Rattle.sqlite_wal.specs.Files.{image_at};
ghost use Rattle.fare_sqlite.specs.Found.{HoldsBodies};

use sqlite_disk::{Start, Wary};

/// The first contents of a file and of its log, with the bodies that stand in them. What is proved over any such
/// contents holds of those that a file has, which no code can read.
pub trait FoundFile: Start {
    /// The bodies that the file holds, where they are told.
    ghost bodies: { Option (List (List ℕ)) };

    /// A value for one opening.
    fn found() -> Self;

    /// Those that are told stand in it.
    ghost held: { IfSome bodies (HoldsBodies (image_at Self.Start)) };
}

/// For `main` to name: it tells nothing of the file, and supposes of a torn write that it may leave any bytes.
impl FoundFile for Wary {
    ghost bodies = { None };

    ghost held = { tt };

    fn found() -> Wary {
        Wary
    }
}
