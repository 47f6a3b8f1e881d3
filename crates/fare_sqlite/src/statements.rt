//! The statements on the table, each a call of its own.

ghost use Rattle.std.specs.Prelude.{◌≡◌, ◌<◌, ◌≤◌, ◌+◌, ◌-◌, pos, length, slice_set, ◌++◌, ◌∷◌, [], true, None, Some};
ghost use Rattle.std.specs.Prelude.{Err, IfOk};
ghost use Rattle.std.specs.Prelude.{IfSome, IsTrue, OnOk, OnErr};
ghost use Rattle.std.specs.List.{filter};
ghost use Rattle.std.specs.Option.{ForSome};
ghost use Rattle.sqlite.specs.Held.{state};
ghost use Rattle.sqlite.specs.State.{HasCleanDisk};
ghost use Rattle.sqlite_value.specs.declared.value.Value.TheVariants.{Int, Blob};
ghost use Rattle.sqlite_value.specs.Order.{column};
ghost use Rattle.fare_sqlite.specs.Bodies.{has_no_body, rows_at};
ghost use Rattle.fare_ports.specs.Keeper.{BodiesStay, BodyAppended, BodyReplaced, HasPlace, ToldAfter};
ghost use Rattle.fare_ports.specs.Keeper.{body_at};
ghost use Rattle.fare_sqlite.specs.Kept.{HasTable, IsSettled, LeavesAsBefore, LeavesJust, LeavesOr, Speaks, Stays};
ghost use Rattle.fare_sqlite.specs.Kept.{kept, rows_of};
ghost use Rattle.fare_sqlite.specs.Ours.{is_blank};

use crate::count::fault_of;
use fare_ports::KeepFault;
use sqlite::{Alter, Connection, Error, ErrorCode, Row, params};

const CREATE: &str =
    "CREATE TABLE IF NOT EXISTS edition(place INTEGER PRIMARY KEY, body BLOB NOT NULL)";

const COUNT: &str = "SELECT count(*) FROM edition";

const COUNT_OTHERS: &str =
    "SELECT count(*) FROM edition WHERE typeof(place) <> 'integer' OR typeof(body) <> 'blob'";

const COUNT_AT: &str = "SELECT count(*) FROM edition WHERE place = ?1";

const SELECT: &str = "SELECT body FROM edition WHERE place = ?1";

const INSERT: &str = "INSERT INTO edition (place, body) VALUES (?1, ?2)";

const UPDATE: &str = "UPDATE edition SET body = ?2 WHERE place = ?1";

/// How many rows the table has.
pub fn count_rows<S: Alter>(conn: &mut Connection<S>) -> Result<u64, KeepFault>
    requires { IsTrue (state S.Store conn.old).is_open → HasTable (state S.Store conn.old) }
    ensures stays { Stays (state S.Store conn.old) (state S.Store conn.new) }
    ensures count { IfOk result (λ n. IsTrue (state S.Store conn.new).is_open →
        n ≡ length (rows_of (state S.Store conn.new))) }
    ensures small { IfOk result (λ n. n < 9223372036854775807) }
    ensures opened { OnOk result
        (HasCleanDisk (state S.Store conn.new) → IsTrue (state S.Store conn.new).is_open) }
    ensures leaves { LeavesAsBefore (state S.Store conn.old) (state S.Store conn.new) }
{
    let _settled = conn.is_autocommit();
    let row = match conn.query_row(COUNT, &[]) {
        Ok(row) => row,
        Err(error) => return Err(fault_of(error)),
    };
    number_in(&row)
}

/// How many rows have a place that is no whole number, or a body that is no blob.
pub fn count_others<S: Alter>(conn: &mut Connection<S>) -> Result<u64, KeepFault>
    requires { IsTrue (state S.Store conn.old).is_open → HasTable (state S.Store conn.old) }
    ensures stays { Stays (state S.Store conn.old) (state S.Store conn.new) }
    ensures count { IfOk result (λ n. IsTrue (state S.Store conn.new).is_open →
        n ≡ length (filter has_no_body (rows_of (state S.Store conn.new)))) }
{
    let _settled = conn.is_autocommit();
    let row = match conn.query_row(COUNT_OTHERS, &[]) {
        Ok(row) => row,
        Err(error) => return Err(fault_of(error)),
    };
    number_in(&row)
}

/// How many rows stand at a place.
pub fn count_at<S: Alter>(conn: &mut Connection<S>, place: u64) -> Result<u64, KeepFault>
    requires table { IsTrue (state S.Store conn.old).is_open → HasTable (state S.Store conn.old) }
    requires small { place ≤ 9223372036854775807 }
    ensures stays { Stays (state S.Store conn.old) (state S.Store conn.new) }
    ensures count { IfOk result (λ n. IsTrue (state S.Store conn.new).is_open →
        n ≡ length (rows_at place (rows_of (state S.Store conn.new)))) }
{
    let _settled = conn.is_autocommit();
    let number = place as i64;
    let row = match conn.query_row(COUNT_AT, params![number]) {
        Ok(row) => row,
        Err(error) => return Err(fault_of(error)),
    };
    number_in(&row)
}

/// The number in the first column. The greatest fails, since it may stand for a greater one.
fn number_in(row: &Row) -> Result<u64, KeepFault>
    ensures { IfOk result (λ n. (column row.now 0 ≡ Int (pos n)) × (n < 9223372036854775807)) }
{
    let number: i64 = match row.get(0) {
        Ok(number) => number,
        Err(error) => return Err(fault_of(error)),
    };
    if number < 0 || number == i64::MAX {
        return Err(KeepFault::Failed);
    }
    Ok(number as u64)
}

/// The body at a place, which fails where there is none.
pub fn load<S: Alter>(conn: &mut Connection<S>, place: u32) -> Result<Vec<u8>, KeepFault>
    requires speaks { Speaks (state S.Store conn.old) }
    requires place { ForSome (kept (state S.Store conn.old)) (HasPlace place) }
    ensures stays { Stays (state S.Store conn.old) (state S.Store conn.new) }
    ensures body { IfOk result (λ body. IfSome (kept (state S.Store conn.new))
        (λ bodies. body_at place bodies ≡ Some body.items)) }
{
    let _settled = conn.is_autocommit();
    let row = match conn.query_row(SELECT, params![place]) {
        Ok(row) => row,
        Err(error) => return Err(fault_of(error)),
    };
    body_in(&row)
}

/// The bytes in the first column.
fn body_in(row: &Row) -> Result<Vec<u8>, KeepFault>
    ensures { IfOk result (λ body. column row.now 0 ≡ Blob body.items) }
{
    match row.get(0) {
        Ok(body) => Ok(body),
        Err(error) => Err(fault_of(error)),
    }
}

/// Adds a row at the place behind the last.
pub fn insert<S: Alter>(conn: &mut Connection<S>, place: u64, body: &[u8]) -> Result<(), KeepFault>
    requires speaks { Speaks (state S.Store conn.old) }
    requires next { IsTrue (state S.Store conn.old).is_open →
        place ≡ length (rows_of (state S.Store conn.old)) + 1 }
    requires small { place ≤ 9223372036854775807 }
    ensures ok { OnOk result
        (ToldAfter (kept (state S.Store conn.old)) (kept (state S.Store conn.new)) (BodyAppended body.now)) }
    ensures err { OnErr result
        (ToldAfter (kept (state S.Store conn.old)) (kept (state S.Store conn.new)) BodiesStay) }
    ensures speaks { Speaks (state S.Store conn.new) }
    ensures just { OnOk result (HasCleanDisk (state S.Store conn.new) → ForSome (kept (state S.Store conn.old))
        (λ bodies. LeavesJust (state S.Store conn.new) (bodies ++ body.now ∷ []))) }
    ensures was_clean { HasCleanDisk (state S.Store conn.new) → HasCleanDisk (state S.Store conn.old) }
    ensures crash { HasCleanDisk (state S.Store conn.new) → ForSome (kept (state S.Store conn.old))
        (λ bodies. LeavesOr (state S.Store conn.old) (state S.Store conn.new) (bodies ++ body.now ∷ [])) }
{
    let _settled = conn.is_autocommit();
    let number = place as i64;
    match conn.execute(INSERT, params![number, body]) {
        Ok(_) => Ok(()),
        Err(error) => Err(fault_of(error)),
    }
}

/// Changes the body of the row at a place, and answers how many rows were changed.
pub fn update<S: Alter>(
    conn: &mut Connection<S>,
    place: u32,
    body: &[u8],
) -> Result<usize, KeepFault>
    requires speaks { Speaks (state S.Store conn.old) }
    requires place { ForSome (kept (state S.Store conn.old)) (HasPlace place) }
    ensures ok { OnOk result (ToldAfter (kept (state S.Store conn.old)) (kept (state S.Store conn.new))
        (BodyReplaced place body.now)) }
    ensures err { OnErr result
        (ToldAfter (kept (state S.Store conn.old)) (kept (state S.Store conn.new)) BodiesStay) }
    ensures speaks { Speaks (state S.Store conn.new) }
    ensures just { OnOk result (HasCleanDisk (state S.Store conn.new) → ForSome (kept (state S.Store conn.old))
        (λ bodies. LeavesJust (state S.Store conn.new) (slice_set bodies (place - 1) body.now))) }
    ensures crash { HasCleanDisk (state S.Store conn.new) → ForSome (kept (state S.Store conn.old))
        (λ bodies. LeavesOr (state S.Store conn.old) (state S.Store conn.new)
        (slice_set bodies (place - 1) body.now)) }
{
    let _settled = conn.is_autocommit();
    match conn.execute(UPDATE, params![place, body]) {
        Ok(changed) => Ok(changed),
        Err(error) => Err(fault_of(error)),
    }
}

/// Whether a failure of the disk has shut the connection.
pub fn is_shut<S: Alter>(conn: &mut Connection<S>) -> bool
    ensures told { ToldAfter (kept (state S.Store conn.old)) (kept (state S.Store conn.new)) BodiesStay }
    ensures shut { IsTrue result → kept (state S.Store conn.new) ≡ None }
    ensures speaks { Speaks (state S.Store conn.old) → Speaks (state S.Store conn.new) }
{
    if !conn.is_autocommit() {
        return false;
    }
    let answer = conn.prepare(COUNT);
    is_closed(&answer)
}

fn is_closed<T>(answer: &Result<T, Error>) -> bool
    ensures { IsTrue result → answer.now ≡ Err (Error.SqliteFailure ErrorCode.Closed) }
{
    matches!(answer, Err(Error::SqliteFailure(ErrorCode::Closed)))
}

/// Makes the table in a database of nothing.
pub fn create<S: Alter>(conn: &mut Connection<S>) -> Result<(), KeepFault>
    requires settled { IsTrue (state S.Store conn.old).is_open → IsSettled (state S.Store conn.old) }
    requires blank { is_blank (state S.Store conn.old).now.schema ≡ true }
    ensures told { ToldAfter (kept (state S.Store conn.old)) (kept (state S.Store conn.new)) BodiesStay }
    ensures settled { IsTrue (state S.Store conn.new).is_open → IsSettled (state S.Store conn.new) }
    ensures speaks { Speaks (state S.Store conn.old) → Speaks (state S.Store conn.new) }
{
    match conn.execute(CREATE, &[]) {
        Ok(_) => Ok(()),
        Err(error) => Err(fault_of(error)),
    }
}
