//! What a keeper does to the table.

ghost use Rattle.std.specs.Prelude.{◌≡◌, ℕ, ◌+◌, ◌-◌, ◌<◌, ◌≤◌, ◌++◌, ◌∷◌, [], length, slice_set, Some, IfOk, IfSome};
ghost use Rattle.std.specs.Prelude.{IsTrue, OnOk, OnErr, IsErrOf};
ghost use Rattle.std.specs.Option.{ForSome};
ghost use Rattle.sqlite.specs.Held.{state};
ghost use Rattle.sqlite.specs.State.{HasCleanDisk};
ghost use Rattle.fare_sqlite.specs.Bodies.{rows_at};
ghost use Rattle.fare_ports.specs.Keeper.{BodiesStay, BodyAppended, BodyReplaced, HasPlace, MayAppend, MayReplace};
ghost use Rattle.fare_ports.specs.Keeper.{ToldAfter, body_at};
ghost use Rattle.fare_sqlite.specs.Kept.{HasTable, IsSettled, LeavesJust, LeavesOr, Speaks, Stays, kept, rows_of};

use crate::form::{holds_editions_alone, is_blank};
use crate::statements;
use fare_ports::KeepFault;
use sqlite::{Alter, Connection};

/// Makes the table where the database is blank, and else asks that it is there, with just one row, and in
/// it a blob, at each place from 1 to their number. A database that holds anything else fails, and is left
/// as it was.
pub fn adopt<S: Alter>(conn: &mut Connection<S>) -> Result<(), KeepFault>
    ensures told { ToldAfter (kept (state S.Store conn.old)) (kept (state S.Store conn.new)) BodiesStay }
    ensures speaks { OnOk result (Speaks (state S.Store conn.new)) }
    ensures still { Speaks (state S.Store conn.old) → Speaks (state S.Store conn.new) }
{
    if !conn.is_autocommit() {
        return Err(KeepFault::Failed);
    }
    create_if_blank(conn)?;
    if !holds_editions_alone(conn.schema()) {
        return Err(KeepFault::Failed);
    }
    check_places(conn)
}

/// Makes the table where there is nothing yet.
fn create_if_blank<S: Alter>(conn: &mut Connection<S>) -> Result<(), KeepFault>
    requires { IsTrue (state S.Store conn.old).is_open → IsSettled (state S.Store conn.old) }
    ensures told { ToldAfter (kept (state S.Store conn.old)) (kept (state S.Store conn.new)) BodiesStay }
    ensures settled { IsTrue (state S.Store conn.new).is_open → IsSettled (state S.Store conn.new) }
    ensures speaks { Speaks (state S.Store conn.old) → Speaks (state S.Store conn.new) }
{
    if is_blank(conn.schema()) {
        statements::create(conn)
    } else {
        Ok(())
    }
}

/// Asks that just one row, and in it a blob, stands at each place from 1 to the number of rows.
fn check_places<S: Alter>(conn: &mut Connection<S>) -> Result<(), KeepFault>
    requires { IsTrue (state S.Store conn.old).is_open → HasTable (state S.Store conn.old) }
    ensures stays { Stays (state S.Store conn.old) (state S.Store conn.new) }
    ensures speaks { OnOk result (Speaks (state S.Store conn.new)) }
{
    let count = statements::count_rows(conn)?;
    let others = statements::count_others(conn)?;
    if others != 0 {
        return Err(KeepFault::Failed);
    }
    check_each(conn, count)
}

/// Asks that just one row stands at each place from 1 to this number.
fn check_each<S: Alter>(conn: &mut Connection<S>, count: u64) -> Result<(), KeepFault>
    requires table { IsTrue (state S.Store conn.old).is_open → HasTable (state S.Store conn.old) }
    requires small { count < 9223372036854775807 }
    ensures stays { Stays (state S.Store conn.old) (state S.Store conn.new) }
    ensures each { OnOk result (IsTrue (state S.Store conn.new).is_open → (k : ℕ) → k < count →
        length (rows_at (k + 1) (rows_of (state S.Store conn.new))) ≡ 1) }
{
    for index in 0..count {
        if statements::count_at(conn, index + 1)? != 1 {
            return Err(KeepFault::Failed);
        }
    }
    Ok(())
}

/// How many bodies there are.
pub fn count<S: Alter>(conn: &mut Connection<S>) -> Result<u64, KeepFault>
    requires { Speaks (state S.Store conn.old) }
    ensures count { IfOk result (λ n. IfSome (kept (state S.Store conn.new)) (λ bodies. n ≡ length bodies)) }
    ensures told { ToldAfter (kept (state S.Store conn.old)) (kept (state S.Store conn.new)) BodiesStay }
    ensures speaks { Speaks (state S.Store conn.new) }
{
    statements::count_rows(conn)
}

/// The body at that place, which fails where there is none.
pub fn load<S: Alter>(conn: &mut Connection<S>, place: u32) -> Result<Vec<u8>, KeepFault>
    requires speaks { Speaks (state S.Store conn.old) }
    requires place { ForSome (kept (state S.Store conn.old)) (HasPlace place) }
    ensures body { IfOk result (λ body. IfSome (kept (state S.Store conn.new))
        (λ bodies. body_at place bodies ≡ Some body.items)) }
    ensures told { ToldAfter (kept (state S.Store conn.old)) (kept (state S.Store conn.new)) BodiesStay }
    ensures speaks { Speaks (state S.Store conn.new) }
{
    statements::load(conn, place)
}

/// Adds a body at the place behind the last.
pub fn append<S: Alter>(conn: &mut Connection<S>, body: &[u8]) -> Result<(), KeepFault>
    requires { Speaks (state S.Store conn.old) }
    ensures ok { OnOk result
        (ToldAfter (kept (state S.Store conn.old)) (kept (state S.Store conn.new)) (BodyAppended body.now)) }
    ensures err { OnErr result
        (ToldAfter (kept (state S.Store conn.old)) (kept (state S.Store conn.new)) BodiesStay) }
    ensures may { OnErr result
        (ToldAfter (kept (state S.Store conn.old)) (kept (state S.Store conn.new)) (MayAppend body.now)) }
    ensures speaks { Speaks (state S.Store conn.new) }
    ensures just { OnOk result (HasCleanDisk (state S.Store conn.new) → ForSome (kept (state S.Store conn.old))
        (λ bodies. LeavesJust (state S.Store conn.new) (bodies ++ body.now ∷ []))) }
    ensures crash { HasCleanDisk (state S.Store conn.new) → ForSome (kept (state S.Store conn.old))
        (λ bodies. LeavesOr (state S.Store conn.old) (state S.Store conn.new) (bodies ++ body.now ∷ [])) }
{
    let count = statements::count_rows(conn)?;
    statements::insert(conn, count + 1, body)
}

/// Puts another body at that place, which fails where there is none.
pub fn replace<S: Alter>(conn: &mut Connection<S>, place: u32, body: &[u8]) -> Result<(), KeepFault>
    requires speaks { Speaks (state S.Store conn.old) }
    requires place { ForSome (kept (state S.Store conn.old)) (HasPlace place) }
    ensures ok { OnOk result (ToldAfter (kept (state S.Store conn.old)) (kept (state S.Store conn.new))
        (BodyReplaced place body.now)) }
    ensures err { OnErr result (ToldAfter (kept (state S.Store conn.old)) (kept (state S.Store conn.new))
        (MayReplace place body.now)) }
    ensures memory { IsErrOf result KeepFault.Memory →
        ToldAfter (kept (state S.Store conn.old)) (kept (state S.Store conn.new)) BodiesStay }
    ensures speaks { Speaks (state S.Store conn.new) }
    ensures just { OnOk result (HasCleanDisk (state S.Store conn.new) → ForSome (kept (state S.Store conn.old))
        (λ bodies. LeavesJust (state S.Store conn.new) (slice_set bodies (place - 1) body.now))) }
    ensures crash { HasCleanDisk (state S.Store conn.new) → ForSome (kept (state S.Store conn.old))
        (λ bodies. LeavesOr (state S.Store conn.old) (state S.Store conn.new)
        (slice_set bodies (place - 1) body.now)) }
{
    match statements::update(conn, place, body) {
        Ok(1) => Ok(()),
        Ok(_) => Err(KeepFault::Failed),
        Err(fault) => Err(fault),
    }
}
