//! Whether a database holds the table of editions alone, or nothing yet.

ghost use Rattle.std.specs.Prelude.{◌≡◌};
ghost use Rattle.fare_sqlite.specs.Ours as ours;

use sqlite_items::Items;
use sqlite_schema::code::Terms;
use sqlite_schema::schema::{Column, Kind, Schema, Table};
use sqlite_value::keys::Collation;
use sqlite_value::value::Value;

/// Whether nothing stands in the database yet.
#[tactic(auto, unfolding(crate::specs::Ours::is_blank))]
pub fn is_blank(schema: &Schema) -> bool
    ensures { result ≡ ours.is_blank schema.now }
{
    is_empty(&schema.tables) && is_empty(&schema.indexes) && is_empty(&schema.views)
}

/// Whether the table of editions stands in the database, in the form in which `create` makes it, and
/// nothing else does.
#[tactic(auto, unfolding(crate::specs::Ours::is_ours))]
pub fn holds_editions_alone(schema: &Schema) -> bool
    ensures { result ≡ ours.is_ours schema.now }
{
    is_sole_table(schema.tables.as_slice()) && is_empty(&schema.indexes) && is_empty(&schema.views)
}

fn is_empty<T>(items: &Items<T>) -> bool
    ensures { result ≡ ours.is_empty items.now }
{
    match items.as_slice() {
        [] => true,
        [_, ..] => false,
    }
}

fn is_sole_table(tables: &[Table]) -> bool
    ensures { result ≡ ours.is_sole_table tables.now }
{
    match tables {
        [table] => is_edition_table(table),
        _ => false,
    }
}

fn is_edition_table(table: &Table) -> bool
    ensures { result ≡ ours.is_edition_table table.now }
{
    table.name.as_slice() == b"edition".as_slice()
        && table.tree == 0
        && are_columns(table.columns.as_slice())
        && is_first_key(table.key)
        && table.primary.as_slice() == [0].as_slice()
        && has_no_rules(table)
}

fn are_columns(columns: &[Column]) -> bool
    ensures { result ≡ ours.are_columns columns.now }
{
    match columns {
        [place, body] => is_place(place) && is_body(body),
        _ => false,
    }
}

fn is_first_key(key: Option<usize>) -> bool
    ensures { result ≡ ours.is_first_key key }
{
    match key {
        Some(at) => at == 0,
        None => false,
    }
}

fn is_place(column: &Column) -> bool
    ensures { result ≡ ours.is_place column.now }
{
    column.name.as_slice() == b"place".as_slice()
        && matches!(column.kind, Kind::Integer)
        && !column.is_strict
        && !column.not_null
        && matches!(column.default, Value::Null)
        && matches!(column.collation, Collation::Binary)
}

fn is_body(column: &Column) -> bool
    ensures { result ≡ ours.is_body column.now }
{
    // A column of type BLOB has no affinity, so what is put there stays as it is.
    column.name.as_slice() == b"body".as_slice()
        && matches!(column.kind, Kind::Any)
        && !column.is_strict
        && column.not_null
        && matches!(column.default, Value::Null)
        && matches!(column.collation, Collation::Binary)
}

fn has_no_rules(table: &Table) -> bool
    ensures { result ≡ ours.has_no_rules table.now }
{
    is_empty(&table.uniques)
        && is_empty(&table.orders)
        && has_no_term(&table.checks)
        && is_empty(&table.references)
        && is_empty(&table.computed)
        && is_empty(&table.stamps.places)
        && has_no_term(&table.stamps.terms)
        && is_empty(&table.stamps.formats)
        && !table.is_counted
}

fn has_no_term(terms: &Terms) -> bool
    ensures { result ≡ ours.is_empty terms.now }
{
    is_empty(&terms.roots)
}
