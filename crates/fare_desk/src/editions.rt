//! The replies that show the editions of a book.

ghost use Rattle.std.specs.Prelude.{◌≡◌, IfOk};
ghost use Rattle.fare_book.specs.Book.{numbered};
ghost use Rattle.fare_desk.specs.Viewing.{edition_number, edition_reply, found_reply, list_body, list_reply};
ghost use Rattle.fare_desk.specs.Viewing.{no_such_edition, number_text};

use crate::replies::{body_reply, line_reply, no_route_reply};
use fare_answers::list_text;
use fare_book::Book;
use fare_codes::{LAST_EDITION, read_number};
use fare_csv::edition_text;
use fare_http::{Form, Reply, Status};
use fare_json::list_json;
use fare_ports::NoMemory;
use fare_text::{push_short_number, short_text};
use std::alloc::Global;

/// What stands in a path before the number of an edition.
const BEFORE_NUMBER: &str = "/editions/";

/// The reply that lists the editions.
pub(crate) fn list_reply(alloc: Global, form: Form, book: &Book) -> Result<Reply, NoMemory>
    ensures { IfOk result (λ reply. reply ≡ list_reply form book.now.editions) }
{
    let body = list_body(alloc, form, book)?;
    Ok(body_reply(form, Status::Okay, body))
}

/// The list of the editions: its text, or the JSON answer.
fn list_body(alloc: Global, form: Form, book: &Book) -> Result<Vec<u8>, NoMemory>
    ensures { IfOk result (λ body. body.items ≡ list_body form book.now.editions) }
{
    match form {
        Form::Text => list_text(alloc, book),
        Form::Json => list_json(alloc, book),
    }
}

/// The reply that shows the edition whose number a path names.
pub(crate) fn edition_reply(alloc: Global, book: &Book, path: &str) -> Result<Reply, NoMemory>
    ensures { IfOk result
        (λ reply. reply ≡ edition_reply book.now.editions (edition_number (number_text path.now))) }
{
    match edition_number(number_text(path)) {
        Some(number) => numbered_reply(alloc, book, number),
        None => no_route_reply(alloc, Form::Text),
    }
}

/// What stands in a path behind `/editions/`.
pub fn number_text(path: &str) -> &[u8]
    ensures { result.now ≡ number_text path.now }
{
    let bytes = path.as_bytes();
    &bytes[BEFORE_NUMBER.len().min(bytes.len())..]
}

/// The number of an edition that a text writes, 1 to `LAST_EDITION` without a zero in front, if it writes one.
#[tactic(auto, unfolding(fare_csv::specs::Numbers::above_zero))]
pub fn edition_number(text: &[u8]) -> Option<u32>
    ensures { result ≡ edition_number text.now }
{
    match read_number(text, LAST_EDITION) {
        Some(0) => None,
        number => number,
    }
}

/// The reply that shows the edition of a number.
fn numbered_reply(alloc: Global, book: &Book, number: u32) -> Result<Reply, NoMemory>
    ensures { IfOk result (λ reply. reply ≡ found_reply number (numbered number book.now.editions)) }
{
    match book.find(number) {
        Some(edition) => {
            let text = edition_text(alloc, edition)?;
            Ok(body_reply(Form::Text, Status::Okay, text))
        }
        None => no_such_edition_reply(alloc, number),
    }
}

/// The reply to the number of an edition that isn't in the book.
pub fn no_such_edition_reply(alloc: Global, number: u32) -> Result<Reply, NoMemory>
    ensures { IfOk result (λ reply. reply ≡ no_such_edition number) }
{
    let mut words = short_text("NO SUCH EDITION ");
    push_short_number(&mut words, number);
    line_reply(alloc, Status::NotFound, words.as_str().as_bytes())
}
