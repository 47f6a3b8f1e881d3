//! The replies that speak of tariffs: every fault of a text, and what changed between two editions.

ghost use Rattle.std.specs.Prelude.{◌≡◌, IfOk};
ghost use Rattle.fare_book.specs.Book.{numbered};
ghost use Rattle.fare_counter.specs.CheckReply.{check_reply, status_for};
ghost use Rattle.fare_counter.specs.DiffReply.{before_slash, behind_slash, diff_reply, found_diff};

use fare_book::Book;
use fare_changes::diff_text;
use fare_check::check_text;
use fare_csv::TextFault;
use fare_desk::{body_reply, edition_number, no_route_reply, no_such_edition_reply};
use fare_http::{Form, Reply, Status};
use fare_ports::NoMemory;
use std::alloc::Global;
use std::thread::Threads;

/// The reply to a tariff text: every fault of it, or what it stands for.
pub(crate) fn check_reply<R: Threads + Sync>(
    rt: &R,
    alloc: Global,
    body: &[u8],
) -> Result<Reply, NoMemory>
    ensures { IfOk result (λ reply. reply ≡ check_reply body.now) }
{
    let checked = check_text(rt, alloc, body)?;
    let status = status_for(&checked.fault);
    Ok(body_reply(Form::Text, status, checked.text))
}

/// The status of a text that has this first fault, if any.
fn status_for(fault: &Option<TextFault>) -> Status
    ensures { result ≡ status_for fault.now }
{
    match fault {
        None => Status::Okay,
        Some(_) => Status::BadRequest,
    }
}

/// The reply that tells what changed between the two editions whose numbers a path names.
pub(crate) fn diff_reply(alloc: Global, book: &Book, path: &str) -> Result<Reply, NoMemory>
    ensures { IfOk result (λ reply. reply ≡ diff_reply book.now.editions path.now) }
{
    let numbers = behind_slash(behind_slash(path));
    let from = before_slash(numbers);
    let to = behind_slash(behind_slash(numbers));
    match (
        edition_number(from.as_bytes()),
        edition_number(to.as_bytes()),
    ) {
        (Some(from), Some(to)) => numbers_reply(alloc, book, from, to),
        _ => no_route_reply(alloc, Form::Text),
    }
}

/// What stands in a text before its first slash.
fn before_slash(text: &str) -> &str
    ensures { result.now ≡ before_slash text.now }
{
    match text.split_once('/') {
        Some((before, _)) => before,
        None => text,
    }
}

/// What stands in a text behind its first slash.
#[tactic(auto, using(std::proofs::lemmas::List::drop_all))]
fn behind_slash(text: &str) -> &str
    ensures { result.now ≡ behind_slash text.now }
{
    match text.split_once('/') {
        Some((_, behind)) => behind,
        None => "",
    }
}

/// The reply that tells what changed between the editions of two numbers.
fn numbers_reply(alloc: Global, book: &Book, from: u32, to: u32) -> Result<Reply, NoMemory>
    ensures { IfOk result (λ reply. reply ≡
        found_diff from (numbered from book.now.editions) to (numbered to book.now.editions)) }
{
    let Some(old) = book.find(from) else {
        return no_such_edition_reply(alloc, from);
    };
    let Some(new) = book.find(to) else {
        return no_such_edition_reply(alloc, to);
    };
    let text = diff_text(alloc, old, new)?;
    Ok(body_reply(Form::Text, Status::Okay, text))
}
