//! Replies in their forms, and the test of a method.

ghost use Rattle.std.specs.Prelude.{◌≡◌, ◌↔◌, IfOk, IsTrue};
ghost use Rattle.fare_sentences.specs.FaultWords.{method_name};
ghost use Rattle.fare_desk.specs.Replies.{allowed, fault_body, form_of, line, no_route, not_allowed, refused, says};

use fare_http::{Allow, Form, Reply, Status};
use fare_json::{Fault, OneMethod, fault_json, fault_text};
use fare_ports::{Bytes, NoMemory};
use http::Method;
use std::alloc::Global;

/// What stands at the front of each path whose replies are JSON.
const JSON_FRONT: &[u8] = b"/json/";

/// The form of the reply to a path: JSON where the path begins with `/json/`.
pub fn form_of(path: &str) -> Form
    ensures { result ≡ form_of path.now }
{
    if path.as_bytes().starts_with(JSON_FRONT) {
        Form::Json
    } else {
        Form::Text
    }
}

/// A reply in this form, which says no method.
pub fn body_reply(form: Form, status: Status, body: Vec<u8>) -> Reply
    ensures { result ≡ says form status body.items }
{
    Reply {
        status,
        form,
        allow: Allow::Unsaid,
        body: Bytes::from(body),
    }
}

/// A plain reply of one line.
pub fn line_reply(alloc: Global, status: Status, words: &[u8]) -> Result<Reply, NoMemory>
    ensures { IfOk result (λ reply. reply ≡ says Form.Text status (line words.now)) }
{
    let mut text = Vec::from_slice(alloc, words)?;
    text.push(b'\n')?;
    Ok(body_reply(Form::Text, status, text))
}

/// The reply that refuses a request for a fault.
pub fn refused_reply(
    alloc: Global,
    form: Form,
    status: Status,
    fault: &Fault,
) -> Result<Reply, NoMemory>
    ensures { IfOk result (λ reply. reply ≡ refused form status fault.now) }
{
    let body = fault_body(alloc, form, fault)?;
    Ok(body_reply(form, status, body))
}

/// A fault in a form: its line, or the JSON answer that has the line and a sentence.
fn fault_body(alloc: Global, form: Form, fault: &Fault) -> Result<Vec<u8>, NoMemory>
    ensures { IfOk result (λ body. body.items ≡ fault_body form fault.now) }
{
    match form {
        Form::Text => fault_line(alloc, fault),
        Form::Json => fault_json(alloc, fault),
    }
}

/// The line of a fault.
fn fault_line(alloc: Global, fault: &Fault) -> Result<Vec<u8>, NoMemory>
    ensures { IfOk result (λ body. body.items ≡ fault_body Form.Text fault.now) }
{
    let mut text = fault_text(alloc, fault)?;
    text.push(b'\n')?;
    Ok(text)
}

/// The reply to a path that has no route.
pub fn no_route_reply(alloc: Global, form: Form) -> Result<Reply, NoMemory>
    ensures { IfOk result (λ reply. reply ≡ no_route form) }
{
    refused_reply(alloc, form, Status::NotFound, &Fault::NoRoute)
}

/// The reply to a method that a route doesn't take, with the one that it is said to take.
pub fn method_reply(alloc: Global, form: Form, method: OneMethod) -> Result<Reply, NoMemory>
    ensures { IfOk result (λ reply. reply ≡ not_allowed form method) }
{
    let body = fault_body(alloc, form, &Fault::Method(method))?;
    Ok(Reply {
        status: Status::MethodNotAllowed,
        form,
        allow: allowed(method),
        body: Bytes::from(body),
    })
}

/// What a reply says that is allowed where a route is said to take one method.
fn allowed(method: OneMethod) -> Allow
    ensures { result ≡ allowed method }
{
    match method {
        OneMethod::Get => Allow::Get,
        OneMethod::Post => Allow::Post,
    }
}

/// Whether a request's method is this one.
pub fn is_method(method: &Method, wanted: OneMethod) -> bool
    ensures { IsTrue result ↔ (method.now ≡ method_name wanted) }
{
    match wanted {
        OneMethod::Get => method.as_str() == "GET",
        OneMethod::Post => method.as_str() == "POST",
    }
}
