//! The body of the reply to a batch.

ghost use Rattle.std.specs.Prelude.{◌≡◌, ◌≤◌, ◌++◌, IfOk, OnOk, length};
ghost use Rattle.fare_json.specs.BatchData.{batch_begin, batch_end};
ghost use Rattle.fare_desk.specs.Batching.{AreItemsOf, IsMadeOf, batch_body, item_body, item_text};

use crate::batcher::MOST_ITEMS;
use fare_http::{Form, Reply};
use fare_json::{push_batch_begin, push_batch_end, push_batch_item};
use fare_ports::NoMemory;
use fare_text::push_labelled;
use std::alloc::Global;

/// The body that is made of the replies to all items. Where one isn't there, memory was wanting.
#[tactic(auto, using(crate::proofs::ItemLemmas::made_plain))]
pub(crate) fn batch_body(
    alloc: Global,
    form: Form,
    replies: &[Option<Reply>],
) -> Result<Vec<u8>, NoMemory>
    requires { length replies.now ≤ MOST_ITEMS }
    ensures { IfOk result (λ text. IsMadeOf (batch_body form) replies.now text.items) }
{
    let items = items_body(alloc, form, replies)?;
    match form {
        Form::Text => Ok(items),
        Form::Json => enclosed(alloc, items.as_slice()),
    }
}

/// What stands round the items of a batch in JSON, with them.
fn enclosed(alloc: Global, items: &[u8]) -> Result<Vec<u8>, NoMemory>
    ensures { IfOk result (λ text. text.items ≡ batch_begin ++ items.now ++ batch_end) }
{
    let mut text = Vec::new(alloc);
    push_batch_begin(&mut text)?;
    text.extend_from_slice(items)?;
    push_batch_end(&mut text)?;
    Ok(text)
}

/// The items, numbered from 1 on.
fn items_body(alloc: Global, form: Form, replies: &[Option<Reply>]) -> Result<Vec<u8>, NoMemory>
    requires { length replies.now ≤ MOST_ITEMS }
    ensures { IfOk result (λ text. AreItemsOf form 1 replies.now text.items) }
{
    let mut text = Vec::new(alloc);
    let mut number = 1;
    for reply in replies {
        let Some(reply) = reply else {
            return Err(NoMemory);
        };
        push_item(&mut text, form, number, reply)?;
        number += 1;
    }
    Ok(text)
}

/// Appends an item in a form. After want of memory a part of it may stand there.
fn push_item(text: &mut Vec<u8>, form: Form, number: u32, reply: &Reply) -> Result<(), NoMemory>
    ensures { OnOk result (text.new.items ≡ text.old.items ++ item_body form number reply.now) }
{
    match form {
        Form::Text => push_item_text(text, number, reply),
        Form::Json => {
            push_batch_item(text, number, reply.body.as_slice(), reply.status.number())
        }
    }
}

/// Appends an item of a plain batch.
fn push_item_text(text: &mut Vec<u8>, number: u32, reply: &Reply) -> Result<(), NoMemory>
    ensures { OnOk result (text.new.items ≡ text.old.items ++ item_text number reply.now) }
{
    push_labelled(text, b"ITEM ", number)?;
    push_labelled(text, b" ", u32::from(reply.status.number()))?;
    text.push(b'\n')?;
    Ok(text.extend_from_slice(reply.body.as_slice())?)
}
