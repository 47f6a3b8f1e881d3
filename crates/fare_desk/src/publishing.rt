//! The reply to a publication.

ghost use Rattle.std.specs.Prelude.{◌≡◌, ◌≤◌, ◌+◌, ◌++◌, [], length, codes, decimal, vec_capacity};
ghost use Rattle.std.specs.Result.{result_ok};
ghost use Rattle.arrayvec.specs.ArrayString.{array_string_len};
ghost use Rattle.fare_book.specs.DamageText.{damage_text};
ghost use Rattle.fare_desk.specs.Publishing.{publication_reply};
ghost use Rattle.fare_desk.specs.Replies.{line, says};

use crate::replies::body_reply;
use arrayvec::ArrayString;
use fare_book::{Damage, PublishFault, Published};
use fare_codes::number_text;
use fare_http::{Form, Reply, Status};
use fare_ports::NoMemory;
use fare_text::{push_short_number, short_text};

/// The most bytes of a reply to a publication.
pub(crate) const MOST_WORDS: usize = 128;

/// The reply to a publication, in room that was taken before it.
pub(crate) fn publication_reply(
    room: Vec<u8>,
    answer: Result<Published, PublishFault>,
) -> Result<Reply, NoMemory>
    requires empty { room.items ≡ [] }
    requires room { MOST_WORDS ≤ vec_capacity room }
    ensures { result_ok result ≡ publication_reply answer }
{
    match answer {
        Ok(Published::New(number)) => {
            Ok(said(room, Status::Created, &numbered("PUBLISHED ", number)))
        }
        Ok(Published::Already(number)) => {
            Ok(said(room, Status::Okay, &numbered("ALREADY ", number)))
        }
        Err(PublishFault::Malformed(fault)) => Ok(said(room, Status::BadRequest, &fault.text())),
        Err(PublishFault::Differs(number)) => {
            Ok(said(room, Status::Conflict, &numbered("DIFFERS ", number)))
        }
        Err(PublishFault::Full) => Ok(said(room, Status::Conflict, &short_text("BOOK FULL"))),
        Err(PublishFault::KeeperFault) => Ok(said(
            room,
            Status::ServiceUnavailable,
            &short_text("KEEPER FAULT"),
        )),
        Err(PublishFault::Damaged(place, damage)) => Ok(damaged(room, place, &damage)),
        Err(PublishFault::Memory) => Err(NoMemory),
    }
}

/// Words and a number behind them.
fn numbered(words: &str, number: u32) -> ArrayString<64>
    requires { length words.now ≤ 32 }
    ensures { result.bytes ≡ words.now ++ decimal number }
{
    let mut text = short_text(words);
    push_short_number(&mut text, number);
    text
}

/// A reply of one line, in this room.
fn said(mut room: Vec<u8>, status: Status, words: &ArrayString<64>) -> Reply
    requires empty { room.items ≡ [] }
    requires room { MOST_WORDS ≤ vec_capacity room }
    ensures { result ≡ says Form.Text status (line words.now.bytes) }
{
    room.extend_from_slice(words.as_str().as_bytes()).unwrap();
    room.push(b'\n').unwrap();
    body_reply(Form::Text, status, room)
}

/// The reply that tells the first damage of the stored bodies, in this room.
fn damaged(mut room: Vec<u8>, place: u32, damage: &Damage) -> Reply
    requires empty { room.items ≡ [] }
    requires room { MOST_WORDS ≤ vec_capacity room }
    ensures { result ≡ says Form.Text Status.InternalServerError
        (line (codes "DAMAGED " ++ decimal place ++ codes " " ++ damage_text damage.now)) }
{
    room.extend_from_slice(b"DAMAGED ").unwrap();
    room.extend_from_slice(number_text(place).as_str().as_bytes())
        .unwrap();
    room.push(b' ').unwrap();
    room.extend_from_slice(damage.text().as_str().as_bytes())
        .unwrap();
    room.push(b'\n').unwrap();
    body_reply(Form::Text, Status::InternalServerError, room)
}
