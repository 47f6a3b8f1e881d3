ghost use Rattle.std.specs.Prelude.{◌≡◌, [], None, Some, Ok, false, length, min, take, drop, IfNone, IfSome, IsTrue};
ghost use Rattle.std.specs.Prelude.{MatchOption};
ghost use Rattle.std.specs.Io.{ReadsAtMost};
ghost use Rattle.std.specs.Io.KnownBytes.{ReadConsumes};
ghost use Rattle.fare_outside.specs.Room.{fitting, is_refused, after_put};
ghost use Rattle.fare_ports.specs.Door.{with_more_at};
ghost use Rattle.fare_outside.specs.ListedDoor.{empty_room, room_at, left_at, taken_into, at_place, with_at};

use crate::plain_source::PlainSource;
use crate::room::Room;
use fare_ports::{Failed, Source};

/// Reads from the source at a place: nothing, where there is none.
pub fn read_at(
    sources: &mut [PlainSource],
    place: Option<usize>,
    buf: &mut [u8],
) -> Result<usize, Failed>
    ensures within { ReadsAtMost result buf.new }
    ensures bytes { ReadConsumes (at_place place sources.old) (at_place place sources.new) result buf.new }
    ensures answer { result ≡ Ok (min (length buf.old) (length (left_at place sources.old))) }
    ensures rest { sources.new ≡ with_at place (drop (length buf.old) (left_at place sources.old)) sources.old }
{
    match place {
        Some(place) if place < sources.len() => sources[place].read(buf),
        Some(_) | None => Ok(0),
    }
}

/// Puts what fits of these bytes into the room at a place; where there is none, there is no room.
pub fn put_at(rooms: &mut [Room], place: Option<usize>, bytes: &[u8]) -> Option<usize>
    ensures answer { MatchOption result (IsTrue (is_refused (room_at place rooms.old) bytes.now))
        (λ count. (count ≡ fitting (room_at place rooms.old) bytes.now)
        × (is_refused (room_at place rooms.old) bytes.now ≡ false)) }
    ensures rooms { rooms.new ≡ with_at place (after_put (room_at place rooms.old) bytes.now) rooms.old }
    ensures kept { IfNone result (rooms.new ≡ rooms.old) }
    ensures taken { IfSome result (λ count. taken_into rooms.new
        ≡ with_more_at place (take count bytes.now) (taken_into rooms.old)) }
{
    match place {
        Some(place) if place < rooms.len() => rooms[place].put(bytes),
        Some(_) | None => without_room(bytes),
    }
}

/// As much as is taken where there is no room: an empty write.
fn without_room(bytes: &[u8]) -> Option<usize>
    ensures { MatchOption result (IsTrue (is_refused (empty_room 0) bytes.now))
        (λ count. (count ≡ 0) × (bytes.now ≡ []) × (is_refused (empty_room 0) bytes.now ≡ false)) }
{
    if bytes.is_empty() { Some(0) } else { None }
}
