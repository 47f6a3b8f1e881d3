ghost use Rattle.std.specs.Prelude.{◌≡◌, ◌<◌, ◌≤◌, ◌||◌, [], ◌++◌, Some, None, Ok, false, length, min, take, slice_get};
ghost use Rattle.std.specs.Prelude.{is_err, is_some, nat_lt, if◌then◌else◌, option_to_list, option_copied};
ghost use Rattle.std.specs.Prelude.{replicate, drop};
ghost use Rattle.std.specs.Prelude.{IfOk, IsSome, OnErr, MatchBool, MatchResult, ◌↔◌};
ghost use Rattle.std.specs.Bool.{OnTrue, OnFalse};
ghost use Rattle.std.specs.Io.{ReadsAtMost, WritesAtMost};
ghost use Rattle.std.specs.Io.KnownBytes.{ReadConsumes};
ghost use Rattle.fare_ports.specs.Cause.{Rose};
ghost use Rattle.fare_outside.specs.Calls.{fails_next, after_call};
ghost use Rattle.fare_outside.specs.Room.{fitting, is_refused, after_put};
ghost use Rattle.fare_ports.specs.Door.{is_taken, TakesFirst, with_one_more, with_more_at, TakesHeld};
ghost use Rattle.fare_outside.specs.ListedDoor.{empty_room, left_at, current_left, current_room, taken_into};
ghost use Rattle.fare_outside.specs.ListedDoor.{with_at, counted_if};
ghost use Rattle.fare_outside.specs.ListedDoor.{FirstTaken, NoneTaken};

use crate::at_place::{put_at, read_at};
use crate::calls::Calls;
use crate::plain_source::PlainSource;
use crate::room::Room;
use arrayvec::ArrayVec;
use fare_ports::{Bodies, Door, Failed, MOST_HELD, NoMemory, raised};
use std::alloc::Global;
use std::collections::VecDeque;
use std::marker::Model;

/// A door in memory with a row of connections to come, each with a room of a fixed size for what is
/// sent on it. Its listed calls fail: `listen`, `next`, `read` and `write` are numbered together.
#[derive(Drop)]
pub struct MemDoor {
    waiting: VecDeque<PlainSource>,
    spare: VecDeque<Room>,
    room: usize,
    left: Vec<PlainSource>,
    sent: Vec<Room>,
    held: ArrayVec<usize, MOST_HELD>,
    current: Option<usize>,
    port: Option<u16>,
    calls: Calls,
    faults: u64,
    cuts: u64,
}

impl Model for MemDoor {
    ghost use Rattle.std.specs.Prelude.{◌≡◌, ◌+◌, ◌≤◌, length, replicate, vec_capacity};
    ghost use Rattle.fare_outside.specs.ListedDoor.{ListedDoor, empty_room};

    ghost Value = { ListedDoor };

    ghost view = { λ d. record {
      waiting = d.waiting.items;
      room = d.room;
      left = d.left.items;
      sent = d.sent.items;
      held = d.held.items;
      current = d.current;
      port = d.port;
      calls = d.calls;
      faults = d.faults;
      cuts = d.cuts;
    } };

    ghost invariant = { λ d.
        (d.spare.items ≡ replicate (length d.waiting.items) (empty_room d.room))
        × (length d.left.items ≡ length d.sent.items)
        × (length d.left.items + length d.waiting.items ≤ vec_capacity d.left)
        × (length d.sent.items + length d.waiting.items ≤ vec_capacity d.sent) };
}

impl MemDoor {
    /// A door to which these connections come, in order, and which takes `room` bytes of memory for
    /// each of them at once. The calls of these numbers fail, counted from 1; 4,294,967,295 stands
    /// for all from that one on.
    pub fn new(
        alloc: Global,
        waiting: Bodies,
        room: usize,
        fail: Vec<u32>,
    ) -> Result<MemDoor, NoMemory>
        ensures { IfOk result (λ door. door ≡ record {
          waiting = waiting;
          room = room;
          left = [];
          sent = [];
          held = [];
          current = None;
          port = None;
          calls = record { fail = fail.items; made = 0 };
          faults = 0;
          cuts = 0;
        }) }
    {
        let count = waiting.len();
        Ok(MemDoor {
            waiting: sources(alloc, waiting)?,
            spare: rooms(alloc, count, room)?,
            room,
            left: Vec::with_capacity(alloc, count)?,
            sent: Vec::with_capacity(alloc, count)?,
            held: ArrayVec::new(),
            current: None,
            port: None,
            calls: Calls::new(fail),
            faults: 0,
            cuts: 0,
        })
    }

    /// What was sent on the `i`-th connection taken, counted from 0: none exactly where `i` isn't
    /// below their number.
    pub fn sent_to(&self, i: usize) -> Option<&[u8]>
        ensures sent { option_copied result ≡ slice_get (taken_into self.now.sent) i }
        ensures there { IsSome result ↔ (i < length self.now.sent) }
    {
        if i < self.sent.len() {
            Some(self.sent[i].bytes())
        } else {
            None
        }
    }
}

impl MemDoor {
    /// Takes the first of the connections to come, and says whether there was one.
    fn take_first(&mut self) -> bool
        ensures taken { result ≡ nat_lt 0 (length self.old.waiting) }
        ensures connection { MatchBool result (FirstTaken self.old self.new) (NoneTaken self.old self.new) }
        ensures first { OnTrue result
            (TakesFirst (Some self.old.waiting) (Some self.new.waiting) (current_left self.new)) }
        ensures others { self.new ≡ record self.old {
          waiting = self.new.waiting;
          left = self.new.left;
          sent = self.new.sent;
          current = self.new.current;
        } }
    {
        self.current = None;
        let Some(source) = self.waiting.pop_front() else {
            return false;
        };
        let room = self.spare.pop_front().unwrap();
        self.current = Some(self.sent.len());
        self.left.push_reserved(source);
        self.sent.push_reserved(room);
        true
    }
}

impl Door for MemDoor {
    ghost waiting = { λ door. Some door.waiting };

    ghost left = { current_left };

    ghost sent = { λ door. Some (taken_into door.sent) };

    ghost held = { λ door. door.held };

    ghost current = { λ door. door.current };

    ghost listens_at = { λ door. door.port };

    ghost faults = { λ door. door.faults };

    ghost cuts = { λ door. door.cuts };

    fn listen(&mut self, port: u16) -> Result<(), Failed>
        ensures listed { is_err result ≡ fails_next self.old.calls }
        ensures made { self.new ≡ record self.old {
          port = (if is_err result then self.old.port else Some port);
          calls = after_call self.old.calls;
          faults = counted_if (is_err result) self.old.faults;
        } }
        ensures never_falls { self.old.faults ≤ self.new.faults }
        ensures cause { OnErr result (Rose self.old.faults self.new.faults) }
    {
        if self.calls.next() {
            self.faults = raised(self.faults);
            return Err(Failed);
        }
        self.port = Some(port);
        Ok(())
    }

    fn next(&mut self) -> Result<bool, Failed>
        ensures listed { is_err result ≡ fails_next self.old.calls }
        ensures answer { IfOk result (λ taken. taken ≡ nat_lt 0 (length self.old.waiting)) }
        ensures connection { MatchBool (is_taken result) (FirstTaken self.old self.new) (NoneTaken self.old self.new) }
        ensures made { self.new ≡ record self.old {
          waiting = self.new.waiting;
          left = self.new.left;
          sent = self.new.sent;
          current = self.new.current;
          calls = after_call self.old.calls;
          faults = counted_if (is_err result) self.old.faults;
        } }
        ensures waiting { MatchBool (is_taken result)
            (TakesFirst (Some self.old.waiting) (Some self.new.waiting) (current_left self.new))
            (self.new.waiting ≡ self.old.waiting) }
        ensures none_comes { IfOk result (λ taken. OnFalse taken (self.old.waiting ≡ [])) }
        ensures sent { Some (taken_into self.new.sent) ≡ (if is_taken result
            then with_one_more (Some (taken_into self.old.sent)) else Some (taken_into self.old.sent)) }
        ensures current { is_some self.new.current ≡ is_taken result }
        ensures place { OnTrue (is_taken result) (self.new.current ≡ Some (length (taken_into self.old.sent))) }
        ensures never_falls { self.old.faults ≤ self.new.faults }
        ensures cause { OnErr result (Rose self.old.faults self.new.faults) }
    {
        if self.calls.next() {
            self.current = None;
            self.faults = raised(self.faults);
            return Err(Failed);
        }
        Ok(self.take_first())
    }

    /// Where none is current, a read gives nothing.
    fn read(&mut self, buf: &mut [u8]) -> Result<usize, Failed>
        ensures within { ReadsAtMost result buf.new }
        ensures bytes { ReadConsumes (current_left self.old) (current_left self.new) result buf.new }
        ensures listed { is_err result ≡ fails_next self.old.calls }
        ensures answer { IfOk result (λ count.
            count ≡ min (length buf.old) (length (left_at self.old.current self.old.left))) }
        ensures made { self.new ≡ record self.old {
          left = (if is_err result then self.old.left else with_at self.old.current
              (drop (length buf.old) (left_at self.old.current self.old.left)) self.old.left);
          calls = after_call self.old.calls;
          cuts = counted_if (is_err result) self.old.cuts;
        } }
        ensures never_falls { self.old.cuts ≤ self.new.cuts }
        ensures cause { OnErr result (Rose self.old.cuts self.new.cuts) }
    {
        if self.calls.next() {
            self.cuts = raised(self.cuts);
            return Err(Failed);
        }
        read_at(&mut self.left, self.current, buf)
    }

    /// Where none is current, there is no room: a write that isn't empty is a counted failure.
    fn write(&mut self, buf: &[u8]) -> Result<usize, Failed>
        ensures within { WritesAtMost result buf.now }
        ensures progress { IfOk result (λ count. 0 < length buf.now → 0 < count) }
        ensures bytes { MatchResult result
            (λ count. taken_into self.new.sent ≡
            with_more_at self.old.current (take count buf.now) (taken_into self.old.sent))
            (λ _. taken_into self.new.sent ≡ taken_into self.old.sent) }
        ensures refused { is_err result ≡
            (fails_next self.old.calls || is_refused (current_room self.old) buf.now) }
        ensures answer { IfOk result (λ count. count ≡ fitting (current_room self.old) buf.now) }
        ensures made { self.new ≡ record self.old {
          sent = (if is_err result then self.old.sent else with_at self.old.current
              (after_put (current_room self.old) buf.now) self.old.sent);
          calls = after_call self.old.calls;
          cuts = counted_if (is_err result) self.old.cuts;
        } }
        ensures never_falls { self.old.cuts ≤ self.new.cuts }
        ensures cause { OnErr result (Rose self.old.cuts self.new.cuts) }
    {
        let is_listed = self.calls.next();
        if !is_listed {
            if let Some(count) = put_at(&mut self.sent, self.current, buf) {
                return Ok(count);
            }
        }
        self.cuts = raised(self.cuts);
        Err(Failed)
    }

    fn close(&mut self)
        ensures { self.new ≡ record self.old { current = None } }
    {
        self.current = None;
    }

    fn more(&mut self) -> bool
        ensures answer { result ≡ nat_lt 0 (length self.old.waiting) }
        ensures stays { self.new ≡ self.old }
    {
        !self.waiting.is_empty()
    }

    fn hold(&mut self) -> bool
        requires { IsSome self.old.current }
        ensures answer { result ≡ nat_lt (length self.old.held) MOST_HELD }
        ensures room { OnTrue result (length self.old.held < MOST_HELD) }
        ensures full { OnFalse result (length self.old.held ≡ MOST_HELD) }
        ensures made { self.new ≡ record self.old {
          held = (if result then self.old.held ++ option_to_list self.old.current else self.old.held);
          current = (if result then None else self.old.current);
        } }
    {
        if self.held.is_full() {
            return false;
        }
        if let Some(place) = self.current.take() {
            self.held.push(place);
        }
        true
    }

    fn resume(&mut self) -> bool
        ensures answer { result ≡ nat_lt 0 (length self.old.held) }
        ensures taken { OnTrue result (TakesHeld self.old.held self.new.held self.new.current) }
        ensures none { OnFalse result (self.old.held ≡ []) }
        ensures made { self.new ≡ record self.old {
          held = drop 1 self.old.held;
          current = (if result then slice_get self.old.held 0 else self.old.current);
        } }
    {
        match self.held.pop_at(0) {
            Some(place) => {
                self.current = Some(place);
                true
            }
            None => false,
        }
    }
}

/// A source of each of these, in order.
fn sources(alloc: Global, bodies: Bodies) -> Result<VecDeque<PlainSource>, NoMemory>
    ensures { IfOk result (λ sources. sources.items ≡ bodies) }
{
    let mut sources = VecDeque::new(alloc);
    for body in bodies.into_items() {
        sources.push_back(PlainSource::new(body.into_vec()))?;
    }
    Ok(sources)
}

/// So many empty rooms for `room` bytes each.
fn rooms(alloc: Global, count: usize, room: usize) -> Result<VecDeque<Room>, NoMemory>
    ensures { IfOk result (λ rooms. rooms.items ≡ replicate count (empty_room room)) }
{
    let mut rooms = VecDeque::new(alloc);
    for _ in 0..count {
        rooms.push_back(Room::new(alloc, room)?)?;
    }
    Ok(rooms)
}
