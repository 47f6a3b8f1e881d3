ghost use Rattle.std.specs.Prelude.{◌≡◌, ◌+◌, ◌<◌, ◌≤◌, length, vec_len, IfOk, IfSome, OnOk, IsErrOf};
ghost use Rattle.std.specs.Io.KnownBytes.{Consumes, IsAtEnd};
ghost use Rattle.fare_ports.specs.declared.reading.ReadEnd.TheVariants.{Memory, ReadFault};
ghost use Rattle.fare_ports.specs.Cause.{Rose};
ghost use Rattle.fare_ports.specs.Source.{TakesUpTo, TakesJust};

use crate::failed::Failed;
use crate::source::Source;
use std::alloc::{AllocError, Global};

/// Why a source wasn't read whole.
#[derive(Clone, Copy, Debug, PartialEq, Eq)]
pub enum ReadEnd {
    /// Memory was wanting.
    Memory,
    /// A read failed, and the source's count rose.
    ReadFault,
    /// The source held more bytes than were allowed.
    TooLong,
}

impl From<AllocError> for ReadEnd {
    ghost from_gives = { λ _ e. e ≡ Memory };

    fn from(_: AllocError) -> Self {
        ReadEnd::Memory
    }
}

impl From<Failed> for ReadEnd {
    ghost from_gives = { λ _ e. e ≡ ReadFault };

    fn from(_: Failed) -> Self {
        ReadEnd::ReadFault
    }
}

/// The most bytes that one read asks for.
const PIECE: usize = 16_384;

/// All that the source still holds, if that is at most `max` bytes.
///
/// It takes at most `max + 1` bytes; `TooLong` comes where it took just so many.
pub fn read_all<S: Source>(alloc: Global, src: &mut S, max: usize) -> Result<Vec<u8>, ReadEnd>
    ensures whole { IfOk result (λ bytes. Consumes (S.left src.old) (S.left src.new) bytes.items) }
    ensures at_end { OnOk result (IsAtEnd (S.left src.new)) }
    ensures all { IfOk result (λ bytes. IfSome (S.left src.old) (λ left. left ≡ bytes.items)) }
    ensures within { IfOk result (λ bytes. vec_len bytes ≤ max) }

    ensures too_long { IsErrOf result ReadEnd.TooLong →
        TakesJust (max + 1) (S.left src.old) (S.left src.new) }
    ensures held_more { IsErrOf result ReadEnd.TooLong →
        IfSome (S.left src.old) (λ left. max < length left) }

    ensures never_falls { S.faults src.old ≤ S.faults src.new }
    ensures cause { IsErrOf result ReadEnd.ReadFault →
        Rose (S.faults src.old) (S.faults src.new) }
    ensures fault_within { IsErrOf result ReadEnd.ReadFault →
        TakesUpTo max (S.left src.old) (S.left src.new) }

    // Whatever it answers, no more than that is gone from the source.
    ensures taken { TakesUpTo (max + 1) (S.left src.old) (S.left src.new) }
{
    let mut bytes = Vec::new(alloc);
    let mut buf = [0; PIECE];
    'pieces: while bytes.len() <= max {
        let most = piece_size(max - bytes.len());
        let count = src.read(&mut buf[..most])?;
        if count == 0 {
            return Ok(bytes);
        }
        bytes.extend_from_slice(&buf[..count])?;
    }
    Err(ReadEnd::TooLong)
}

// One byte more than the room shows that the source is too long.
fn piece_size(room: usize) -> usize
    ensures positive { 0 < result }
    ensures piece { result ≤ PIECE }
    ensures within { result ≤ room + 1 }
{
    if room < PIECE { room + 1 } else { PIECE }
}
