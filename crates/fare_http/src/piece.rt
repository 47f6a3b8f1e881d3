ghost use Rattle.std.specs.Prelude.{◌≡◌, ◌<◌, ◌≤◌, [], vec_len, OnOk, IsErrOf};
ghost use Rattle.std.specs.Io.KnownBytes.{Consumes, IsAtEnd};
ghost use Rattle.fare_ports.specs.Cause.{Rose};
ghost use Rattle.fare_http.specs.Heads.{Grows};
ghost use Rattle.fare_http.specs.declared.piece.NoPiece.TheVariants.{Memory, Failed as ReadFailed};

use fare_ports::{Door, Failed};
use std::alloc::AllocError;

/// The most bytes that one read asks for.
const PIECE: usize = 4096;

/// Why there are no further bytes of a connection.
#[derive(Clone, Copy, Debug, PartialEq, Eq)]
pub enum NoPiece {
    /// Memory was wanting.
    Memory,
    /// The connection ended.
    Ended,
    /// A read failed, and the door's count of cuts rose.
    Failed,
}

impl From<AllocError> for NoPiece {
    ghost from_gives = { λ _ e. e ≡ Memory };

    fn from(_: AllocError) -> Self {
        NoPiece::Memory
    }
}

impl From<Failed> for NoPiece {
    ghost from_gives = { λ _ e. e ≡ ReadFailed };

    fn from(_: Failed) -> Self {
        NoPiece::Failed
    }
}

/// Adds the next bytes of the current connection to those taken, so that they are at most `most`.
pub fn read_piece<D: Door>(door: &mut D, taken: &mut Vec<u8>, most: usize) -> Result<(), NoPiece>
    requires { vec_len taken.old < most }
    ensures grows { OnOk result
        (Grows (D.left door.old) (D.left door.new) taken.old.items taken.new.items) }
    ensures progress { OnOk result (vec_len taken.old < vec_len taken.new) }
    ensures most { OnOk result (vec_len taken.new ≤ most) }
    ensures ended { IsErrOf result NoPiece.Ended → IsAtEnd (D.left door.new) }
    ensures none { IsErrOf result NoPiece.Ended → Consumes (D.left door.old) (D.left door.new) [] }
    ensures cause { IsErrOf result NoPiece.Failed → Rose (D.cuts door.old) (D.cuts door.new) }
    ensures never_falls { D.cuts door.old ≤ D.cuts door.new }
    ensures sent { D.sent door.new ≡ D.sent door.old }
    ensures waiting { D.waiting door.new ≡ D.waiting door.old }
    ensures held { D.held door.new ≡ D.held door.old }
    ensures current { D.current door.new ≡ D.current door.old }
    ensures port { D.listens_at door.new ≡ D.listens_at door.old }
    ensures faults { D.faults door.new ≡ D.faults door.old }
{
    let mut piece = [0; PIECE];
    let asked = PIECE.min(most - taken.len());
    let count = door.read(&mut piece[..asked])?;
    if count == 0 {
        return Err(NoPiece::Ended);
    }
    taken.extend_from_slice(&piece[..count])?;
    Ok(())
}
