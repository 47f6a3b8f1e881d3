ghost use Rattle.std.specs.Prelude.{◌≡◌, ◌<◌, ◌≤◌, ◌++◌, length, vec_len, IfOk, IsErrOf};
ghost use Rattle.std.specs.Io.KnownBytes.{IsAtEnd};
ghost use Rattle.fare_ports.specs.Cause.{Rose};
ghost use Rattle.fare_http.specs.Heads.{Grows, Takes};

use crate::piece::{NoPiece, read_piece};
use fare_ports::Door;

/// The whole body, of which the first bytes came behind the head. It takes no byte behind it.
pub fn read_body<D: Door>(
    door: &mut D,
    begun: Vec<u8>,
    announced: usize,
) -> Result<Vec<u8>, NoPiece>
    requires { vec_len begun ≤ announced }
    ensures whole { IfOk result
        (λ body. Grows (D.left door.old) (D.left door.new) begun.items body.items) }
    ensures announced { IfOk result (λ body. length body.items ≡ announced) }
    ensures ended { IsErrOf result NoPiece.Ended → IsAtEnd (D.left door.new) }
    ensures short { IsErrOf result NoPiece.Ended → Takes (D.left door.old) (D.left door.new)
        (λ piece. length (begun.items ++ piece) < announced) }
    ensures cause { IsErrOf result NoPiece.Failed → Rose (D.cuts door.old) (D.cuts door.new) }
    ensures never_falls { D.cuts door.old ≤ D.cuts door.new }
    ensures sent { D.sent door.new ≡ D.sent door.old }
    ensures waiting { D.waiting door.new ≡ D.waiting door.old }
    ensures held { D.held door.new ≡ D.held door.old }
    ensures current { D.current door.new ≡ D.current door.old }
    ensures port { D.listens_at door.new ≡ D.listens_at door.old }
    ensures faults { D.faults door.new ≡ D.faults door.old }
{
    let mut body = begun;
    'pieces: while body.len() < announced {
        read_piece(door, &mut body, announced)?;
    }
    Ok(body)
}
