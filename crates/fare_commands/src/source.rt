//! The bytes of the source.

ghost use Rattle.std.specs.Prelude.{IfErr, IfSome};
ghost use Rattle.fare_commands.specs.Steps.{HoldsUpTo, IsEndOfReading, IsReading};

use crate::exit::Exit;
use fare_ports::{Source, read_all};
use std::alloc::Global;

/// All that the source holds, if that is at most so many bytes.
pub fn source_up_to<S: Source>(alloc: Global, src: &mut S, limit: usize) -> Result<Vec<u8>, Exit>
    ensures source { IfSome (S.left src.old) (λ source. HoldsUpTo limit source result) }
    ensures ends { IfErr result IsEndOfReading }
    ensures reading { IsReading limit result
        (S.left src.old) (S.left src.new) (S.faults src.old) (S.faults src.new) }
{
    Ok(read_all(alloc, src, limit)?)
}
