ghost use Rattle.fare_ports.specs.Memory.{Gives};
ghost use Rattle.fare_csv.specs.TariffText.{edition_of};

use crate::spelling::read_spelled;
use crate::text_fault::TextFault;
use fare_tariff::Edition;
use std::alloc::Global;
use std::thread::Threads;

/// The edition that a text stands for, or its first fault: a fault of a row's spelling counts before
/// any fault of a record among the others.
#[tactic(auto, unfolding(crate::specs::TariffText::edition_of))]
pub fn read_edition<R: Threads + Sync>(
    rt: &R,
    alloc: Global,
    bytes: &[u8],
) -> Result<Edition, TextFault>
    ensures { Gives TextFault.Memory (λ edition. edition) result (edition_of bytes.now) }
{
    let spelled = read_spelled(rt, alloc, bytes)?;
    Ok(Edition::check(
        rt,
        alloc,
        spelled.number,
        spelled.effective,
        spelled.records,
    )?)
}
