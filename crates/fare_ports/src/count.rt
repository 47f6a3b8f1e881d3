ghost use Rattle.std.specs.Prelude.{◌≡◌};
ghost use Rattle.fare_ports.specs.Cause.{one_more};

/// The count with one failure more, which stays at the last value of a u64.
pub fn raised(count: u64) -> u64
    ensures { result ≡ one_more count }
{
    count.saturating_add(1)
}
