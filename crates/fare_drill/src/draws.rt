//! The stream of draws of a seed: a linear congruential generator.

ghost use Rattle.std.specs.Prelude.{◌≡◌, ◌/◌};
ghost use Rattle.fare_drill.specs.Draws.{next_state};

/// The state of a stream behind one more draw.
pub(crate) fn next_state(x: u32) -> u32
    ensures { result ≡ next_state x }
{
    ((u64::from(x) * 1_103_515_245 + 12_345) % (1 << 31)) as u32
}

/// What a draw gives: the upper half of the state behind it.
pub(crate) fn upper_half(x: u32) -> u32
    ensures { result ≡ x / 65_536 }
{
    x / 65_536
}
