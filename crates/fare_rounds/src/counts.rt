ghost use Rattle.std.specs.Prelude.{◌≡◌, ◌<◌, ◌+◌, [], ◌∷◌};
ghost use Rattle.fare_rounds.specs.Finishing.{cut_count, served_count};

use fare_http::Exchange;
use fare_ports::MOST_HELD;

/// How many exchanges of a round ended in which way.
#[derive(Clone, Copy, Debug, PartialEq, Eq)]
pub struct Counts {
    /// The whole answer was sent.
    pub served: u32,
    /// The connection ended too early, or a read or a write failed.
    pub cut: u32,
}

impl Counts {
    /// Counts one exchange more.
    pub(crate) fn add(&mut self, ending: Exchange)
        requires served { self.old.served < MOST_HELD }
        requires cut { self.old.cut < MOST_HELD }
        ensures served { self.new.served ≡ self.old.served + served_count (ending ∷ []) }
        ensures cut { self.new.cut ≡ self.old.cut + cut_count (ending ∷ []) }
    {
        match ending {
            Exchange::Served => self.served += 1,
            Exchange::Cut => self.cut += 1,
        }
    }
}
