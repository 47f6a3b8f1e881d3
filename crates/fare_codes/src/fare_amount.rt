ghost use Rattle.std.specs.Prelude.{◌≡◌, ◌↔◌, ◌<◌, Some, IsTrue};
ghost use Rattle.fare_codes.specs.Numbers.{read_nuc, nuc_text};

use crate::nuc::{FARE_LIMIT, Nuc};
use arrayvec::ArrayString;
use std::marker::Model;

/// The amount of a filed fare in Neutral Units of Construction, below `FARE_LIMIT`. It is small, since an edition has
/// hundreds of thousands of them. A contract sees its number of hundredths.
#[derive(Clone, Copy, Debug, PartialEq, Eq)]
pub struct FareAmount {
    hundredths: u32,
}

impl Model for FareAmount {
    ghost use Rattle.std.specs.Prelude.{◌<◌, ℕ};
    ghost use Rattle.fare_codes.specs.declared.nuc.TheConstants.{FARE_LIMIT};

    ghost Value = { ℕ };

    ghost view = { λ a. a.hundredths };

    ghost invariant = { λ a. a.hundredths < FARE_LIMIT };

    ghost inverse = { λ n. record { hundredths = n } };
}

impl FareAmount {
    /// The amount of a fare that is filed at so much.
    pub fn of(amount: Nuc) -> FareAmount
        requires { amount < FARE_LIMIT }
        ensures { result ≡ amount }
    {
        FareAmount {
            hundredths: amount.hundredths() as u32,
        }
    }

    /// The amount.
    pub fn nuc(self) -> Nuc
        ensures value { result ≡ self }
        ensures range { result < FARE_LIMIT }
    {
        Nuc::new(self.hundredths as u64)
    }

    /// The number of hundredths.
    pub fn hundredths(self) -> u64
        ensures value { result ≡ self }
        ensures range { result < FARE_LIMIT }
    {
        self.hundredths as u64
    }

    /// A number, a point and two digits; read back it is the amount.
    pub fn text(self) -> ArrayString<16>
        ensures text { result.bytes ≡ nuc_text self }
        ensures read_back { read_nuc (nuc_text self) ≡ Some self }
    {
        self.nuc().text()
    }

    /// Whether both are the same amount.
    pub fn is(self, other: FareAmount) -> bool
        ensures { IsTrue result ↔ (self ≡ other) }
    {
        self.hundredths == other.hundredths
    }
}
