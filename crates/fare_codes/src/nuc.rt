ghost use Rattle.std.specs.Prelude.{◌≡◌, ◌↔◌, ◌<◌, Some, IfSome, IsTrue};
ghost use Rattle.fare_codes.specs.Numbers.{read_nuc, nuc_text};

use crate::decimals::{decimal_text, read_decimal};
use arrayvec::ArrayString;
use std::marker::Model;

/// Every amount is below this many hundredths: it has at most eleven digits before its point.
pub const NUC_LIMIT: u64 = 10_000_000_000_000;

/// The amount of a filed fare is below this many hundredths, 10,000,000.00.
pub const FARE_LIMIT: u64 = 1_000_000_000;

/// An amount in Neutral Units of Construction, below `NUC_LIMIT`. A contract sees its number of hundredths.
#[derive(Clone, Copy, Debug, PartialEq, Eq, PartialOrd, Ord, Hash)]
pub struct Nuc {
    hundredths: u64,
}

impl Model for Nuc {
    ghost use Rattle.std.specs.Prelude.{◌<◌, ℕ};
    ghost use Rattle.fare_codes.specs.declared.nuc.TheConstants.{NUC_LIMIT};

    ghost Value = { ℕ };

    ghost view = { λ n. n.hundredths };

    ghost invariant = { λ n. n.hundredths < NUC_LIMIT };

    ghost inverse = { λ n. record { hundredths = n } };
}

impl Nuc {
    /// The amount of this many hundredths.
    pub fn new(hundredths: u64) -> Nuc
        requires { hundredths < NUC_LIMIT }
        ensures { result ≡ hundredths }
    {
        Nuc { hundredths }
    }

    /// The number of hundredths.
    pub fn hundredths(self) -> u64
        ensures value { result ≡ self }
        ensures range { result < NUC_LIMIT }
    {
        self.hundredths
    }

    /// The amount that these bytes write; nothing exactly where they are not a number of at most eleven digits, a
    /// point and two digits. No other bytes write it.
    pub fn read(bytes: &[u8]) -> Option<Nuc>
        ensures value { result ≡ read_nuc bytes.now }
        ensures only { IfSome result (λ amount. bytes.now ≡ nuc_text amount) }
    {
        match read_decimal(bytes, 2) {
            Some(hundredths) => Some(Nuc { hundredths }),
            None => None,
        }
    }

    /// A number, a point and two digits; read back it is the amount.
    #[tactic(auto, using(crate::proofs::DecimalLemmas::decimal_read_back))]
    pub fn text(self) -> ArrayString<16>
        ensures text { result.bytes ≡ nuc_text self }
        ensures read_back { read_nuc (nuc_text self) ≡ Some self }
    {
        decimal_text(self.hundredths, 2)
    }

    /// Whether both are the same amount.
    pub fn is(self, other: Nuc) -> bool
        ensures { IsTrue result ↔ (self ≡ other) }
    {
        self.hundredths == other.hundredths
    }
}
