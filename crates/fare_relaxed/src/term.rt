ghost use Rattle.std.specs.Prelude.{◌≡◌};
ghost use Rattle.fare_relaxed.specs.Terms.{term_name, rule_number};

use fare_rules::Rule;

/// A kind of condition that a rule can ask.
#[derive(Clone, Copy, Debug, PartialEq, Eq)]
pub enum Term {
    /// The least number of days from the sale day to the first day of travel.
    Advance,
    /// The least and the greatest stay.
    Stay,
    /// The greatest number of stopovers in a fare component.
    Stopovers,
    /// The greatest number of transfers in a fare component.
    Transfers,
    /// Whether a mileage surcharge is allowed.
    Surcharge,
    /// The rules with which a fare may be combined in a pricing unit.
    Units,
    /// The rules with which a fare may be combined end on end.
    Ends,
}

/// How many kinds there are.
pub const TERMS: usize = 7;

impl Term {
    /// The word for it.
    pub fn name(self) -> &'static [u8]
        ensures { result.now ≡ term_name self }
    {
        match self {
            Term::Advance => b"ADVANCE",
            Term::Stay => b"STAY",
            Term::Stopovers => b"STOPOVERS",
            Term::Transfers => b"TRANSFERS",
            Term::Surcharge => b"SURCHARGE",
            Term::Units => b"UNIT",
            Term::Ends => b"ENDS",
        }
    }

    /// The number of the rule by which conditions of this kind bar constructions.
    pub fn rule(self) -> u8
        ensures { result ≡ rule_number self }
    {
        let rule = match self {
            Term::Advance => Rule::Advance,
            Term::Stay => Rule::Stay,
            Term::Stopovers => Rule::Stops,
            Term::Transfers => Rule::Transfers,
            Term::Surcharge => Rule::Excess,
            Term::Units => Rule::Combine,
            Term::Ends => Rule::End,
        };
        rule.number()
    }
}
