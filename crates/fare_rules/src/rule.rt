//! The rules of a lawful construction, each with its name and its number.

ghost use Rattle.std.specs.Prelude.{◌≡◌};
ghost use Rattle.fare_rules.specs.Rule.{number_of, rule_of};

/// A rule that each lawful construction meets. A broken one is told by its number.
#[derive(Clone, Copy, Debug, PartialEq, Eq)]
pub enum Rule {
    /// Each part ends between its start and the trip's end, and the last one there.
    Cover,
    /// Units are numbered from 1 in the order of their first parts.
    Numbering,
    /// The fare of a part is a fare's record.
    Record,
    /// No parts a < b < c < d have a and c in one unit, and b and d in another.
    Crossing,
    /// A one way fare is a unit alone.
    Alone,
    /// Each part of a unit of half round trips, no open jaw, begins in the city where the one before it ends.
    Chain,
    /// Such a unit has two parts or more, ends in its origin, and comes there with its last part alone.
    Close,
    /// The cities of a part are different.
    Distinct,
    /// The fare of a part runs between its ends, in the part's direction.
    Pair,
    /// The fare of a part has the part's indicator.
    Indicator,
    /// The class of a part's fare is below no cabin of the part.
    Cabin,
    /// The carrier of a part's fare is `YY`, or that of each sector of the part.
    Carrier,
    /// A part has no more interior stopovers than its rule allows.
    Stops,
    /// A part has no more interior transfers than its rule allows.
    Transfers,
    /// The trip is sold as many days before its first sector as the rule of a part asks.
    Advance,
    /// A part is direct, or its miles let a fare be used.
    Mileage,
    /// A part has a mileage surcharge only where its rule allows one.
    Excess,
    /// The stay of a unit of half round trips lies within the rule of each of its parts.
    Stay,
    /// Any two parts of a unit are combinable in it.
    Combine,
    /// Any two parts of different units are combinable end on end.
    End,
    /// A part holds no surface sector.
    Surface,
    /// The season of a part's fare holds the day of the part's first sector.
    Season,
}

impl Rule {
    /// Its number, 1 to 22: the least one is told where several are broken.
    pub fn number(self) -> u8
        ensures { result ≡ number_of self }
    {
        match self {
            Rule::Cover => 1,
            Rule::Numbering => 2,
            Rule::Record => 3,
            Rule::Crossing => 4,
            Rule::Alone => 5,
            Rule::Chain => 6,
            Rule::Close => 7,
            Rule::Distinct => 8,
            Rule::Pair => 9,
            Rule::Indicator => 10,
            Rule::Cabin => 11,
            Rule::Carrier => 12,
            Rule::Stops => 13,
            Rule::Transfers => 14,
            Rule::Advance => 15,
            Rule::Mileage => 16,
            Rule::Excess => 17,
            Rule::Stay => 18,
            Rule::Combine => 19,
            Rule::End => 20,
            Rule::Surface => 21,
            Rule::Season => 22,
        }
    }

    /// The rule of a number, if there is one.
    #[tactic(auto, unfolding(crate::specs::Rule::rule_of))]
    pub fn of(number: u8) -> Option<Rule>
        ensures { result ≡ rule_of number }
    {
        match number {
            1 => Some(Rule::Cover),
            2 => Some(Rule::Numbering),
            3 => Some(Rule::Record),
            4 => Some(Rule::Crossing),
            5 => Some(Rule::Alone),
            6 => Some(Rule::Chain),
            7 => Some(Rule::Close),
            8 => Some(Rule::Distinct),
            9 => Some(Rule::Pair),
            10 => Some(Rule::Indicator),
            11 => Some(Rule::Cabin),
            12 => Some(Rule::Carrier),
            13 => Some(Rule::Stops),
            14 => Some(Rule::Transfers),
            15 => Some(Rule::Advance),
            16 => Some(Rule::Mileage),
            17 => Some(Rule::Excess),
            18 => Some(Rule::Stay),
            19 => Some(Rule::Combine),
            20 => Some(Rule::End),
            21 => Some(Rule::Surface),
            22 => Some(Rule::Season),
            _ => None,
        }
    }
}
