ghost use Rattle.std.specs.Prelude.{◌≡◌, ◌<◌, [], ◌∷◌, ◌++◌, length};

use arrayvec::ArrayVec;
use fare_codes::{Cabin, Carrier, City, Kind, MOST_SECTORS, RuleId};

/// The letter of a part: how its amount was found from the mileage.
#[derive(Clone, Copy, Debug, PartialEq, Eq)]
pub enum Letter {
    /// No letter: the amount of a direct part.
    Bare,
    /// `M` with the mileage surcharge in hundredths before it, 0, 5, 10, 15, 20 or 25; 0 is not written.
    Mileage(u32),
}

/// A part of a line: a fare component with its amount, its fare and its unit.
#[derive(Clone, Copy, Debug)]
pub struct LinePart {
    /// How many sectors of the line end with the part, gaps counted.
    pub end: u8,
    /// How the amount was found from the mileage.
    pub letter: Letter,
    /// The cities of the higher intermediate point, in fare direction; only behind a letter.
    pub pair: Option<(City, City)>,
    /// The amount in hundredths of a NUC, at most nine digits before the point.
    pub amount: u64,
    /// The fare's carrier.
    pub carrier: Carrier,
    /// The fare's class.
    pub class: Cabin,
    /// The fare's kind.
    pub kind: Kind,
    /// The fare's rule; nothing is the free rule.
    pub rule: Option<RuleId>,
    /// The unit, 1 to `MOST_SECTORS`.
    pub unit: u8,
    /// The city to which the surface sector before the part leads, where there is one.
    pub gap: Option<City>,
}

impl LinePart {
    /// Adds the part to others.
    pub(crate) fn push_to(self, parts: &mut ArrayVec<LinePart, MOST_SECTORS>)
        requires { length parts.old.items < MOST_SECTORS }
        ensures { parts.new.items ≡ parts.old.items ++ self ∷ [] }
    {
        let _fits = parts.try_extend_from_slice(&[self]);
    }
}

/// A part that stands in room that is not yet used.
impl Default for LinePart {
    fn default() -> LinePart {
        LinePart {
            end: 0,
            letter: Letter::Bare,
            pair: None,
            amount: 0,
            carrier: Carrier::default(),
            class: Cabin::Y,
            kind: Kind::OW,
            rule: None,
            unit: 1,
            gap: None,
        }
    }
}
