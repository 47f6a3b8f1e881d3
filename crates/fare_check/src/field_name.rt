//! The fields of the records of a text.

ghost use Rattle.std.specs.Prelude.{◌≡◌};
ghost use Rattle.fare_check.specs.FieldNames.{form_words, name_words};

/// A field of a record: fields of one name have one form, whatever kinds of records have them.
#[derive(Clone, Copy)]
pub(crate) enum FieldName {
    Version,
    Number,
    Effective,
    Country,
    Currency,
    Roe,
    Decimals,
    Unit,
    Mode,
    Code,
    Area,
    Id,
    Stops,
    Transfers,
    Advance,
    MinStay,
    MaxStay,
    Excess,
    Units,
    Ends,
    From,
    To,
    Ind,
    Carrier,
    Class,
    Kind,
    Rule,
    First,
    Last,
    Amount,
    Via,
    Miles,
}

impl FieldName {
    /// Its name.
    #[tactic(auto, unfolding(crate::specs::FieldNames::name_words))]
    pub(crate) fn name(self) -> &'static str
        ensures { result.now ≡ name_words self }
    {
        match self {
            FieldName::Version => "version",
            FieldName::Number => "number",
            FieldName::Effective => "effective",
            FieldName::Country => "country",
            FieldName::Currency => "currency",
            FieldName::Roe => "roe",
            FieldName::Decimals => "decimals",
            FieldName::Unit => "unit",
            FieldName::Mode => "mode",
            FieldName::Code => "code",
            FieldName::Area => "area",
            FieldName::Id => "id",
            FieldName::Stops => "stops",
            FieldName::Transfers => "transfers",
            FieldName::Advance => "advance",
            FieldName::MinStay => "min_stay",
            FieldName::MaxStay => "max_stay",
            FieldName::Excess => "excess",
            FieldName::Units => "units",
            FieldName::Ends => "ends",
            FieldName::From => "from",
            FieldName::To => "to",
            FieldName::Ind => "ind",
            FieldName::Carrier => "carrier",
            FieldName::Class => "class",
            FieldName::Kind => "kind",
            FieldName::Rule => "rule",
            FieldName::First => "first",
            FieldName::Last => "last",
            FieldName::Amount => "amount",
            FieldName::Via => "via",
            FieldName::Miles => "miles",
        }
    }

    /// The form that it has to have.
    #[tactic(auto, unfolding(crate::specs::FieldNames::form_words))]
    pub(crate) fn form(self) -> &'static str
        ensures { result.now ≡ form_words self }
    {
        match self {
            FieldName::Version => "1 or 2",
            FieldName::Number => "a number from 1 to 99999 with no zero in front",
            FieldName::Effective => "a day YYYY-MM-DD from 1970 to 9999",
            FieldName::Country => "two letters A to Z",
            FieldName::Roe => "a rate above zero of one to seven digits, a point and six digits",
            FieldName::Decimals => "0, 1 or 2",
            FieldName::Unit => "a number from 1 to 10000 with no zero in front",
            FieldName::Mode => "U or N",
            FieldName::Area => "1, 2 or 3",
            FieldName::Id => "one to eight characters A to Z or 0 to 9",
            FieldName::Stops | FieldName::Transfers => {
                "a number from 0 to 16 with no zero in front"
            }
            FieldName::Advance | FieldName::MinStay | FieldName::MaxStay => {
                "a number from 0 to 999 with no zero in front"
            }
            FieldName::Excess => "Y or N",
            FieldName::Units | FieldName::Ends => {
                "*, or empty, or 1 to 64 names with one space between, a name being a rule's id or -"
            }
            FieldName::Currency | FieldName::Code | FieldName::From | FieldName::To => {
                "three letters A to Z"
            }
            FieldName::Ind => "WH, EH, AT, PA or AP",
            FieldName::Carrier => "two characters A to Z or 0 to 9",
            FieldName::Class => "F, C or Y",
            FieldName::Kind => "OW or HR",
            FieldName::Rule => "empty, or one to eight characters A to Z or 0 to 9",
            FieldName::First | FieldName::Last => "a day of the year MM-DD",
            FieldName::Amount => "an amount from 0.00 to 9999999.99 with two decimals",
            FieldName::Via => "empty, or three letters A to Z",
            FieldName::Miles => "a number from 0 to 99999 with no zero in front",
        }
    }
}
