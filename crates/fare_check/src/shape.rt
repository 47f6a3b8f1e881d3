//! The shapes of records: how many fields the record of each kind has, and which they are.

ghost use Rattle.std.specs.Prelude.{◌≡◌, length};
ghost use Rattle.fare_check.specs.Shapes.{fare_shape, field_at, fields_of, kind_shape, right_words, shape_of};
ghost use Rattle.fare_check.specs.Shapes.{shape_words};

use crate::field_name::FieldName;
use fare_csv::{RecordKind, Row, Version, is_end, is_head};

/// What a row has to look like, by its kind and the version of the text.
#[derive(Clone, Copy)]
pub(crate) enum Shape {
    Head,
    Cur,
    City,
    Rule,
    FareOne,
    FareTwo,
    /// A FARE of a text that leaves its version open, which has the count of fields of neither.
    FareOpen,
    Mpm,
    Tpm,
    Ema,
    End,
}

static HEAD: [FieldName; 3] = [FieldName::Version, FieldName::Number, FieldName::Effective];

static CUR: [FieldName; 6] = [
    FieldName::Country,
    FieldName::Currency,
    FieldName::Roe,
    FieldName::Decimals,
    FieldName::Unit,
    FieldName::Mode,
];

static CITY: [FieldName; 3] = [FieldName::Code, FieldName::Country, FieldName::Area];

static RULE: [FieldName; 9] = [
    FieldName::Id,
    FieldName::Stops,
    FieldName::Transfers,
    FieldName::Advance,
    FieldName::MinStay,
    FieldName::MaxStay,
    FieldName::Excess,
    FieldName::Units,
    FieldName::Ends,
];

static FARE_ONE: [FieldName; 8] = [
    FieldName::From,
    FieldName::To,
    FieldName::Ind,
    FieldName::Carrier,
    FieldName::Class,
    FieldName::Kind,
    FieldName::Rule,
    FieldName::Amount,
];

static FARE_TWO: [FieldName; 10] = [
    FieldName::From,
    FieldName::To,
    FieldName::Ind,
    FieldName::Carrier,
    FieldName::Class,
    FieldName::Kind,
    FieldName::Rule,
    FieldName::First,
    FieldName::Last,
    FieldName::Amount,
];

static MPM: [FieldName; 4] = [
    FieldName::From,
    FieldName::To,
    FieldName::Ind,
    FieldName::Miles,
];

static TPM: [FieldName; 3] = [FieldName::From, FieldName::To, FieldName::Miles];

static EMA: [FieldName; 5] = [
    FieldName::From,
    FieldName::To,
    FieldName::Ind,
    FieldName::Via,
    FieldName::Miles,
];

/// The fields of a record of a shape, from the second on.
#[tactic(auto, unfolding(crate::specs::Shapes::fields_of))]
fn fields_of(shape: Shape) -> &'static [FieldName]
    ensures { result.now ≡ fields_of shape }
{
    match shape {
        Shape::Head => &HEAD,
        Shape::Cur => &CUR,
        Shape::City => &CITY,
        Shape::Rule => &RULE,
        Shape::FareOne => &FARE_ONE,
        Shape::FareTwo => &FARE_TWO,
        Shape::Mpm => &MPM,
        Shape::Tpm => &TPM,
        Shape::Ema => &EMA,
        Shape::FareOpen | Shape::End => &[],
    }
}

/// The shape of a FARE.
fn fare_shape(version: Option<Version>, row: &Row) -> Shape
    ensures { result ≡ fare_shape version row.now }
{
    match version {
        Some(Version::One) => Shape::FareOne,
        Some(Version::Two) => Shape::FareTwo,
        None => match row.len() {
            9 => Shape::FareOne,
            11 => Shape::FareTwo,
            _ => Shape::FareOpen,
        },
    }
}

/// The shape of a record of a kind.
fn kind_shape(version: Option<Version>, row: &Row, kind: RecordKind) -> Shape
    ensures { result ≡ kind_shape version row.now kind }
{
    match kind {
        RecordKind::City => Shape::City,
        RecordKind::Cur => Shape::Cur,
        RecordKind::Rule => Shape::Rule,
        RecordKind::Fare => fare_shape(version, row),
        RecordKind::Mpm => Shape::Mpm,
        RecordKind::Tpm => Shape::Tpm,
        RecordKind::Ema => Shape::Ema,
    }
}

/// The shape of a row, by its first field.
#[tactic(auto, unfolding(crate::specs::Shapes::shape_of))]
pub(crate) fn shape_of(version: Option<Version>, row: &Row) -> Option<Shape>
    ensures { result ≡ shape_of version row.now }
{
    if is_head(row) {
        return Some(Shape::Head);
    }
    if is_end(row) {
        return Some(Shape::End);
    }
    match RecordKind::named(row.field(0)) {
        None => None,
        Some(kind) => Some(kind_shape(version, row, kind)),
    }
}

impl Shape {
    /// The kind, as a sentence names it.
    pub(crate) fn words(self) -> &'static str
        ensures { result.now ≡ shape_words self }
    {
        match self {
            Shape::Head => "HEAD",
            Shape::Cur => "CUR",
            Shape::City => "CITY",
            Shape::Rule => "RULE",
            Shape::FareOne => "FARE in version 1",
            Shape::FareTwo => "FARE in version 2",
            Shape::FareOpen => "FARE",
            Shape::Mpm => "MPM",
            Shape::Tpm => "TPM",
            Shape::Ema => "EMA",
            Shape::End => "END",
        }
    }

    /// How many fields a record of the shape has.
    pub(crate) fn right(self) -> &'static str
        ensures { result.now ≡ right_words self }
    {
        match self {
            Shape::Head => "4",
            Shape::Cur => "7",
            Shape::City => "4",
            Shape::Rule => "10",
            Shape::FareOne => "9",
            Shape::FareTwo => "11",
            Shape::FareOpen => "9 or 11",
            Shape::Mpm => "5",
            Shape::Tpm => "4",
            Shape::Ema => "6",
            Shape::End => "1",
        }
    }

    /// The field of a number, from 2 on.
    #[tactic(auto, unfolding(crate::specs::Shapes::field_at))]
    pub(crate) fn field_at(self, number: u32) -> Option<FieldName>
        ensures { result ≡ field_at self number }
    {
        if number < 2 {
            return None;
        }
        fields_of(self).get(number as usize - 2).copied()
    }
}
