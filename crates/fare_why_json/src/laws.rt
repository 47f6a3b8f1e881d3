//! Laws of the answer: the plain text is made of its members, and it is read back from its text as its value.

ghost use Rattle.std.specs.Prelude.{◌≡◌, All};
ghost use Rattle.fare_tariff.specs.Tariff.{Tariff};
ghost use Rattle.fare_why.specs.Explanation.{Explanation};
ghost use Rattle.fare_why.specs.WhyText.{why_text};
ghost use Rattle.fare_json.specs.Counts.{IsCount};
ghost use Rattle.fare_json.specs.ReadBack.{IsReadBack};
ghost use Rattle.fare_why_json.specs.Counts.{AreReasonCounts};
ghost use Rattle.fare_why_json.specs.Plain.{plain_why};
ghost use Rattle.fare_why_json.specs.WhyData.{why_data};

use fare_tariff::Edition;
use fare_why::{Reason, Why};

/// The members of the answer make the plain text.
#[tactic(auto, using(crate::proofs::PlainLemmas::why_is_plain))]
pub fn why_is_plain()
    ensures { (tariff : Tariff) (why : Explanation) → plain_why (why_data tariff why) ≡ why_text tariff why }
{}

/// The number of an edition is one of its type.
fn edition_is_counted(edition: &Edition)
    ensures { IsCount edition.now.number }
{
    let _number = edition.number();
}

/// The counts of a reason are those of their types.
fn reason_is_counted(one: &Reason)
    ensures { AreReasonCounts one.now }
{
    let broken = one.broken();
    let _place = broken.place;
    let _rule = broken.rule;
}

/// The counts of reasons are those of their types.
fn reasons_are_counted(reasons: &[Reason])
    ensures { All AreReasonCounts reasons.now }
{
    for one in reasons {
        reason_is_counted(one);
    }
}

/// The answer is read back from its text as its value. It walks over the reasons to see that their counts are those of
/// their types, and changes nothing.
#[tactic(auto, using(crate::proofs::ReadLemmas::why_reads_back))]
pub fn why_is_read_back(edition: &Edition, why: &Why)
    ensures { IsReadBack (why_data edition.now why.now) }
{
    edition_is_counted(edition);
    reasons_are_counted(why.reasons());
}
