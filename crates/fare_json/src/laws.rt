//! Laws of the answers, with nothing to run: the plain text is made of the members of the JSON answer.

ghost use Rattle.std.specs.Prelude.{◌≡◌, ◌++◌, ℕ, List, Option, None, Some, codes};
ghost use Rattle.fare_trip.specs.Itinerary.{Itinerary};
ghost use Rattle.fare_tariff.specs.Tariff.{Tariff};
ghost use Rattle.fare_rules.specs.declared.part.Part.{Part};
ghost use Rattle.fare_rules.specs.FirstK.{Priced};
ghost use Rattle.fare_rules.specs.Lawful.{first_broken};
ghost use Rattle.fare_line.specs.Line.{CalculationLine};
ghost use Rattle.fare_calc.specs.Answer.{answer_text, edition_line};
ghost use Rattle.fare_answers.specs.BestText.{first_text};
ghost use Rattle.fare_answers.specs.List.{list_text};
ghost use Rattle.fare_audit.specs.declared.verdict.Verdict.{Verdict};
ghost use Rattle.fare_audit.specs.VerdictText.{verdict_text};
ghost use Rattle.fare_json.specs.AuditData.{audit_data};
ghost use Rattle.serde_json.specs.Data.{Data};
ghost use Rattle.fare_json.specs.BatchData.{batch_data, batch_json};
ghost use Rattle.fare_json.specs.BestData.{first_data};
ghost use Rattle.fare_json.specs.FaultData.{refusal_data};
ghost use Rattle.fare_json.specs.JsonText.{json_line};
ghost use Rattle.fare_json.specs.ListData.{list_data};
ghost use Rattle.fare_json.specs.QuotationData.{quotation_data};
ghost use Rattle.fare_json.specs.Plain.{items_plain, plain_answer, plain_audit, plain_batch, plain_first_answer};
ghost use Rattle.fare_json.specs.Plain.{plain_list, plain_quotation};

/// The members of a quotation make its plain text: the edition, the line and the worksheet of a lawful construction, or
/// that there is no fare.
#[tactic(auto, using(crate::proofs::PlainLemmas::lawful_is_plain, crate::proofs::PlainLemmas::none_is_plain))]
pub fn quotation_is_plain()
    ensures lawful { (tariff : Tariff) (trip : Itinerary) (parts : List Part) → first_broken tariff trip parts ≡ None →
        plain_quotation (quotation_data tariff trip (Some parts)) ≡ answer_text tariff trip (Some parts) }
    ensures none { (tariff : Tariff) (trip : Itinerary) →
        plain_quotation (quotation_data tariff trip None) ≡ answer_text tariff trip None }
{}

/// The members of the answer of the first constructions make their plain text.
#[tactic(auto, using(crate::proofs::PlainLemmas::first_is_plain))]
pub fn first_are_plain()
    ensures { (tariff : Tariff) (trip : Itinerary) (first : List Priced) →
        plain_first_answer (first_data tariff trip first) ≡ edition_line tariff ++ first_text tariff trip first }
{}

/// The members of a list make its plain text.
#[tactic(auto, using(crate::proofs::PlainLemmas::list_is_plain))]
pub fn list_is_plain()
    ensures { (editions : List Tariff) → plain_list (list_data editions) ≡ list_text editions }
{}

/// The members of the answer of an audit make its plain text.
#[tactic(auto, using(crate::proofs::PlainLemmas::audit_is_plain))]
pub fn audit_is_plain()
    ensures { (tariff : Tariff) (line : CalculationLine) (verdict : Verdict) →
        plain_audit (audit_data tariff line verdict) ≡ verdict_text verdict }
{}

/// A batch that is written item after item is the compact text of its value.
#[tactic(auto, using(crate::proofs::BatchLemmas::batch_text))]
pub fn batch_is_compact()
    ensures { (items : List (Data × ℕ)) → batch_json items ≡ json_line (batch_data items) }
{}

/// The members of the answer to an itinerary make its plain text, which is that of a quotation or of a refusal.
#[tactic(auto, using(crate::proofs::PlainLemmas::answer_is_plain, crate::proofs::PlainLemmas::refusal_is_plain))]
pub fn answer_is_plain()
    ensures quotation { (tariff : Tariff) (trip : Itinerary) (best : Option (List Part)) →
        plain_answer (quotation_data tariff trip best) ≡ plain_quotation (quotation_data tariff trip best) }
    ensures refusal { (text words : List ℕ) → plain_answer (refusal_data text words) ≡ text ++ codes "\n" }
{}

/// The members of the answer to a batch make its plain text: for each item its number, its status and the plain text of
/// its answer.
#[tactic(auto, using(crate::proofs::PlainLemmas::batch_is_plain))]
pub fn batch_is_plain()
    ensures { (items : List (Data × ℕ)) → plain_batch (batch_data items) ≡ items_plain 1 items }
{}
