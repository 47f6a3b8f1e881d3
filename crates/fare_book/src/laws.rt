//! The laws of books: each function computes nothing, and its contract is a law that its caller may use.

ghost use Rattle.std.specs.Prelude.{◌≡◌, ◌⊎◌, ◌↔◌, ℕ, List, Some, None, Ok, Err, true, false, All, Contains};
ghost use Rattle.fare_csv.specs.TariffText.{edition_of};
ghost use Rattle.fare_book.specs.declared.published.Published.TheVariants.{Already};
ghost use Rattle.fare_book.specs.BodiesInWords.{AreEditionsOf, IsDamageOf};
ghost use Rattle.fare_book.specs.Book.{BookState};
ghost use Rattle.fare_book.specs.Editions.{DamageAt, editions_of};
ghost use Rattle.fare_book.specs.Publish.{Publishes};
ghost use Rattle.fare_book.specs.Repeats.{IsCutOff, IsNewOf, IsRun, Publication, StandsOnce};
ghost use Rattle.fare_tariff.specs.Tariff.{Tariff};
ghost use Rattle.fare_book.specs.Selected.{is_effective_by, is_later, selected};
ghost use Rattle.fare_codes.specs.declared.day.Day.{Day};

/// What bodies stand for, in words: they stand for editions exactly where they are at most 32, each the text of the
/// edition in its place, and no two of one number; and they are damaged exactly where they are more than 32, or one of
/// them is no edition's text or repeats a number, and then the first such body and what is wrong with it is told.
pub fn bodies_in_words()
    ensures editions { (bodies : List (List ℕ)) (editions : List Tariff) →
        (editions_of bodies ≡ Ok editions) ↔ AreEditionsOf bodies editions }
    ensures damage { (bodies : List (List ℕ)) (found : DamageAt) →
        (editions_of bodies ≡ Err found) ↔ IsDamageOf bodies found }
{}

/// A repeated publication acts once. After any publications, from a book and bodies that stand together, each edition
/// that was answered New stands in the book once, as does each that stood before; and a text of an edition that was
/// answered New is then, unless memory is wanting or the keeper fails, published already and adds no body. Since each
/// front of a list of publications is one too, this holds of every book on the way.
pub fn repeat_is_already()
    ensures once { (book last : BookState) (bodies left : List (List ℕ)) (calls : List Publication) →
        (made : Publication) (edition : Tariff) →
        IsRun book bodies calls last left → Contains calls made → IsNewOf made edition →
        StandsOnce last.editions edition }
    ensures already { (book last later : BookState) (bodies left more : List (List ℕ)) (calls : List Publication) →
        (made again : Publication) (edition : Tariff) →
        IsRun book bodies calls last left → Contains calls made → IsNewOf made edition →
        edition_of again.text ≡ Ok edition →
        Publishes last later again.text again.answer (Some left) (Some more) →
        IsCutOff again.answer ⊎ ((again.answer ≡ Ok (Already edition.number)) × (more ≡ left)) }
    ensures kept { (book last : BookState) (bodies left : List (List ℕ)) (calls : List Publication) (edition : Tariff) →
        IsRun book bodies calls last left → Contains book.editions edition →
        StandsOnce last.editions edition }
{}

/// The edition that a day selects is one of the book's, effective by then, and none that is effective by then is later;
/// where none is selected, none is effective by then.
pub fn selected_is_latest()
    ensures some { (editions : List Tariff) (day : Day) (found : Tariff) → selected editions day ≡ Some found →
        Contains editions found × (is_effective_by day found ≡ true)
        × All (λ other. is_effective_by day other ≡ true → is_later other found ≡ false) editions }
    ensures none { (editions : List Tariff) (day : Day) → selected editions day ≡ None →
        All (λ other. is_effective_by day other ≡ false) editions }
{}
