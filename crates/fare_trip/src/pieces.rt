//! The seven pieces of a short line.

ghost use Rattle.std.specs.Prelude.{◌≡◌, ◌≤◌, ◌==◌, ◌∷◌, [], length, IfSome, IfNone, false};
ghost use Rattle.std.specs.List.{position};
ghost use Rattle.fare_trip.specs.ShortLine.{pieces, without_return};

/// The seven pieces of a short line, of which the first names its kind.
#[derive(Clone, Copy)]
pub(crate) struct ShortTexts<'a> {
    pub(crate) kind: &'a [u8],
    pub(crate) sale: &'a [u8],
    pub(crate) from: &'a [u8],
    pub(crate) to: &'a [u8],
    pub(crate) carrier: &'a [u8],
    pub(crate) day: &'a [u8],
    pub(crate) cabin: &'a [u8],
}

/// The line without the one CR that may stand at its end.
#[tactic(auto, unfolding(crate::specs::ShortLine::without_return))]
pub(crate) fn trimmed(line: &[u8]) -> &[u8]
    ensures { result.now ≡ without_return line.now }
{
    if !line.is_empty() && line[line.len() - 1] == b'\r' {
        &line[..line.len() - 1]
    } else {
        line
    }
}

/// The first piece of a line, and what stands behind its comma.
#[derive(Clone, Copy)]
struct Cut<'a> {
    piece: &'a [u8],
    rest: Option<&'a [u8]>,
}

/// Where the first comma of a line stands.
fn comma_in(line: &[u8]) -> Option<usize>
    ensures { result ≡ position (λ byte. byte == 44) line.now }
{
    line.iter().position(|byte| *byte == b',')
}

/// Cuts a line at its first comma.
fn first_cut(line: &[u8]) -> Cut<'_>
    ensures more { IfSome result.rest (λ rest. pieces line.now ≡ result.piece.now ∷ pieces rest.now) }
    ensures further { IfSome result.rest (λ rest. 1 ≤ length (pieces rest.now)) }
    ensures last { IfNone result.rest (pieces line.now ≡ result.piece.now ∷ []) }
{
    match comma_in(line) {
        Some(i) => Cut {
            piece: &line[..i],
            rest: Some(&line[i + 1..]),
        },
        None => Cut {
            piece: line,
            rest: None,
        },
    }
}

/// The seven pieces of a line; nothing exactly where it has another number of them.
pub(crate) fn short_texts(line: &[u8]) -> Option<ShortTexts<'_>>
    ensures seven { IfSome result (λ t. pieces line.now ≡ t.kind.now ∷ t.sale.now ∷ t.from.now ∷ t.to.now
        ∷ t.carrier.now ∷ t.day.now ∷ t.cabin.now ∷ []) }
    ensures other { IfNone result ((length (pieces line.now) == 7) ≡ false) }
{
    let kind = first_cut(line);
    let sale = first_cut(kind.rest?);
    let from = first_cut(sale.rest?);
    let to = first_cut(from.rest?);
    let carrier = first_cut(to.rest?);
    let day = first_cut(carrier.rest?);
    let cabin = first_cut(day.rest?);
    if cabin.rest.is_some() {
        return None;
    }
    Some(ShortTexts {
        kind: kind.piece,
        sale: sale.piece,
        from: from.piece,
        to: to.piece,
        carrier: carrier.piece,
        day: day.piece,
        cabin: cabin.piece,
    })
}
