//! A plain line, whose bytes stand in its fields as they are: it is a row, whose fields are taken where they stand.

ghost use Rattle.std.specs.Prelude.{◌≡◌, true, ◌≤◌, ◌∷◌, ◌++◌, take, length, IfOk, IfSome};
ghost use Rattle.fare_csv.specs.Lines.{is_plain_byte, is_plain_field, is_plain_row, line_of};

use crate::field_list::FieldList;
use crate::pieces::NotInPieces;

/// Whether a byte stands in a field as it is. Nearly all are above the comma, so one comparison tells most.
fn is_plain_byte(byte: u8) -> bool
    ensures { result ≡ is_plain_byte byte }
{
    if byte > b',' {
        return byte < 127;
    }
    32 <= byte && byte < b',' && !(byte == b'"')
}

/// How many bytes at the start of a text stand in a field as they are.
fn plain_bytes(text: &[u8]) -> usize
    ensures within { result ≤ length text.now }
    ensures plain { is_plain_field (take result text.now) ≡ true }
{
    for at in 0..text.len() {
        if !is_plain_byte(text[at]) {
            return at;
        }
    }
    text.len()
}

/// A field at the start of a text, the byte that ends it, and the text behind that byte.
#[derive(Clone, Copy)]
struct Ended<'a> {
    field: &'a [u8],
    mark: u8,
    behind: &'a [u8],
}

/// The field at the start of a text; nothing where no byte ends it.
fn first_field<'a>(text: &'a [u8]) -> Option<Ended<'a>>
    ensures { IfSome result (λ first. (text.now ≡ first.field.now ++ (first.mark ∷ first.behind.now))
        × (is_plain_field first.field.now ≡ true)) }
{
    let (field, rest) = text.split_at(plain_bytes(text));
    let (mark, behind) = rest.split_first()?;
    Some(Ended {
        field,
        mark: *mark,
        behind,
    })
}

/// Takes the fields of the first line of a text, which has to be plain, and gives the text behind it.
pub(crate) fn take_line<'a>(
    text: &'a [u8],
    row: &mut FieldList<'a>,
) -> Result<&'a [u8], NotInPieces>
    ensures line { IfOk result (λ behind. text.now ≡ line_of row.new ++ behind.now) }
    ensures plain { IfOk result (λ behind. is_plain_row row.new ≡ true) }
{
    row.clear();
    let mut rest = text;
    while let Some(first) = first_field(rest) {
        row.push(first.field)?;
        if first.mark == b'\n' && !row.field(0).is_empty() {
            return Ok(first.behind);
        }
        if first.mark != b',' {
            return Err(NotInPieces);
        }
        rest = first.behind;
    }
    Err(NotInPieces)
}
