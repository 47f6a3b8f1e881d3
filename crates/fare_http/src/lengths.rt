ghost use Rattle.std.specs.Prelude.{◌≡◌, ◌≤◌, ◌∷◌, ◌++◌, [], All, length, map, true, List, ℕ};
ghost use Rattle.std.specs.List.{list_all};
ghost use Rattle.std.specs.Char.{is_ascii_digit};
ghost use Rattle.httparse.specs.Spans.{IsHeaderWithin, header_bytes};
ghost use Rattle.fare_http.specs.Lengths.{body_length, length_of, number_up_to, has_name, values_named};
ghost use Rattle.fare_http.specs.Lengths.{AreNamed, IsOneWithin};

use fare_ports::MOST_TEXT;
use httparse::spans::{HeaderSpan, Span};

/// Why a head says nothing that can be taken about its body's length.
#[derive(Clone, Copy, Debug, PartialEq, Eq)]
pub enum BodyFault {
    /// There is a Transfer-Encoding field.
    Coded,
    /// There are two Content-Length fields, or one whose value isn't one or more digits.
    BadLength,
    /// The length is above `MOST_TEXT`.
    TooLong,
}

/// How long the body is that these fields of a head announce; with no Content-Length it is empty.
pub fn body_length(taken: &[u8], fields: &[HeaderSpan]) -> Result<usize, BodyFault>
    requires { All (IsHeaderWithin (length taken.now)) fields.now }
    ensures { result ≡ body_length (map (header_bytes taken.now) fields.now) }
{
    match values_of(taken, fields, b"transfer-encoding") {
        Named::Absent => length_given(taken, values_of(taken, fields, b"content-length")),
        Named::One(_) | Named::Several => Err(BodyFault::Coded),
    }
}

/// The values of the fields of one name.
#[derive(Clone, Copy, Debug, PartialEq, Eq)]
enum Named {
    Absent,
    One(Span),
    Several,
}

fn values_of(taken: &[u8], fields: &[HeaderSpan], name: &[u8]) -> Named
    requires { All (IsHeaderWithin (length taken.now)) fields.now }
    ensures values { AreNamed taken.now result
        (values_named name.now (map (header_bytes taken.now) fields.now)) }
    ensures within { IsOneWithin (length taken.now) result }
{
    let mut found = Named::Absent;
    for field in fields {
        found = with_field(found, taken, field, name);
    }
    found
}

// What was found, and the value of one field more where it has the name.
fn with_field(found: Named, taken: &[u8], field: &HeaderSpan, name: &[u8]) -> Named
    requires field { IsHeaderWithin (length taken.now) field.now }
    requires found { IsOneWithin (length taken.now) found }
    ensures values { (values : List (List ℕ)) → AreNamed taken.now found values →
        AreNamed taken.now result
        (values ++ values_named name.now (header_bytes taken.now field.now ∷ [])) }
    ensures within { IsOneWithin (length taken.now) result }
{
    if !is_named(taken, field, name) {
        return found;
    }
    match found {
        Named::Absent => Named::One(field.value),
        _ => Named::Several,
    }
}

fn is_named(taken: &[u8], field: &HeaderSpan, name: &[u8]) -> bool
    requires { IsHeaderWithin (length taken.now) field.now }
    ensures { result ≡ has_name name.now (header_bytes taken.now field.now) }
{
    field.name.of(taken).eq_ignore_ascii_case(name)
}

fn length_given(taken: &[u8], lengths: Named) -> Result<usize, BodyFault>
    requires { IsOneWithin (length taken.now) lengths }
    ensures { (values : List (List ℕ)) → AreNamed taken.now lengths values → result ≡ length_of values }
{
    match lengths {
        Named::Absent => Ok(0),
        Named::One(value) => read_length(value.of(taken)),
        Named::Several => Err(BodyFault::BadLength),
    }
}

fn read_length(value: &[u8]) -> Result<usize, BodyFault>
    ensures { result ≡ length_of (value.now ∷ []) }
{
    if value.is_empty() || !all_digits(value) {
        return Err(BodyFault::BadLength);
    }
    number_up_to(value, MOST_TEXT as usize).ok_or(BodyFault::TooLong)
}

fn all_digits(value: &[u8]) -> bool
    ensures { result ≡ list_all is_ascii_digit value.now }
{
    value.iter().all(|byte| byte.is_ascii_digit())
}

// The number that the digits write, if it is at most `most`.
fn number_up_to(digits: &[u8], most: usize) -> Option<usize>
    requires digits { list_all is_ascii_digit digits.now ≡ true }
    requires room { most ≤ MOST_TEXT }
    ensures { result ≡ number_up_to most digits.now }
{
    let mut number = 0;
    for digit in digits {
        number = 10 * number + (*digit - b'0') as usize;
        if number > most {
            return None;
        }
    }
    Some(number)
}
