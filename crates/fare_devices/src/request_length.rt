use fare_http::{MOST_FIELDS, MOST_HEAD, body_length};
use httparse::Status;
use httparse::spans::{EMPTY_HEADER_SPAN, parse_request};

/// How many bytes a request takes of which these are the first, as soon as they tell. What can't become a request, or
/// has a length that isn't taken, wants no further byte: it has its answer already.
pub fn request_length(begun: &[u8]) -> Option<usize> {
    let mut fields = [EMPTY_HEADER_SPAN; MOST_FIELDS];
    match parse_request(begun, &mut fields) {
        Ok(Status::Complete(head)) => match body_length(begun, &fields[..head.headers]) {
            Ok(length) => Some(head.len.saturating_add(length)),
            Err(_) => Some(0),
        },
        Ok(Status::Partial) if begun.len() < MOST_HEAD => None,
        Ok(Status::Partial) | Err(_) => Some(0),
    }
}
