ghost use Rattle.std.specs.Prelude.{◌≡◌, ◌≤◌, IfOk, length, take, drop, vec_len};
ghost use Rattle.httparse.specs.Grammar.{RequestHead};
ghost use Rattle.httparse.specs.Spans.{IsRequestWithin, IsRequestOf, IsRequestAt};
ghost use Rattle.fare_http.specs.Requests.{announced, path_of};

use crate::head_method::head_method;
use crate::{BodyFault, Head, PathText, body_length};
use fare_ports::NoMemory;
use http::Method;
use httparse::spans::HeaderSpan;
use std::alloc::{AllocError, Global};

/// How long the body is that the head announces.
pub fn announced_length(head: &Head, fields: &[HeaderSpan]) -> Result<usize, BodyFault>
    requires within { IsRequestWithin head.now.taken.items fields.now head.now.spans }
    ensures { (whole : RequestHead) →
        IsRequestAt head.now.taken.items fields.now head.now.spans whole → result ≡ announced whole }
{
    body_length(&head.taken, &fields[..head.spans.headers])
}

/// The method of the head.
pub fn method_of(alloc: Global, head: &Head, fields: &[HeaderSpan]) -> Result<Method, NoMemory>
    requires within { IsRequestWithin head.now.taken.items fields.now head.now.spans }
    requires whole { IsRequestOf head.now.taken.items fields.now head.now.spans }
    ensures { (whole : RequestHead) →
        IsRequestAt head.now.taken.items fields.now head.now.spans whole →
        IfOk result (λ method. method ≡ whole.method) }
{
    head_method(alloc, head.spans.method.of(&head.taken))
}

/// The path of the head.
pub fn path_text(alloc: Global, head: &Head, fields: &[HeaderSpan]) -> Result<PathText, AllocError>
    requires within { IsRequestWithin head.now.taken.items fields.now head.now.spans }
    requires whole { IsRequestOf head.now.taken.items fields.now head.now.spans }
    ensures { (whole : RequestHead) →
        IsRequestAt head.now.taken.items fields.now head.now.spans whole →
        IfOk result (λ path. path ≡ path_of whole.target) }
{
    PathText::of_target(alloc, head.spans.path.of(&head.taken))
}

/// The bytes of the body that came with the head.
pub fn begun_body(alloc: Global, head: &Head, count: usize) -> Result<Vec<u8>, AllocError>
    requires { head.now.spans.len ≤ vec_len head.now.taken }
    ensures begun { IfOk result
        (λ begun. begun.items ≡ take count (drop head.now.spans.len head.now.taken.items)) }
    ensures most { IfOk result (λ begun. vec_len begun ≤ count) }
{
    let rest = &head.taken[head.spans.len..];
    Vec::from_slice(alloc, &rest[..count.min(rest.len())])
}
