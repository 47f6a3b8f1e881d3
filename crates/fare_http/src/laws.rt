//! The laws of what a connection brings: each function computes nothing, and its contract is a law that its caller may
//! use. They speak of all bytes of a connection, in whatever pieces they come.

ghost use Rattle.std.specs.Prelude.{◌≡◌, ◌++◌, ℕ, List, [], Some, Err};
ghost use Rattle.httparse.specs.Grammar.{HasNoRequest, NeverHasRequest, RequestHead};
ghost use Rattle.fare_http.specs.declared.lengths.BodyFault.{BodyFault};
ghost use Rattle.fare_http.specs.declared.reply.Reply.{Reply};
ghost use Rattle.fare_http.specs.declared.request.Request.{Request};
ghost use Rattle.fare_http.specs.Heads.{EndsEarly, IsOverLimit};
ghost use Rattle.fare_http.specs.Refusals.{EndsInside, SaysFault};
ghost use Rattle.fare_http.specs.Requests.{Announces, EndsInBody, HasHead, IsWhole};
ghost use Rattle.fare_http.specs.Serving.{Brings, BringsRefused, BringsTooLittle, BringsWhole};

/// A head within the limits that all the bytes of a connection begin with is the one that is found; they don't end too
/// early. Bytes that others complete to such a head are neither bad nor above a limit.
pub fn head_is_found()
    ensures same { (bytes rest others : List ℕ) (head other : RequestHead) → HasHead bytes head rest →
        Brings (Some bytes) (λ left taken. HasHead taken other others) → other ≡ head }
    ensures whole { (bytes rest : List ℕ) (head : RequestHead) → HasHead bytes head rest →
        ¬ (Brings (Some bytes) EndsEarly) }
    ensures not_bad { (bytes more rest : List ℕ) (head : RequestHead) → HasHead (bytes ++ more) head rest →
        ¬ (Brings (Some bytes) (λ left. NeverHasRequest)) }
    ensures within { (bytes more rest : List ℕ) (head : RequestHead) → HasHead (bytes ++ more) head rest →
        ¬ (Brings (Some bytes) (λ left. IsOverLimit)) }
{}

/// A connection whose bytes begin with a whole request brings that request and no other, has no fixed answer, and
/// doesn't end too early.
pub fn whole_request_is_read()
    ensures same { (bytes : List ℕ) (request other : Request) → IsWhole request bytes →
        BringsWhole (Some bytes) other → other ≡ request }
    ensures not_refused { (bytes : List ℕ) (request : Request) (reply : Reply) → IsWhole request bytes →
        ¬ (BringsRefused (Some bytes) reply) }
    ensures not_short { (bytes : List ℕ) (request : Request) → IsWhole request bytes →
        ¬ (BringsTooLittle (Some bytes)) }
{}

/// A connection whose bytes begin with a head that is wrong about the length of the body has the fixed answer to that,
/// brings no whole request, and doesn't end too early.
pub fn fault_is_told()
    ensures same { (bytes : List ℕ) (fault : BodyFault) (reply : Reply) → Announces (Err fault) bytes →
        BringsRefused (Some bytes) reply → SaysFault fault reply }
    ensures not_whole { (bytes : List ℕ) (fault : BodyFault) (request : Request) → Announces (Err fault) bytes →
        ¬ (BringsWhole (Some bytes) request) }
    ensures not_short { (bytes : List ℕ) (fault : BodyFault) → Announces (Err fault) bytes →
        ¬ (BringsTooLittle (Some bytes)) }
{}

/// A connection whose bytes end inside its body, or inside a head that others complete, brings no whole request, and
/// has no fixed answer.
pub fn short_request_is_cut_off()
    ensures not_whole { (bytes : List ℕ) (request : Request) → EndsInside (Some []) bytes →
        ¬ (BringsWhole (Some bytes) request) }
    ensures body { (bytes : List ℕ) (reply : Reply) → EndsInBody (Some []) bytes →
        ¬ (BringsRefused (Some bytes) reply) }
    ensures head { (bytes more rest : List ℕ) (head : RequestHead) (reply : Reply) → HasNoRequest bytes →
        HasHead (bytes ++ more) head rest → ¬ (BringsRefused (Some bytes) reply) }
{}
