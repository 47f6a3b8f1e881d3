//! The law of a round of one connection: the function computes nothing, and its contract is a law that its caller may
//! use.

ghost use Rattle.std.specs.Prelude.{◌∷◌, [], ℕ};
ghost use Rattle.fare_ports.specs.Cause.{Rose};
ghost use Rattle.fare_http.specs.Serving.{Exchanges};
ghost use Rattle.fare_rounds.specs.Rounds.{Exchanged, IsRound, failures_of};
ghost use Rattle.fare_rounds.specs.Taking.{RoseBy};

use fare_http::Handler;

/// A round of one connection is one exchange.
pub fn round_of_one<H: Handler>()
    ensures { (first last : ℕ) (old new : H) (exchanged : Exchanged) →
        IsRound H.step old old (exchanged ∷ []) new → RoseBy (failures_of (exchanged ∷ [])) first last →
        Exchanges H.step exchanged.ending exchanged.connection old exchanged.sent new (Rose first last) }
{}
