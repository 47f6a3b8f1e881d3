use crate::exit::Exit;
use std::marker::Model;

/// What a command comes to: what the run ends in, and the text that is written before.
#[derive(Drop)]
pub struct Outcome {
    /// What the run ends in once the text is written.
    pub exit: Exit,
    /// The text that is written, whole.
    pub text: Vec<u8>,
}

impl Model for Outcome {
    ghost use Rattle.fare_commands.specs.Answer.{ExitAndText};

    ghost Value = { ExitAndText };

    ghost view = { λ outcome. record { exit = outcome.exit; text = outcome.text.items } };
}

impl Outcome {
    ghost use Rattle.std.specs.Prelude.{◌≡◌};
    ghost use Rattle.fare_commands.specs.Answer.{done};

    /// A text is written, and nothing is wrong.
    pub fn done(text: Vec<u8>) -> Outcome
        ensures { result ≡ done text.items }
    {
        Outcome {
            exit: Exit::Done,
            text,
        }
    }
}
