ghost use Rattle.std.specs.Prelude.{◌≡◌, IfOk, IsUtf8};
ghost use Rattle.fare_http.specs.Requests.{path_of};

use std::alloc::{AllocError, Global};
use std::marker::Model;
use std::str::from_utf8;

/// The path of a request, seen as its bytes.
#[derive(Drop)]
pub struct PathText {
    text: String,
}

impl Model for PathText {
    ghost use Rattle.std.specs.Prelude.{List, ℕ, string_bytes};

    ghost Value = { List ℕ };

    ghost view = { λ p. string_bytes p.text };
}

impl PathText {
    /// The target of a request up to its first `?`.
    pub fn of_target(alloc: Global, target: &[u8]) -> Result<PathText, AllocError>
        requires { IsUtf8 target.now }
        ensures { IfOk result (λ path. path ≡ path_of target.now) }
    {
        let target = from_utf8(target).unwrap();
        let path = match target.split_once('?') {
            Some((path, _)) => path,
            None => target,
        };
        Ok(PathText {
            text: String::from_str(alloc, path)?,
        })
    }

    /// Its text.
    pub fn as_str(&self) -> &str
        ensures { result.now ≡ self.now }
    {
        self.text.as_str()
    }
}
