//! What a fare is priced for.

ghost use Rattle.std.specs.Prelude.{◌<◌};

/// A span that a fare is priced for, out or back.
#[derive(Clone, Copy)]
pub struct Component {
    pub a: usize,
    pub b: usize,
    pub back: bool,
    ghost rises: { a < b },
}
