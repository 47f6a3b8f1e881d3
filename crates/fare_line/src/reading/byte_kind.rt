ghost use Rattle.std.specs.Prelude.{◌≡◌};
ghost use Rattle.fare_line.specs.reader.Reading.{is_of};

/// Which bytes may stand at a place of a line.
#[derive(Clone, Copy, Debug)]
pub(crate) enum ByteKind {
    /// A letter A to Z.
    Uppercase,
    /// A letter A to Z or a digit.
    CodeCharacter,
    /// A digit.
    Digit,
    /// This byte alone.
    This(u8),
    /// From the first to the last.
    Among(u8, u8),
}

impl ByteKind {
    /// Whether a byte is of the kind.
    pub(crate) fn holds(self, byte: u8) -> bool
        ensures { result ≡ is_of self byte }
    {
        match self {
            ByteKind::Uppercase => byte.is_ascii_uppercase(),
            ByteKind::CodeCharacter => byte.is_ascii_uppercase() || byte.is_ascii_digit(),
            ByteKind::Digit => byte.is_ascii_digit(),
            ByteKind::This(one) => byte == one,
            ByteKind::Among(first, last) => first <= byte && byte <= last,
        }
    }
}
