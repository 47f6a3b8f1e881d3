/// What a text was published as.
#[derive(Clone, Copy, Debug, PartialEq, Eq)]
pub enum Published {
    /// The edition of this number is the last of the book now, and its canonical text the last body.
    New(u32),
    /// The edition of this number stood in the book before, the same in each record; nothing was stored.
    Already(u32),
}
