/// The first rule that a construction breaks.
#[derive(Clone, Copy, Debug)]
pub struct Broken {
    /// The number of the `Rule`, 1 to 22.
    pub rule: u8,
    /// Where it is broken: the number of a part or of a unit, from 1.
    pub place: u32,
}
