/// A part of a construction: a fare component, and the pricing unit to which it belongs.
#[derive(Clone, Copy, Debug)]
pub struct Part {
    /// The number of the trip's point where it ends.
    pub end: u8,
    /// The number of its pricing unit, from 1.
    pub unit: u8,
    /// The record number of its fare.
    pub fare: u32,
}
