//! How long the texts are that are taken whole from outside.

/// The most bytes of a text that is taken at once, whether a source holds it or a request brings it as its body: a
/// tariff, or an array of itineraries.
pub const MOST_TEXT: u32 = 16_777_216;
