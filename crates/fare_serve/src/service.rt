use fare_split::Turnstile;

/// What is asked for of a service.
#[derive(Clone, Copy)]
pub struct Service<'g> {
    /// The port at which it listens.
    pub port: u16,
    /// The most connections that it takes.
    pub count: u32,
    /// The most connections of a round.
    pub round: u32,
    /// How many workers share a search.
    pub workers: u32,
    /// What counts the workers that begin.
    pub gate: &'g Turnstile,
}
