use crate::asked::Asked;
use crate::store_name::StoreName;

/// What the words ask for, with the values of the options, also of those that were left out.
#[derive(Debug, Drop)]
pub enum Command<'a> {
    /// Quotes an itinerary by a tariff, both of the source.
    Price {
        workers: u32,
        asked: Asked,
        json: bool,
    },
    /// Puts the source's tariff into the store.
    Publish {
        store: StoreName<'a>,
    },
    /// Lists the editions of the store.
    List {
        store: StoreName<'a>,
        json: bool,
    },
    /// Writes an edition of the store.
    Export {
        store: StoreName<'a>,
        edition: u32,
    },
    /// Quotes the source's itinerary by the store.
    Quote {
        store: StoreName<'a>,
        workers: u32,
        asked: Asked,
        json: bool,
    },
    /// Answers so many connections by the store, in rounds.
    Serve {
        store: StoreName<'a>,
        port: u16,
        count: u32,
        workers: u32,
        round: u32,
    },
    /// Quotes a generated itinerary by a generated tariff.
    Drill {
        seed: u32,
        sectors: u32,
        extra: u32,
        workers: u32,
    },
    /// Writes each edition of the store in its canonical text.
    Migrate {
        store: StoreName<'a>,
    },
    /// Tells every fault of the source's tariff.
    Check,
    /// Tells which records of two editions of the store differ.
    Diff {
        store: StoreName<'a>,
        from: u32,
        to: u32,
    },
    /// Compares what the source's itineraries cost in two editions of the store.
    Compare {
        store: StoreName<'a>,
        from: u32,
        to: u32,
        workers: u32,
    },
}
