//! The rules of a trip's fares.

use crate::barred::is_among;
use crate::limits::MOST_RULES;
use fare_component::Table;
use fare_tariff::Edition;

/// Puts a fare to some at the first free place, where there is one: if none of them has its rule.
fn put_fare(edition: &Edition, fares: &mut [u32; MOST_RULES], number: u32) {
    let Some(fare) = edition.fare_at(number) else {
        return;
    };
    if is_among(edition, fares.as_slice(), fare.rule) {
        return;
    }
    if let Some(place) = fares.iter().position(|fare| *fare == 0) {
        fares[place] = number;
    }
}

/// The same for the fares of a span.
fn put_fares(table: &Table, fares: &mut [u32; MOST_RULES], a: usize, b: usize) {
    for entry in table.entries(a, b) {
        put_fare(table.edition(), fares, entry.fare);
    }
}

/// The same for those of the spans from a point.
fn put_fares_from(table: &Table, fares: &mut [u32; MOST_RULES], a: usize) {
    for b in 0..table.trip().count() + 1 {
        put_fares(table, fares, a, b);
    }
}

/// A fare of each rule of a table: of as many rules as are told apart. Nothing is known of them: whoever takes them asks
/// what they are for.
pub fn rules_of(table: &Table) -> [u32; MOST_RULES] {
    let mut fares = [0; MOST_RULES];
    for a in 0..table.trip().count() {
        put_fares_from(table, &mut fares, a);
    }
    fares
}
