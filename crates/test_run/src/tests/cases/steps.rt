//! Commands with a store.

use super::{Failure, Step};
use crate::tests::tariffs::{
    CANONICAL, DEARER, END, ENDED_BY_CR, HEAD_1, MILES, NO_SECTORS, PLACES, SEVENTEEN_SECTORS,
    SOLD_BEFORE, SOLD_LATER, SOLD_SOONER, STOPPING, THROUGH, TWO_PLACES,
};

const LIST: &[&str] = &["list", "--store=s"];

const MIGRATE: &[&str] = &["migrate", "--store=s"];

const PUBLISH: &[&str] = &["publish", "--store=s"];

const QUOTE: &[&str] = &["quote", "--store=s"];

/// One edition, published, published again and refused with another fare, and then written and quoted.
pub static ONE_EDITION: [Step; 9] = [
    Step {
        words: LIST,
        source: &[],
        status: 0,
        text: "",
    },
    Step {
        words: PUBLISH,
        source: &[PLACES, THROUGH, MILES, END],
        status: 0,
        text: "PUBLISHED 1\n",
    },
    Step {
        words: PUBLISH,
        source: &[PLACES, THROUGH, MILES, END],
        status: 0,
        text: "ALREADY 1\n",
    },
    Step {
        words: PUBLISH,
        source: &[ENDED_BY_CR],
        status: 0,
        text: "ALREADY 1\n",
    },
    Step {
        words: PUBLISH,
        source: &[PLACES, DEARER, MILES, END],
        status: 12,
        text: "DIFFERS 1\n",
    },
    Step {
        words: &["export", "--store=s", "--edition=1"],
        source: &[],
        status: 0,
        text: CANONICAL,
    },
    Step {
        words: &["export", "--store=s", "--edition=9"],
        source: &[],
        status: 15,
        text: "NO SUCH EDITION 9\n",
    },
    Step {
        words: LIST,
        source: &[],
        status: 0,
        text: "EDITION 1 2025-01-01 10\n",
    },
    Step {
        words: QUOTE,
        source: &[STOPPING],
        status: 0,
        text: "EDITION 1 2025-01-01\n\
               LON Q1 PAR Q1 ROM M400.00 YYYOW/1 NUC400.00END ROE0.750000\n\
               PART 1 LON-ROM UNIT 1 OUT\n\
               FARE 8 YYYOW 400.00\n\
               MILES TPM 1000 EMA 0 NET 1000 MPM 1000 M\n\
               HIP NONE\n\
               AF 400.00\n\
               UNIT 1 OW SUM 400.00 CHECK NONE PRICE 400.00\n\
               TOTAL NUC 400.00\n\
               ROE 0.750000\n\
               LOCAL GBP 300\n",
    },
];

/// Three editions, of which the second and the third have no fare and one effective day.
pub static THREE_EDITIONS: [Step; 7] = [
    Step {
        words: PUBLISH,
        source: &["HEAD,1,3,2025-02-01\n", TWO_PLACES, END],
        status: 0,
        text: "PUBLISHED 3\n",
    },
    Step {
        words: PUBLISH,
        source: &["HEAD,1,2,2025-02-01\n", TWO_PLACES, END],
        status: 0,
        text: "PUBLISHED 2\n",
    },
    Step {
        words: PUBLISH,
        source: &[HEAD_1, TWO_PLACES, END],
        status: 0,
        text: "PUBLISHED 1\n",
    },
    Step {
        words: LIST,
        source: &[],
        status: 0,
        text: "EDITION 3 2025-02-01 4\nEDITION 2 2025-02-01 4\nEDITION 1 2025-01-01 4\n",
    },
    Step {
        words: QUOTE,
        source: &[SOLD_LATER],
        status: 0,
        text: "EDITION 3 2025-02-01\nNO FARE\n",
    },
    Step {
        words: QUOTE,
        source: &[SOLD_SOONER],
        status: 0,
        text: "EDITION 1 2025-01-01\nNO FARE\n",
    },
    Step {
        words: QUOTE,
        source: &[SOLD_BEFORE],
        status: 6,
        text: "NO EDITION 2024-12-31\n",
    },
];

/// Sources that `quote` and `publish` refuse before they open a store.
pub static REFUSED_SOURCES: [Step; 4] = [
    Step {
        words: QUOTE,
        source: &[NO_SECTORS],
        status: 4,
        text: "TRIP NoSectors\n",
    },
    Step {
        words: QUOTE,
        source: &[SEVENTEEN_SECTORS],
        status: 4,
        text: "TRIP TooMany 17\n",
    },
    Step {
        words: QUOTE,
        source: &[],
        status: 4,
        text: "TRIP NotJson\n",
    },
    Step {
        words: PUBLISH,
        source: &[PLACES, THROUGH],
        status: 3,
        text: "TARIFF 9 NoEnd\n",
    },
];

/// The publication of one edition in an empty store, and a migration of none, with each call that may fail; the store's
/// calls are `open`, `len` and `append`.
pub static FAILURES: [Failure; 10] = [
    Failure {
        words: MIGRATE,
        read: &[],
        write: &[],
        room: 9,
        store: &[],
        status: 9,
        text: "MIGRATED ",
        bodies: 0,
    },
    Failure {
        words: MIGRATE,
        read: &[],
        write: &[],
        room: 4096,
        store: &[(1, false)],
        status: 10,
        text: "",
        bodies: 0,
    },
    Failure {
        words: MIGRATE,
        read: &[],
        write: &[],
        room: 4096,
        store: &[(2, false)],
        status: 10,
        text: "",
        bodies: 0,
    },
    Failure {
        words: PUBLISH,
        read: &[1],
        write: &[],
        room: 4096,
        store: &[],
        status: 8,
        text: "",
        bodies: 0,
    },
    Failure {
        words: PUBLISH,
        read: &[],
        write: &[1],
        room: 4096,
        store: &[],
        status: 9,
        text: "",
        bodies: 1,
    },
    Failure {
        words: PUBLISH,
        read: &[],
        write: &[],
        room: 10,
        store: &[],
        status: 9,
        text: "PUBLISHED ",
        bodies: 1,
    },
    Failure {
        words: PUBLISH,
        read: &[],
        write: &[],
        room: 4096,
        store: &[(1, false)],
        status: 10,
        text: "",
        bodies: 0,
    },
    Failure {
        words: PUBLISH,
        read: &[],
        write: &[],
        room: 4096,
        store: &[(2, false)],
        status: 10,
        text: "",
        bodies: 0,
    },
    Failure {
        words: PUBLISH,
        read: &[],
        write: &[],
        room: 4096,
        store: &[(3, false)],
        status: 10,
        text: "",
        bodies: 0,
    },
    Failure {
        words: PUBLISH,
        read: &[],
        write: &[],
        room: 4096,
        store: &[(3, true)],
        status: 10,
        text: "",
        bodies: 1,
    },
];
