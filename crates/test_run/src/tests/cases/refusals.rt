//! Sources that are refused, each with its named fault.

use super::Refusal;
use crate::tests::tariffs::{
    END, HEAD_1, HEAD_2, JAW_FARES, MILES, NO_SECTORS, OPENED_ARRAYS, PERMITTED, PLACES,
    SEVENTEEN_SECTORS, SHORT, STOPPING, SUMMER, SURFACE_FIRST, THROUGH, TWO_PLACES, WINTER,
};

/// Refusals of tariffs, of itineraries, of a sale day and of a place.
pub static REFUSALS: [Refusal; 17] = [
    Refusal {
        source: &[
            "TRIP,2025-03-01,LON,ROM,Q1,2025-02-28,Y\n",
            HEAD_1,
            TWO_PLACES,
            THROUGH,
            END,
        ],
        status: 4,
        fault: "TRIP DatesFall 1\n",
    },
    Refusal {
        source: &[NO_SECTORS, PLACES, THROUGH, MILES, END],
        status: 4,
        fault: "TRIP NoSectors\n",
    },
    Refusal {
        source: &[
            STOPPING,
            PLACES,
            THROUGH,
            "TPM,LON,PAR,300\nTPM,PAR,LON,700\nMPM,LON,ROM,EH,1000\n",
            END,
        ],
        status: 3,
        fault: "TARIFF 10 Duplicate 9\n",
    },
    Refusal {
        source: &[
            STOPPING,
            PLACES,
            "FARE,LON,ROM,EH,YY,Y,OW,,400\n",
            MILES,
            END,
        ],
        status: 3,
        fault: "TARIFF 8 BadRecord 9\n",
    },
    Refusal {
        source: &[
            STOPPING,
            PLACES,
            "FARE,LON,ROM,EH,YY,Y,OW,,400\n",
            "TPM,LON,PAR,300\nTPM,PAR,LON,700\nMPM,LON,ROM,EH,1000\n",
            END,
        ],
        status: 3,
        fault: "TARIFF 8 BadRecord 9\n",
    },
    Refusal {
        source: &[STOPPING, PLACES, THROUGH, MILES],
        status: 3,
        fault: "TARIFF 12 NoEnd\n",
    },
    Refusal {
        source: &[STOPPING],
        status: 3,
        fault: "TARIFF 1 NoHeader\n",
    },
    Refusal {
        source: &[
            SHORT,
            HEAD_2,
            TWO_PLACES,
            SUMMER,
            "FARE,LON,ROM,EH,YY,Y,OW,,10-31,03-31,300.00\n",
            END,
        ],
        status: 3,
        fault: "TARIFF 7 Overlap 6\n",
    },
    Refusal {
        source: &[SHORT, HEAD_1, TWO_PLACES, SUMMER, WINTER, END],
        status: 3,
        fault: "TARIFF 6 BadRecord 0\n",
    },
    Refusal {
        source: &[
            SHORT,
            HEAD_2,
            TWO_PLACES,
            "FARE,LON,ROM,EH,YY,Y,OW,,02-30,10-31,400.00\n",
            END,
        ],
        status: 3,
        fault: "TARIFF 6 BadRecord 9\n",
    },
    Refusal {
        source: &["{}\n", HEAD_1, TWO_PLACES, THROUGH, END],
        status: 4,
        fault: "TRIP Missing sale 0\n",
    },
    Refusal {
        source: &[
            "TRIP,2024-12-31,LON,ROM,Q1,2025-04-10,Y\n",
            HEAD_1,
            TWO_PLACES,
            THROUGH,
            END,
        ],
        status: 6,
        fault: "NO EDITION 2024-12-31\n",
    },
    Refusal {
        source: &[STOPPING, HEAD_1, TWO_PLACES, THROUGH, PERMITTED, END],
        status: 7,
        fault: "UNKNOWN PLACE PAR\n",
    },
    Refusal {
        source: &[SEVENTEEN_SECTORS, PLACES, THROUGH, MILES, END],
        status: 4,
        fault: "TRIP TooMany 17\n",
    },
    Refusal {
        source: &["\n", PLACES, THROUGH, MILES, END],
        status: 4,
        fault: "TRIP NotJson\n",
    },
    Refusal {
        source: &[OPENED_ARRAYS, PLACES, THROUGH, MILES, END],
        status: 4,
        fault: "TRIP NotJson\n",
    },
    Refusal {
        source: &[SURFACE_FIRST, PLACES, "CITY,LYS,FR,2\n", JAW_FARES, END],
        status: 4,
        fault: "TRIP SurfacePlace 1\n",
    },
];
