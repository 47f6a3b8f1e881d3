//! Quotations of one sector: the local amount, and the fare of the season.

use super::Quotation;
use crate::tests::tariffs::{END, HEAD_1, HEAD_2, SHORT, SUMMER, THROUGH, TWO_PLACES, WINTER};

/// Quotations of one sector: the local amount, and the fare of the season.
pub static ONE_SECTOR: [Quotation; 7] = [
    // An example that every figure of the worksheet can be checked on.
    Quotation {
        source: &[SHORT, HEAD_1, TWO_PLACES, THROUGH, END],
        text: "EDITION 1 2025-01-01\n\
               LON Q1 ROM 400.00 YYYOW/1 NUC400.00END ROE0.750000\n\
               PART 1 LON-ROM UNIT 1 OUT\n\
               FARE 6 YYYOW 400.00\n\
               MILES DIRECT\n\
               HIP NONE\n\
               AF 400.00\n\
               UNIT 1 OW SUM 400.00 CHECK NONE PRICE 400.00\n\
               TOTAL NUC 400.00\n\
               ROE 0.750000\n\
               LOCAL GBP 300\n",
    },
    // 301.2975 pounds, rounded up.
    Quotation {
        source: &[
            SHORT,
            HEAD_1,
            TWO_PLACES,
            "FARE,LON,ROM,EH,YY,Y,OW,,401.73\n",
            END,
        ],
        text: "EDITION 1 2025-01-01\n\
               LON Q1 ROM 401.73 YYYOW/1 NUC401.73END ROE0.750000\n\
               PART 1 LON-ROM UNIT 1 OUT\n\
               FARE 6 YYYOW 401.73\n\
               MILES DIRECT\n\
               HIP NONE\n\
               AF 401.73\n\
               UNIT 1 OW SUM 401.73 CHECK NONE PRICE 401.73\n\
               TOTAL NUC 401.73\n\
               ROE 0.750000\n\
               LOCAL GBP 302\n",
    },
    // 300.045 pounds, of which tenths alone count.
    Quotation {
        source: &[
            SHORT,
            HEAD_1,
            TWO_PLACES,
            "FARE,LON,ROM,EH,YY,Y,OW,,400.06\n",
            END,
        ],
        text: "EDITION 1 2025-01-01\n\
               LON Q1 ROM 400.06 YYYOW/1 NUC400.06END ROE0.750000\n\
               PART 1 LON-ROM UNIT 1 OUT\n\
               FARE 6 YYYOW 400.06\n\
               MILES DIRECT\n\
               HIP NONE\n\
               AF 400.06\n\
               UNIT 1 OW SUM 400.06 CHECK NONE PRICE 400.06\n\
               TOTAL NUC 400.06\n\
               ROE 0.750000\n\
               LOCAL GBP 300\n",
    },
    // Nothing filed.
    Quotation {
        source: &[SHORT, HEAD_1, TWO_PLACES, END],
        text: "EDITION 1 2025-01-01\nNO FARE\n",
    },
    // In summer.
    Quotation {
        source: &[SHORT, HEAD_2, TWO_PLACES, SUMMER, WINTER, END],
        text: "EDITION 1 2025-01-01\n\
               LON Q1 ROM 400.00 YYYOW/1 NUC400.00END ROE0.750000\n\
               PART 1 LON-ROM UNIT 1 OUT\n\
               FARE 6 YYYOW 400.00\n\
               MILES DIRECT\n\
               HIP NONE\n\
               AF 400.00\n\
               UNIT 1 OW SUM 400.00 CHECK NONE PRICE 400.00\n\
               TOTAL NUC 400.00\n\
               ROE 0.750000\n\
               LOCAL GBP 300\n",
    },
    // On the last day of winter.
    Quotation {
        source: &[
            "TRIP,2025-03-01,LON,ROM,Q1,2025-03-31,Y\n",
            HEAD_2,
            TWO_PLACES,
            SUMMER,
            WINTER,
            END,
        ],
        text: "EDITION 1 2025-01-01\n\
               LON Q1 ROM 300.00 YYYOW/1 NUC300.00END ROE0.750000\n\
               PART 1 LON-ROM UNIT 1 OUT\n\
               FARE 7 YYYOW 300.00\n\
               MILES DIRECT\n\
               HIP NONE\n\
               AF 300.00\n\
               UNIT 1 OW SUM 300.00 CHECK NONE PRICE 300.00\n\
               TOTAL NUC 300.00\n\
               ROE 0.750000\n\
               LOCAL GBP 225\n",
    },
    // On its first day.
    Quotation {
        source: &[
            "TRIP,2025-03-01,LON,ROM,Q1,2025-11-01,Y\n",
            HEAD_2,
            TWO_PLACES,
            SUMMER,
            WINTER,
            END,
        ],
        text: "EDITION 1 2025-01-01\n\
               LON Q1 ROM 300.00 YYYOW/1 NUC300.00END ROE0.750000\n\
               PART 1 LON-ROM UNIT 1 OUT\n\
               FARE 7 YYYOW 300.00\n\
               MILES DIRECT\n\
               HIP NONE\n\
               AF 300.00\n\
               UNIT 1 OW SUM 300.00 CHECK NONE PRICE 300.00\n\
               TOTAL NUC 300.00\n\
               ROE 0.750000\n\
               LOCAL GBP 225\n",
    },
];
