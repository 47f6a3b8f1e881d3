//! What a through fare costs by the ticketed miles.

use super::Quotation;
use crate::tests::tariffs::{END, MILES, PERMITTED, PLACES, STOPPING, THROUGH, TO_PARIS};

/// What a through fare costs by the ticketed miles.
pub static MILEAGE: [Quotation; 7] = [
    // At the permitted miles.
    Quotation {
        source: &[STOPPING, PLACES, THROUGH, MILES, END],
        text: "EDITION 1 2025-01-01\n\
               LON Q1 PAR Q1 ROM M400.00 YYYOW/1 NUC400.00END ROE0.750000\n\
               PART 1 LON-ROM UNIT 1 OUT\n\
               FARE 8 YYYOW 400.00\n\
               MILES TPM 1000 EMA 0 NET 1000 MPM 1000 M\n\
               HIP NONE\n\
               AF 400.00\n\
               UNIT 1 OW SUM 400.00 CHECK NONE PRICE 400.00\n\
               TOTAL NUC 400.00\n\
               ROE 0.750000\n\
               LOCAL GBP 300\n",
    },
    // At the last mile of 5M.
    Quotation {
        source: &[
            STOPPING,
            PLACES,
            THROUGH,
            TO_PARIS,
            "TPM,PAR,ROM,750\n",
            PERMITTED,
            END,
        ],
        text: "EDITION 1 2025-01-01\n\
               LON Q1 PAR Q1 ROM 5M420.00 YYYOW/1 NUC420.00END ROE0.750000\n\
               PART 1 LON-ROM UNIT 1 OUT\n\
               FARE 8 YYYOW 400.00\n\
               MILES TPM 1050 EMA 0 NET 1050 MPM 1000 5M\n\
               HIP NONE\n\
               AF 420.00\n\
               UNIT 1 OW SUM 420.00 CHECK NONE PRICE 420.00\n\
               TOTAL NUC 420.00\n\
               ROE 0.750000\n\
               LOCAL GBP 315\n",
    },
    // At the first one of 10M.
    Quotation {
        source: &[
            STOPPING,
            PLACES,
            THROUGH,
            TO_PARIS,
            "TPM,PAR,ROM,751\n",
            PERMITTED,
            END,
        ],
        text: "EDITION 1 2025-01-01\n\
               LON Q1 PAR Q1 ROM 10M440.00 YYYOW/1 NUC440.00END ROE0.750000\n\
               PART 1 LON-ROM UNIT 1 OUT\n\
               FARE 8 YYYOW 400.00\n\
               MILES TPM 1051 EMA 0 NET 1051 MPM 1000 10M\n\
               HIP NONE\n\
               AF 440.00\n\
               UNIT 1 OW SUM 440.00 CHECK NONE PRICE 440.00\n\
               TOTAL NUC 440.00\n\
               ROE 0.750000\n\
               LOCAL GBP 330\n",
    },
    // At the last mile of 25M.
    Quotation {
        source: &[
            STOPPING,
            PLACES,
            THROUGH,
            TO_PARIS,
            "TPM,PAR,ROM,950\n",
            PERMITTED,
            END,
        ],
        text: "EDITION 1 2025-01-01\n\
               LON Q1 PAR Q1 ROM 25M500.00 YYYOW/1 NUC500.00END ROE0.750000\n\
               PART 1 LON-ROM UNIT 1 OUT\n\
               FARE 8 YYYOW 400.00\n\
               MILES TPM 1250 EMA 0 NET 1250 MPM 1000 25M\n\
               HIP NONE\n\
               AF 500.00\n\
               UNIT 1 OW SUM 500.00 CHECK NONE PRICE 500.00\n\
               TOTAL NUC 500.00\n\
               ROE 0.750000\n\
               LOCAL GBP 375\n",
    },
    // One mile more.
    Quotation {
        source: &[
            STOPPING,
            PLACES,
            THROUGH,
            TO_PARIS,
            "TPM,PAR,ROM,951\n",
            PERMITTED,
            END,
        ],
        text: "EDITION 1 2025-01-01\nNO FARE\n",
    },
    // 349.9965, rounded down.
    Quotation {
        source: &[
            STOPPING,
            PLACES,
            "FARE,LON,ROM,EH,YY,Y,OW,,333.33\n",
            TO_PARIS,
            "TPM,PAR,ROM,750\n",
            PERMITTED,
            END,
        ],
        text: "EDITION 1 2025-01-01\n\
               LON Q1 PAR Q1 ROM 5M349.99 YYYOW/1 NUC349.99END ROE0.750000\n\
               PART 1 LON-ROM UNIT 1 OUT\n\
               FARE 8 YYYOW 333.33\n\
               MILES TPM 1050 EMA 0 NET 1050 MPM 1000 5M\n\
               HIP NONE\n\
               AF 349.99\n\
               UNIT 1 OW SUM 349.99 CHECK NONE PRICE 349.99\n\
               TOTAL NUC 349.99\n\
               ROE 0.750000\n\
               LOCAL GBP 263\n",
    },
    // No ticketed miles.
    Quotation {
        source: &[STOPPING, PLACES, THROUGH, TO_PARIS, PERMITTED, END],
        text: "EDITION 1 2025-01-01\nNO FARE\n",
    },
];
