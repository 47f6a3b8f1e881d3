//! Extra mileage allowances, through the right city and through another.

use super::Quotation;
use crate::tests::tariffs::{END, PERMITTED, PLACES, STOPPING, THROUGH, TO_PARIS};

/// Extra mileage allowances, through the right city and through another.
pub static ALLOWANCES: [Quotation; 3] = [
    // Within the permitted miles by the allowance.
    Quotation {
        source: &[
            STOPPING,
            PLACES,
            THROUGH,
            TO_PARIS,
            "TPM,PAR,ROM,751\n",
            PERMITTED,
            "EMA,LON,ROM,EH,PAR,60\n",
            END,
        ],
        text: "EDITION 1 2025-01-01\n\
               LON Q1 PAR Q1 ROM M400.00 YYYOW/1 NUC400.00END ROE0.750000\n\
               PART 1 LON-ROM UNIT 1 OUT\n\
               FARE 8 YYYOW 400.00\n\
               MILES TPM 1051 EMA 60 NET 991 MPM 1000 M\n\
               HIP NONE\n\
               AF 400.00\n\
               UNIT 1 OW SUM 400.00 CHECK NONE PRICE 400.00\n\
               TOTAL NUC 400.00\n\
               ROE 0.750000\n\
               LOCAL GBP 300\n",
    },
    // More is allowed than was flown.
    Quotation {
        source: &[
            STOPPING,
            PLACES,
            THROUGH,
            TO_PARIS,
            "TPM,PAR,ROM,751\n",
            PERMITTED,
            "EMA,LON,ROM,EH,PAR,2000\n",
            END,
        ],
        text: "EDITION 1 2025-01-01\n\
               LON Q1 PAR Q1 ROM M400.00 YYYOW/1 NUC400.00END ROE0.750000\n\
               PART 1 LON-ROM UNIT 1 OUT\n\
               FARE 8 YYYOW 400.00\n\
               MILES TPM 1051 EMA 2000 NET 0 MPM 1000 M\n\
               HIP NONE\n\
               AF 400.00\n\
               UNIT 1 OW SUM 400.00 CHECK NONE PRICE 400.00\n\
               TOTAL NUC 400.00\n\
               ROE 0.750000\n\
               LOCAL GBP 300\n",
    },
    // An allowance through a city that isn't passed.
    Quotation {
        source: &[
            STOPPING,
            PLACES,
            THROUGH,
            TO_PARIS,
            "TPM,PAR,ROM,751\n",
            PERMITTED,
            "EMA,LON,ROM,EH,FRA,60\n",
            "CUR,DE,EUR,0.900000,2,1,N\nCITY,FRA,DE,2\n",
            END,
        ],
        text: "EDITION 1 2025-01-01\n\
               LON Q1 PAR Q1 ROM 10M440.00 YYYOW/1 NUC440.00END ROE0.750000\n\
               PART 1 LON-ROM UNIT 1 OUT\n\
               FARE 8 YYYOW 400.00\n\
               MILES TPM 1051 EMA 0 NET 1051 MPM 1000 10M\n\
               HIP NONE\n\
               AF 440.00\n\
               UNIT 1 OW SUM 440.00 CHECK NONE PRICE 440.00\n\
               TOTAL NUC 440.00\n\
               ROE 0.750000\n\
               LOCAL GBP 330\n",
    },
];
