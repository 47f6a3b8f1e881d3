//! Higher intermediate points, and ties.

use super::Quotation;
use crate::tests::tariffs::{
    BROKEN_FARES, END, MILES, PASSING, PLACES, STOPPING, THROUGH, TIED_FARES,
};

/// Higher intermediate points, and ties.
pub static POINTS: [Quotation; 3] = [
    // The dearer fare to the stopover is the base and a backhaul minimum.
    Quotation {
        source: &[STOPPING, PLACES, THROUGH, BROKEN_FARES, MILES, END],
        text: "EDITION 1 2025-01-01\n\
               LON Q1 PAR Q1 ROM MLONPAR450.00 YYYOW/1 P/1 50.00 NUC500.00END ROE0.750000\n\
               PART 1 LON-ROM UNIT 1 OUT\n\
               FARE 8 YYYOW 400.00\n\
               MILES TPM 1000 EMA 0 NET 1000 MPM 1000 M\n\
               HIP LON-PAR 450.00\n\
               AF 450.00\n\
               UNIT 1 OW SUM 450.00 CHECK BH 500.00 PRICE 500.00\n\
               TOTAL NUC 500.00\n\
               ROE 0.750000\n\
               LOCAL GBP 375\n",
    },
    // It isn't compared with at a transfer.
    Quotation {
        source: &[PASSING, PLACES, THROUGH, BROKEN_FARES, MILES, END],
        text: "EDITION 1 2025-01-01\n\
               LON Q1 X/PAR Q1 ROM M400.00 YYYOW/1 NUC400.00END ROE0.750000\n\
               PART 1 LON-ROM UNIT 1 OUT\n\
               FARE 8 YYYOW 400.00\n\
               MILES TPM 1000 EMA 0 NET 1000 MPM 1000 M\n\
               HIP NONE\n\
               AF 400.00\n\
               UNIT 1 OW SUM 400.00 CHECK NONE PRICE 400.00\n\
               TOTAL NUC 400.00\n\
               ROE 0.750000\n\
               LOCAL GBP 300\n",
    },
    // Of two constructions at one price the one with the longer first part.
    Quotation {
        source: &[PASSING, PLACES, THROUGH, TIED_FARES, MILES, END],
        text: "EDITION 1 2025-01-01\n\
               LON Q1 X/PAR Q1 ROM M400.00 YYYOW/1 NUC400.00END ROE0.750000\n\
               PART 1 LON-ROM UNIT 1 OUT\n\
               FARE 8 YYYOW 400.00\n\
               MILES TPM 1000 EMA 0 NET 1000 MPM 1000 M\n\
               HIP NONE\n\
               AF 400.00\n\
               UNIT 1 OW SUM 400.00 CHECK NONE PRICE 400.00\n\
               TOTAL NUC 400.00\n\
               ROE 0.750000\n\
               LOCAL GBP 300\n",
    },
];
