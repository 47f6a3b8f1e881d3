//! Circle trips, side trips, combinations and open jaws.

use super::Quotation;
use crate::tests::tariffs::{
    END, HALVES, JAW, JAW_FARES, PACIFIC, PACIFIC_FARES, PLACES, RULED_FARES, SIDE_TRIP, STOPPING,
    WORLD, WORLD_FARES,
};

/// Circle trips, side trips, combinations and open jaws.
pub static UNITS: [Quotation; 7] = [
    // A circle minimum.
    Quotation {
        source: &[PACIFIC, PACIFIC_FARES, END],
        text: "EDITION 1 2025-01-01\n\
               LON Q1 TYO 400.00 YYYHR/1 Q1 LAX Q1 LON M390.00 YYYHR/1 P/1 110.00 NUC900.00END ROE0.750000\n\
               PART 1 LON-TYO UNIT 1 OUT\n\
               FARE 8 YYYHR 400.00\n\
               MILES DIRECT\n\
               HIP NONE\n\
               AF 400.00\n\
               PART 2 TYO-LON UNIT 1 BACK\n\
               FARE 9 YYYHR 390.00\n\
               MILES TPM 10000 EMA 0 NET 10000 MPM 12000 M\n\
               HIP NONE\n\
               AF 390.00\n\
               UNIT 1 CT SUM 790.00 CHECK CT 900.00 PRICE 900.00\n\
               TOTAL NUC 900.00\n\
               ROE 0.750000\n\
               LOCAL GBP 675\n",
    },
    // The dearer half makes a round trip, which has no minimum.
    Quotation {
        source: &[
            PACIFIC,
            PACIFIC_FARES,
            "FARE,LON,TYO,AP,Q1,Y,HR,,400.00\n",
            END,
        ],
        text: "EDITION 1 2025-01-01\n\
               LON Q1 TYO 400.00 YYYHR/1 Q1 LAX Q1 LON M400.00 Q1YHR/1 NUC800.00END ROE0.750000\n\
               PART 1 LON-TYO UNIT 1 OUT\n\
               FARE 8 YYYHR 400.00\n\
               MILES DIRECT\n\
               HIP NONE\n\
               AF 400.00\n\
               PART 2 TYO-LON UNIT 1 BACK\n\
               FARE 15 Q1YHR 400.00\n\
               MILES TPM 10000 EMA 0 NET 10000 MPM 12000 M\n\
               HIP NONE\n\
               AF 400.00\n\
               UNIT 1 RT SUM 800.00 CHECK NONE PRICE 800.00\n\
               TOTAL NUC 800.00\n\
               ROE 0.750000\n\
               LOCAL GBP 600\n",
    },
    // A round trip inside a round trip.
    Quotation {
        source: &[SIDE_TRIP, PLACES, HALVES, END],
        text: "EDITION 1 2025-01-01\n\
               LON Q1 PAR 100.00 YYYHR/1 Q1 ROM 80.00 YYYHR/2 Q1 PAR 80.00 YYYHR/2 Q1 LON 100.00 YYYHR/1 NUC360.00END \
               ROE0.750000\n\
               PART 1 LON-PAR UNIT 1 OUT\n\
               FARE 8 YYYHR 100.00\n\
               MILES DIRECT\n\
               HIP NONE\n\
               AF 100.00\n\
               PART 2 PAR-ROM UNIT 2 OUT\n\
               FARE 9 YYYHR 80.00\n\
               MILES DIRECT\n\
               HIP NONE\n\
               AF 80.00\n\
               PART 3 ROM-PAR UNIT 2 BACK\n\
               FARE 9 YYYHR 80.00\n\
               MILES DIRECT\n\
               HIP NONE\n\
               AF 80.00\n\
               PART 4 PAR-LON UNIT 1 BACK\n\
               FARE 8 YYYHR 100.00\n\
               MILES DIRECT\n\
               HIP NONE\n\
               AF 100.00\n\
               UNIT 1 RT SUM 200.00 CHECK NONE PRICE 200.00\n\
               UNIT 2 RT SUM 160.00 CHECK NONE PRICE 160.00\n\
               TOTAL NUC 360.00\n\
               ROE 0.750000\n\
               LOCAL GBP 270\n",
    },
    // The cheaper fare to Paris goes with no other.
    Quotation {
        source: &[STOPPING, PLACES, RULED_FARES, END],
        text: "EDITION 1 2025-01-01\n\
               LON Q1 PAR 200.00 YYYOW/1 Q1 ROM 100.00 YYYOWRB/2 NUC300.00END ROE0.750000\n\
               PART 1 LON-PAR UNIT 1 OUT\n\
               FARE 11 YYYOW 200.00\n\
               MILES DIRECT\n\
               HIP NONE\n\
               AF 200.00\n\
               PART 2 PAR-ROM UNIT 2 OUT\n\
               FARE 12 YYYOWRB 100.00\n\
               MILES DIRECT\n\
               HIP NONE\n\
               AF 100.00\n\
               UNIT 1 OW SUM 200.00 CHECK NONE PRICE 200.00\n\
               UNIT 2 OW SUM 100.00 CHECK NONE PRICE 100.00\n\
               TOTAL NUC 300.00\n\
               ROE 0.750000\n\
               LOCAL GBP 225\n",
    },
    // A circle trip on two carriers.
    Quotation {
        source: &[WORLD, WORLD_FARES, END],
        text: "EDITION 7 2025-01-01\n\
               LON Q1 X/FRA Q1 TYO M1200.00 YYYHRFLEX/1 Q2 LAX Q2 NYC Q2 LON 5M1575.00 YYYHRFLEX/1 P/1 25.00 \
               NUC2800.00END ROE0.750000\n\
               PART 1 LON-TYO UNIT 1 OUT\n\
               FARE 12 YYYHRFLEX 1200.00\n\
               MILES TPM 6300 EMA 0 NET 6300 MPM 7400 M\n\
               HIP NONE\n\
               AF 1200.00\n\
               PART 2 TYO-LON UNIT 1 BACK\n\
               FARE 13 YYYHRFLEX 1500.00\n\
               MILES TPM 11370 EMA 0 NET 11370 MPM 11000 5M\n\
               HIP NONE\n\
               AF 1575.00\n\
               UNIT 1 CT SUM 2775.00 CHECK CT 2800.00 PRICE 2800.00\n\
               TOTAL NUC 2800.00\n\
               ROE 0.750000\n\
               LOCAL GBP 2100\n",
    },
    // An open jaw.
    Quotation {
        source: &[JAW, PLACES, "CITY,LYS,FR,2\n", JAW_FARES, END],
        text: "EDITION 1 2025-01-01\n\
               LON Q1 PAR 100.00 YYYHR/1 // LYS Q1 LON 90.00 YYYHR/1 NUC190.00END ROE0.750000\n\
               PART 1 LON-PAR UNIT 1 OUT\n\
               FARE 9 YYYHR 100.00\n\
               MILES DIRECT\n\
               HIP NONE\n\
               AF 100.00\n\
               PART 2 LYS-LON UNIT 1 BACK\n\
               FARE 10 YYYHR 90.00\n\
               MILES DIRECT\n\
               HIP NONE\n\
               AF 90.00\n\
               UNIT 1 OJ SUM 190.00 CHECK NONE PRICE 190.00\n\
               TOTAL NUC 190.00\n\
               ROE 0.750000\n\
               LOCAL GBP 143\n",
    },
    // No open jaw over a border.
    Quotation {
        source: &[JAW, PLACES, "CITY,LYS,IT,2\n", JAW_FARES, END],
        text: "EDITION 1 2025-01-01\nNO FARE\n",
    },
];
