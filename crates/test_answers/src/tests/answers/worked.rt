//! Worked trips between three cities.

use super::first::Case;

/// Trips from London by Paris to Rome.
pub static WORKED: [Case; 3] = [
    // Two constructions at one price, the one with the longer first part first.
    Case {
        tariff: "HEAD,1,1,2025-01-01\n\
                 CUR,GB,GBP,0.750000,0,1,U\n\
                 CUR,FR,EUR,0.900000,2,1,N\n\
                 CUR,IT,EUR,0.900000,2,1,N\n\
                 CITY,LON,GB,2\n\
                 CITY,PAR,FR,2\n\
                 CITY,ROM,IT,2\n\
                 FARE,LON,ROM,EH,YY,Y,OW,,400.00\n\
                 TPM,LON,PAR,300\n\
                 TPM,PAR,ROM,700\n\
                 MPM,LON,ROM,EH,1000\n\
                 FARE,LON,PAR,EH,YY,Y,OW,,150.00\n\
                 FARE,PAR,ROM,EH,YY,Y,OW,,250.00\n\
                 END\n",
        trip: r#"{"sale":"2025-03-01","from":"LON","sectors":[{"to":"PAR","carrier":"Q1","day":"2025-04-10","cabin":"Y","stop":false},{"to":"ROM","carrier":"Q1","day":"2025-04-12","cabin":"Y"}]}"#,
        k: 3,
        text: "EDITION 1 2025-01-01\n\
               BEST 1 400.00\n\
               LON Q1 X/PAR Q1 ROM M400.00 YYYOW/1 NUC400.00END ROE0.750000\n\
               BEST 2 400.00\n\
               LON Q1 X/PAR 150.00 YYYOW/1 Q1 ROM 250.00 YYYOW/2 NUC400.00END ROE0.750000\n",
    },
    // One, where rules that don't combine leave no other.
    Case {
        tariff: "HEAD,1,1,2025-01-01\n\
                 CUR,GB,GBP,0.750000,0,1,U\n\
                 CUR,FR,EUR,0.900000,2,1,N\n\
                 CUR,IT,EUR,0.900000,2,1,N\n\
                 CITY,LON,GB,2\n\
                 CITY,PAR,FR,2\n\
                 CITY,ROM,IT,2\n\
                 RULE,RA,9,9,0,0,365,Y,*,RA\n\
                 RULE,RB,9,9,0,0,365,Y,*,*\n\
                 FARE,LON,PAR,EH,YY,Y,OW,RA,150.00\n\
                 FARE,LON,PAR,EH,YY,Y,OW,,200.00\n\
                 FARE,PAR,ROM,EH,YY,Y,OW,RB,100.00\n\
                 END\n",
        trip: r#"{"sale":"2025-03-01","from":"LON","sectors":[{"to":"PAR","carrier":"Q1","day":"2025-04-10","cabin":"Y"},{"to":"ROM","carrier":"Q1","day":"2025-04-12","cabin":"Y"}]}"#,
        k: 10,
        text: "EDITION 1 2025-01-01\n\
               BEST 1 300.00\n\
               LON Q1 PAR 200.00 YYYOW/1 Q1 ROM 100.00 YYYOWRB/2 NUC300.00END ROE0.750000\n",
    },
    // None, where the miles of a sector aren't filed.
    Case {
        tariff: "HEAD,1,1,2025-01-01\n\
                 CUR,GB,GBP,0.750000,0,1,U\n\
                 CUR,FR,EUR,0.900000,2,1,N\n\
                 CUR,IT,EUR,0.900000,2,1,N\n\
                 CITY,LON,GB,2\n\
                 CITY,PAR,FR,2\n\
                 CITY,ROM,IT,2\n\
                 FARE,LON,ROM,EH,YY,Y,OW,,400.00\n\
                 TPM,LON,PAR,300\n\
                 MPM,LON,ROM,EH,1000\n\
                 END\n",
        trip: r#"{"sale":"2025-03-01","from":"LON","sectors":[{"to":"PAR","carrier":"Q1","day":"2025-04-10","cabin":"Y"},{"to":"ROM","carrier":"Q1","day":"2025-04-12","cabin":"Y"}]}"#,
        k: 2,
        text: "EDITION 1 2025-01-01\n\
               NO FARE\n",
    },
];
