//! Worked quotations, each with its tariff and its trip.

use super::quotations::Case;

/// A circle trip with its minimum, a higher intermediate point with a backhaul minimum, and a trip without a fare.
pub static WORKED: [Case; 3] = [
    // A circle trip on two carriers, with a surcharge and a circle minimum.
    Case {
        tariff: "HEAD,1,7,2025-01-01\n\
                 CUR,GB,GBP,0.750000,0,1,U\n\
                 CUR,DE,EUR,0.900000,2,1,N\n\
                 CUR,JP,JPY,110.000000,0,100,U\n\
                 CUR,US,USD,1.000000,2,1,N\n\
                 CITY,LON,GB,2\n\
                 CITY,FRA,DE,2\n\
                 CITY,TYO,JP,3\n\
                 CITY,LAX,US,1\n\
                 CITY,NYC,US,1\n\
                 RULE,FLEX,5,5,0,3,365,Y,*,*\n\
                 FARE,LON,TYO,EH,YY,Y,HR,FLEX,1200.00\n\
                 FARE,LON,TYO,AP,YY,Y,HR,FLEX,1500.00\n\
                 FARE,LON,LAX,PA,YY,Y,HR,FLEX,1300.00\n\
                 FARE,LON,NYC,PA,YY,Y,HR,FLEX,1400.00\n\
                 FARE,LON,LAX,AT,YY,Y,HR,FLEX,900.00\n\
                 FARE,LON,NYC,AT,YY,Y,HR,FLEX,700.00\n\
                 TPM,LON,FRA,400\n\
                 TPM,FRA,TYO,5900\n\
                 TPM,TYO,LAX,5450\n\
                 TPM,LAX,NYC,2470\n\
                 TPM,NYC,LON,3450\n\
                 MPM,LON,TYO,EH,7400\n\
                 MPM,LON,TYO,AP,11000\n\
                 END\n",
        trip: r#"{"sale":"2025-03-01","from":"LON","sectors":[{"to":"FRA","carrier":"Q1","day":"2025-04-10","cabin":"Y","stop":false},{"to":"TYO","carrier":"Q1","day":"2025-04-10","cabin":"Y"},{"to":"LAX","carrier":"Q2","day":"2025-04-20","cabin":"Y"},{"to":"NYC","carrier":"Q2","day":"2025-04-25","cabin":"Y"},{"to":"LON","carrier":"Q2","day":"2025-05-01","cabin":"Y"}]}"#,
        text: r#"{"edition":{"effective":"2025-01-01","number":7},"quotation":{"line":"LON Q1 X/FRA Q1 TYO M1200.00 YYYHRFLEX/1 Q2 LAX Q2 NYC Q2 LON 5M1575.00 YYYHRFLEX/1 P/1 25.00 NUC2800.00END ROE0.750000","local":{"amount":"2100","currency":"GBP"},"parts":[{"amount":"1200.00","back":false,"fare":{"carrier":"YY","class":"Y","kind":"HR","record":12,"rule":"FLEX"},"filed":"1200.00","from":"LON","hip":null,"miles":{"ema":0,"mpm":7400,"net":6300,"surcharge":0,"tpm":6300},"sectors":[1,2],"to":"TYO","unit":1},{"amount":"1575.00","back":true,"fare":{"carrier":"YY","class":"Y","kind":"HR","record":13,"rule":"FLEX"},"filed":"1500.00","from":"TYO","hip":null,"miles":{"ema":0,"mpm":11000,"net":11370,"surcharge":5,"tpm":11370},"sectors":[3,4,5],"to":"LON","unit":1}],"roe":"0.750000","total":"2800.00","units":[{"kind":"CT","minimum":{"amount":"2800.00","check":"CT"},"number":1,"price":"2800.00","sum":"2775.00"}]}}"#,
    },
    // A higher intermediate point and a backhaul minimum.
    Case {
        tariff: "HEAD,1,1,2025-01-01\n\
                 CUR,GB,GBP,0.750000,0,1,U\n\
                 CUR,FR,EUR,0.900000,2,1,N\n\
                 CUR,IT,EUR,0.900000,2,1,N\n\
                 CITY,LON,GB,2\n\
                 CITY,PAR,FR,2\n\
                 CITY,ROM,IT,2\n\
                 FARE,LON,ROM,EH,YY,Y,OW,,400.00\n\
                 FARE,LON,PAR,EH,YY,Y,OW,,450.00\n\
                 FARE,PAR,ROM,EH,YY,Y,OW,,200.00\n\
                 TPM,LON,PAR,300\n\
                 TPM,PAR,ROM,700\n\
                 MPM,LON,ROM,EH,1000\n\
                 END\n",
        trip: r#"{"sale":"2025-03-01","from":"LON","sectors":[{"to":"PAR","carrier":"Q1","day":"2025-04-10","cabin":"Y"},{"to":"ROM","carrier":"Q1","day":"2025-04-12","cabin":"Y"}]}"#,
        text: r#"{"edition":{"effective":"2025-01-01","number":1},"quotation":{"line":"LON Q1 PAR Q1 ROM MLONPAR450.00 YYYOW/1 P/1 50.00 NUC500.00END ROE0.750000","local":{"amount":"375","currency":"GBP"},"parts":[{"amount":"450.00","back":false,"fare":{"carrier":"YY","class":"Y","kind":"OW","record":8,"rule":null},"filed":"400.00","from":"LON","hip":{"amount":"450.00","from":"LON","to":"PAR"},"miles":{"ema":0,"mpm":1000,"net":1000,"surcharge":0,"tpm":1000},"sectors":[1,2],"to":"ROM","unit":1}],"roe":"0.750000","total":"500.00","units":[{"kind":"OW","minimum":{"amount":"500.00","check":"BH"},"number":1,"price":"500.00","sum":"450.00"}]}}"#,
    },
    // No fare, where the miles are too many.
    Case {
        tariff: "HEAD,1,1,2025-01-01\n\
                 CUR,GB,GBP,0.750000,0,1,U\n\
                 CUR,FR,EUR,0.900000,2,1,N\n\
                 CUR,IT,EUR,0.900000,2,1,N\n\
                 CITY,LON,GB,2\n\
                 CITY,PAR,FR,2\n\
                 CITY,ROM,IT,2\n\
                 FARE,LON,ROM,EH,YY,Y,OW,,400.00\n\
                 TPM,LON,PAR,300\n\
                 TPM,PAR,ROM,951\n\
                 MPM,LON,ROM,EH,1000\n\
                 END\n",
        trip: r#"{"sale":"2025-03-01","from":"LON","sectors":[{"to":"PAR","carrier":"Q1","day":"2025-04-10","cabin":"Y"},{"to":"ROM","carrier":"Q1","day":"2025-04-12","cabin":"Y"}]}"#,
        text: r#"{"edition":{"effective":"2025-01-01","number":1},"quotation":null}"#,
    },
];

/// Two constructions at one price.
pub static FIRST: [Case; 2] = [
    // The one with the longer first part stands first.
    Case {
        tariff: "HEAD,1,1,2025-01-01\n\
                 CUR,GB,GBP,0.750000,0,1,U\n\
                 CUR,FR,EUR,0.900000,2,1,N\n\
                 CUR,IT,EUR,0.900000,2,1,N\n\
                 CITY,LON,GB,2\n\
                 CITY,PAR,FR,2\n\
                 CITY,ROM,IT,2\n\
                 FARE,LON,ROM,EH,YY,Y,OW,,400.00\n\
                 TPM,LON,PAR,300\n\
                 TPM,PAR,ROM,700\n\
                 MPM,LON,ROM,EH,1000\n\
                 FARE,LON,PAR,EH,YY,Y,OW,,150.00\n\
                 FARE,PAR,ROM,EH,YY,Y,OW,,250.00\n\
                 END\n",
        trip: r#"{"sale":"2025-03-01","from":"LON","sectors":[{"to":"PAR","carrier":"Q1","day":"2025-04-10","cabin":"Y","stop":false},{"to":"ROM","carrier":"Q1","day":"2025-04-12","cabin":"Y"}]}"#,
        text: r#"{"best":[{"line":"LON Q1 X/PAR Q1 ROM M400.00 YYYOW/1 NUC400.00END ROE0.750000","total":"400.00"},{"line":"LON Q1 X/PAR 150.00 YYYOW/1 Q1 ROM 250.00 YYYOW/2 NUC400.00END ROE0.750000","total":"400.00"}],"edition":{"effective":"2025-01-01","number":1}}"#,
    },
    // None.
    Case {
        tariff: "HEAD,1,1,2025-01-01\n\
                 CUR,GB,GBP,0.750000,0,1,U\n\
                 CUR,FR,EUR,0.900000,2,1,N\n\
                 CUR,IT,EUR,0.900000,2,1,N\n\
                 CITY,LON,GB,2\n\
                 CITY,PAR,FR,2\n\
                 CITY,ROM,IT,2\n\
                 FARE,LON,ROM,EH,YY,Y,OW,,400.00\n\
                 TPM,LON,PAR,300\n\
                 TPM,PAR,ROM,951\n\
                 MPM,LON,ROM,EH,1000\n\
                 END\n",
        trip: r#"{"sale":"2025-03-01","from":"LON","sectors":[{"to":"PAR","carrier":"Q1","day":"2025-04-10","cabin":"Y"},{"to":"ROM","carrier":"Q1","day":"2025-04-12","cabin":"Y"}]}"#,
        text: r#"{"best":[],"edition":{"effective":"2025-01-01","number":1}}"#,
    },
];
