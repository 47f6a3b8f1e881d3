//! Trips whose texts come from a separate plain program that enumerates.

use super::first::Case;

/// Trips of two, four and five sectors.
pub static COMPUTED: [Case; 3] = [
    // Fewer are asked for than are lawful.
    Case {
        tariff: "HEAD,2,14,2025-01-01\n\
                 FARE,FRA,PAR,WH,YY,Y,HR,FLEX,09-25,12-12,101.67\n\
                 FARE,FRA,PAR,AT,YY,Y,HR,,01-01,12-31,100.00\n\
                 FARE,PAR,FRA,AT,YY,Y,OW,,12-29,06-14,150.00\n\
                 FARE,FRA,MIL,PA,YY,Y,OW,FLEX,07-01,03-14,300.00\n\
                 CUR,IT,EUR,0.000001,0,10000,N\n\
                 FARE,FRA,PAR,AT,YY,Y,OW,,10-31,11-14,200.00\n\
                 FARE,MAN,PAR,EH,YY,Y,HR,FLEX,03-03,10-05,50.00\n\
                 FARE,FRA,MIL,PA,YY,Y,OW,FLEX,03-15,06-30,288.52\n\
                 FARE,FRA,PAR,AT,YY,Y,OW,FLEX,03-20,09-09,150.00\n\
                 FARE,FRA,PAR,AT,YY,Y,OW,,01-04,10-30,155.27\n\
                 CITY,MIL,IT,2\n\
                 RULE,SAVER21,1,16,21,3,999,N,SAVER21 -,*\n\
                 CUR,FR,EUR,0.750000,1,1,U\n\
                 TPM,FRA,PAR,1079\n\
                 CITY,FRA,DE,1\n\
                 CITY,PAR,FR,2\n\
                 FARE,FRA,PAR,WH,YY,Y,HR,FLEX,12-13,07-31,100.00\n\
                 FARE,PAR,FRA,AT,YY,Y,OW,,06-25,12-28,150.00\n\
                 FARE,PAR,FRA,AT,YY,Y,HR,FLEX,01-01,12-31,198.73\n\
                 FARE,FRA,PAR,AT,YY,Y,OW,FLEX,09-10,01-16,175.01\n\
                 FARE,PAR,FRA,AT,YY,C,HR,,01-01,12-31,150.00\n\
                 CITY,MAN,GB,2\n\
                 FARE,PAR,FRA,AT,YY,Y,OW,,06-15,06-24,200.00\n\
                 FARE,MIL,PAR,AP,YY,Y,HR,FLEX,03-26,06-14,400.00\n\
                 FARE,FRA,PAR,AT,YY,Y,HR,FLEX,01-01,12-31,126.96\n\
                 TPM,MIL,MAN,2768\n\
                 TPM,FRA,MAN,1028\n\
                 FARE,FRA,PAR,WH,YY,Y,HR,FLEX,08-01,09-24,100.00\n\
                 FARE,MIL,PAR,AP,YY,Y,HR,FLEX,10-11,03-25,296.10\n\
                 RULE,FLEX,0,16,0,0,365,N,*,*\n\
                 CUR,GB,GBP,0.750000,2,10000,N\n\
                 FARE,MAN,PAR,EH,YY,Y,HR,FLEX,10-06,03-02,50.00\n\
                 CUR,DE,EUR,110.000000,2,1,U\n\
                 FARE,FRA,PAR,AT,YY,C,HR,,07-09,11-21,200.00\n\
                 FARE,FRA,PAR,AT,YY,C,HR,,11-22,07-08,150.00\n\
                 FARE,FRA,PAR,AT,YY,C,OW,,01-13,02-26,247.24\n\
                 FARE,FRA,PAR,AT,YY,Y,OW,FLEX,01-17,03-19,200.00\n\
                 FARE,FRA,PAR,AT,YY,Y,OW,,11-15,01-03,146.63\n\
                 FARE,MIL,PAR,AP,YY,Y,HR,FLEX,06-15,10-10,250.00\n\
                 END\n",
        trip: r#"{"sale":"2025-03-28","from":"FRA","sectors":[{"to":"PAR","carrier":"Q2","day":"2025-04-27","cabin":"Y","over":"","stop":true},{"to":"FRA","carrier":"Q2","day":"2025-05-11","cabin":"Y","over":""}]}"#,
        k: 6,
        text: "EDITION 14 2025-01-01\n\
               BEST 1 200.00\n\
               FRA Q2 PAR 100.00 YYYHR/1 Q2 FRA 100.00 YYYHR/1 NUC200.00END ROE110.000000\n\
               BEST 2 226.96\n\
               FRA Q2 PAR 100.00 YYYHR/1 Q2 FRA 126.96 YYYHRFLEX/1 NUC226.96END ROE110.000000\n\
               BEST 3 250.00\n\
               FRA Q2 PAR 100.00 YYYHR/1 Q2 FRA 150.00 YYCHR/1 NUC250.00END ROE110.000000\n\
               BEST 4 253.92\n\
               FRA Q2 PAR 126.96 YYYHRFLEX/1 Q2 FRA 100.00 YYYHR/1 P/1 26.96 NUC253.92END ROE110.000000\n\
               BEST 5 253.92\n\
               FRA Q2 PAR 126.96 YYYHRFLEX/1 Q2 FRA 126.96 YYYHRFLEX/1 NUC253.92END ROE110.000000\n\
               BEST 6 276.96\n\
               FRA Q2 PAR 126.96 YYYHRFLEX/1 Q2 FRA 150.00 YYCHR/1 NUC276.96END ROE110.000000\n",
    },
    // Ten over four sectors.
    Case {
        tariff: "HEAD,1,81,2025-06-01\n\
                 FARE,YYZ,LAX,PA,YY,Y,OW,FLEX,250.00\n\
                 FARE,LAX,YYZ,PA,YY,Y,HR,,150.00\n\
                 CUR,CA,CAD,1234567.654321,0,100,N\n\
                 FARE,NYC,LAX,PA,YY,Y,OW,,292.66\n\
                 EMA,LAX,YYZ,PA,,5192\n\
                 TPM,LAX,NYC,1677\n\
                 FARE,NYC,YYZ,PA,YY,Y,OW,FLEX,150.00\n\
                 FARE,NYC,YYZ,PA,YY,Y,HR,FLEX,210.60\n\
                 FARE,NYC,YYZ,PA,YY,Y,HR,,150.00\n\
                 FARE,YYZ,NYC,PA,YY,Y,OW,,190.09\n\
                 FARE,LAX,NYC,PA,YY,Y,HR,,236.62\n\
                 FARE,LAX,YYZ,PA,YY,Y,OW,FLEX,215.89\n\
                 FARE,LAX,NYC,PA,YY,Y,HR,FLEX,350.00\n\
                 FARE,NYC,LAX,PA,YY,Y,HR,FLEX,250.00\n\
                 FARE,LAX,YYZ,PA,YY,Y,HR,FLEX,200.00\n\
                 FARE,NYC,LAX,PA,YY,Y,OW,FLEX,408.33\n\
                 FARE,YYZ,NYC,PA,YY,Y,HR,FLEX,200.00\n\
                 CUR,US,USD,0.000001,2,1,U\n\
                 FARE,YYZ,LAX,PA,YY,Y,HR,FLEX,205.19\n\
                 FARE,NYC,LAX,PA,YY,Y,HR,,150.00\n\
                 TPM,YYZ,NYC,919\n\
                 FARE,YYZ,LAX,PA,YY,Y,OW,,150.00\n\
                 CITY,NYC,US,3\n\
                 FARE,YYZ,NYC,PA,YY,Y,HR,,190.19\n\
                 CITY,YYZ,CA,1\n\
                 RULE,FLEX,16,16,0,3,15,Y,*,*\n\
                 MPM,LAX,YYZ,PA,3081\n\
                 FARE,NYC,YYZ,PA,YY,Y,OW,,100.00\n\
                 FARE,YYZ,LAX,PA,YY,Y,HR,,150.00\n\
                 FARE,LAX,YYZ,PA,YY,Y,OW,,177.73\n\
                 FARE,YYZ,NYC,PA,YY,Y,OW,FLEX,275.14\n\
                 CITY,LAX,US,1\n\
                 FARE,LAX,NYC,PA,YY,Y,OW,FLEX,350.00\n\
                 END\n",
        trip: r#"{"sale":"2025-08-29","from":"LAX","sectors":[{"to":"NYC","carrier":"Q2","day":"2025-09-03","cabin":"Y","over":"PA","stop":true},{"to":"YYZ","carrier":"Q2","day":"2025-09-05","cabin":"Y","over":"","stop":false},{"to":"NYC","carrier":"Q1","day":"2025-09-12","cabin":"Y","over":""},{"to":"LAX","carrier":"Q2","day":"2025-09-12","cabin":"Y","over":"PA"}]}"#,
        k: 10,
        text: "EDITION 81 2025-06-01\n\
               BEST 1 470.39\n\
               LAX Q2 NYC Q2 X/YYZ M177.73 YYYOW/1 Q1 NYC Q2 LAX MNYCLAX292.66 YYYOW/2 NUC470.39END ROE0.000001\n\
               BEST 2 473.24\n\
               LAX Q2 NYC Q2 X/YYZ MLAXNYC236.62 YYYHR/1 Q1 NYC Q2 LAX MLAXNYC236.62 YYYHR/1 NUC473.24END ROE0.000001\n\
               BEST 3 586.06\n\
               LAX Q2 NYC Q2 X/YYZ M177.73 YYYOW/1 Q1 NYC Q2 LAX MNYCLAX408.33 YYYOWFLEX/2 NUC586.06END ROE0.000001\n\
               BEST 4 623.24\n\
               LAX Q2 NYC Q2 X/YYZ MLAXNYC236.62 YYYHR/1 Q1 NYC 150.00 YYYHR/1 Q2 LAX 236.62 YYYHR/1 NUC623.24END ROE0.000001\n\
               BEST 5 623.24\n\
               LAX Q2 NYC 236.62 YYYHR/1 Q2 X/YYZ 150.00 YYYHR/1 Q1 NYC Q2 LAX MLAXNYC236.62 YYYHR/1 NUC623.24END ROE0.000001\n\
               BEST 6 660.48\n\
               LAX Q2 NYC Q2 X/YYZ M177.73 YYYOW/1 Q1 NYC 190.09 YYYOW/2 Q2 LAX 292.66 YYYOW/3 NUC660.48END ROE0.000001\n\
               BEST 7 679.28\n\
               LAX Q2 NYC Q2 X/YYZ MLAXNYC236.62 YYYHR/1 Q1 NYC 150.00 YYYHR/1 Q2 LAX 292.66 YYYOW/2 NUC679.28END ROE0.000001\n\
               BEST 8 683.84\n\
               LAX Q2 NYC 236.62 YYYHR/1 Q2 X/YYZ 210.60 YYYHRFLEX/1 Q1 NYC Q2 LAX MLAXNYC236.62 YYYHR/1 NUC683.84END ROE0.000001\n\
               BEST 9 700.00\n\
               LAX Q2 NYC Q2 X/YYZ MLAXNYC236.62 YYYHR/1 Q1 NYC Q2 LAX MLAXNYC350.00 YYYHRFLEX/1 P/1 113.38 NUC700.00END ROE0.000001\n\
               BEST 10 700.00\n\
               LAX Q2 NYC Q2 X/YYZ MLAXNYC236.62 YYYHR/1 Q1 NYC 210.60 YYYHRFLEX/1 Q2 LAX 236.62 YYYHR/1 P/1 16.16 NUC700.00END ROE0.000001\n",
    },
    // Five over five sectors, of which one is made by own means.
    Case {
        tariff: "HEAD,1,95,2025-01-01\n\
                 CUR,AU,AUD,1.000000,1,10,U\n\
                 CUR,FR,EUR,0.000001,1,1,N\n\
                 CUR,GB,GBP,1.000000,2,10000,U\n\
                 CUR,IT,EUR,1.000000,0,5,U\n\
                 CUR,US,USD,0.912345,1,10,N\n\
                 CITY,NYC,US,1\n\
                 CITY,LON,GB,2\n\
                 CITY,ROM,IT,1\n\
                 CITY,SYD,AU,3\n\
                 CITY,LAX,US,1\n\
                 CITY,LYS,FR,2\n\
                 CITY,PAR,FR,2\n\
                 FARE,NYC,ROM,WH,YY,Y,OW,,50.00\n\
                 FARE,NYC,ROM,WH,YY,Y,HR,,100.00\n\
                 FARE,ROM,NYC,WH,YY,Y,HR,,111.37\n\
                 FARE,ROM,LAX,WH,YY,Y,OW,,153.04\n\
                 FARE,ROM,LAX,WH,YY,Y,HR,,100.00\n\
                 FARE,LAX,ROM,WH,YY,Y,HR,,150.00\n\
                 FARE,PAR,LON,EH,YY,Y,OW,,250.00\n\
                 FARE,PAR,LON,EH,YY,Y,HR,,150.00\n\
                 FARE,LON,PAR,EH,YY,Y,HR,,150.00\n\
                 FARE,LYS,PAR,EH,YY,Y,HR,,169.92\n\
                 FARE,LON,LYS,EH,YY,Y,OW,,101.60\n\
                 FARE,LON,LYS,EH,YY,Y,HR,,100.00\n\
                 FARE,LYS,LON,EH,YY,Y,HR,,100.00\n\
                 FARE,NYC,LAX,WH,YY,Y,OW,,100.00\n\
                 FARE,NYC,LON,AT,YY,Y,OW,,367.55\n\
                 FARE,NYC,LYS,AT,YY,Y,OW,,350.00\n\
                 FARE,PAR,LYS,EH,YY,Y,HR,,200.00\n\
                 FARE,NYC,LYS,AT,YY,Y,HR,,290.14\n\
                 FARE,LON,LAX,AT,YY,Y,HR,,453.54\n\
                 MPM,LAX,NYC,WH,1468\n\
                 MPM,PAR,LYS,EH,2117\n\
                 TPM,NYC,ROM,414\n\
                 TPM,NYC,SYD,2774\n\
                 TPM,NYC,LAX,531\n\
                 TPM,LON,ROM,3334\n\
                 TPM,LON,LYS,654\n\
                 TPM,LON,PAR,1410\n\
                 TPM,ROM,LAX,872\n\
                 TPM,ROM,LYS,2685\n\
                 TPM,ROM,PAR,2571\n\
                 TPM,SYD,LYS,741\n\
                 TPM,SYD,PAR,817\n\
                 TPM,LAX,LYS,2196\n\
                 TPM,LAX,PAR,1828\n\
                 EMA,LAX,NYC,WH,NYC,2572\n\
                 END\n",
        trip: r#"{"sale":"2025-01-30","from":"NYC","sectors":[{"to":"ROM","carrier":"Q2","day":"2025-01-30","cabin":"Y","over":"","stop":false},{"to":"LAX","carrier":"Q2","day":"2025-02-13","cabin":"Y","over":""},{"to":"PAR","carrier":"Q2","day":"2025-02-13","cabin":"Y","over":"","stop":true,"surface":true},{"to":"LON","carrier":"Q2","day":"2025-02-14","cabin":"Y","over":"","stop":false},{"to":"LYS","carrier":"Q2","day":"2025-02-28","cabin":"Y","over":"PA"}]}"#,
        k: 5,
        text: "EDITION 95 2025-01-01\n\
               BEST 1 350.00\n\
               NYC Q2 X/ROM Q2 LAX M100.00 YYYOW/1 // PAR Q2 X/LON 150.00 YYYHR/2 Q2 LYS 100.00 YYYHR/2 NUC350.00END ROE0.912345\n\
               BEST 2 451.60\n\
               NYC Q2 X/ROM Q2 LAX M100.00 YYYOW/1 // PAR Q2 X/LON 250.00 YYYOW/2 Q2 LYS 101.60 YYYOW/3 NUC451.60END ROE0.912345\n\
               BEST 3 453.04\n\
               NYC Q2 X/ROM 50.00 YYYOW/1 Q2 LAX 153.04 YYYOW/2 // PAR Q2 X/LON 150.00 YYYHR/3 Q2 LYS 100.00 YYYHR/3 NUC453.04END ROE0.912345\n\
               BEST 4 500.00\n\
               NYC Q2 X/ROM 100.00 YYYHR/1 Q2 LAX 150.00 YYYHR/1 // PAR Q2 X/LON 150.00 YYYHR/2 Q2 LYS 100.00 YYYHR/2 NUC500.00END ROE0.912345\n\
               BEST 5 554.64\n\
               NYC Q2 X/ROM 50.00 YYYOW/1 Q2 LAX 153.04 YYYOW/2 // PAR Q2 X/LON 250.00 YYYOW/3 Q2 LYS 101.60 YYYOW/4 NUC554.64END ROE0.912345\n",
    },
];
