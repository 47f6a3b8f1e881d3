//! Lines by the answers of a separate program: gaps, marks, carriers and seasons.

use super::Presented;

/// Lines with their verdicts.
#[rattlefmt::skip]
pub(super) static SURFACE: [Presented; 6] = [
    Presented {
        edition: "HEAD,1,67,2025-01-01\nCUR,CA,CAD,1234567.654321,1,100,N\nCUR,GB,GBP,0.750000,1,10,N\nCUR,IT,EUR,0.750000,1,10,N\nCITY,YYZ,CA,1\nCITY,MAN,GB,2\nCITY,ROM,IT,2\nFARE,YYZ,ROM,AT,YY,Y,OW,,204.79\nFARE,ROM,YYZ,AT,YY,Y,HR,,150.00\nFARE,YYZ,ROM,AT,YY,C,OW,,300.00\nFARE,YYZ,ROM,AT,YY,C,HR,,350.00\nFARE,MAN,YYZ,AT,YY,Y,OW,,450.00\nFARE,MAN,YYZ,AT,YY,Y,HR,,350.00\nFARE,YYZ,MAN,AT,YY,Y,HR,,316.82\nFARE,MAN,YYZ,AT,YY,C,OW,,601.69\nFARE,ROM,YYZ,AP,YY,C,OW,,300.00\nTPM,YYZ,MAN,2204\nTPM,YYZ,ROM,1305\nTPM,MAN,ROM,2150\nEND\n",
        trip: "{\"from\":\"YYZ\",\"sale\":\"2025-09-11\",\"sectors\":[{\"cabin\":\"Y\",\"carrier\":\"7Z\",\"day\":\"2025-10-11\",\"over\":\"AT\",\"stop\":true,\"surface\":false,\"to\":\"ROM\"},{\"cabin\":\"Y\",\"carrier\":\"Q1\",\"day\":\"2025-10-11\",\"over\":\"PA\",\"stop\":true,\"surface\":true,\"to\":\"MAN\"},{\"cabin\":\"Y\",\"carrier\":\"Q1\",\"day\":\"2025-10-14\",\"over\":\"\",\"stop\":false,\"surface\":false,\"to\":\"YYZ\"}]}",
        lines: &[
            ("YYZ 7Z ROM 300.00 YYCOW/1 // MAN Q1 YYZ 601.69 YYCOW/2 NUC901.69END ROE1234567.654321", "LAWFUL 901.69 OVER 246.90\n"),
            ("YYZ 7Z ROM 300.00 YYCOW/1 // MAN Q1 YYZ 601.69 YYCOW/2 NUC901.70END ROE1234567.654321", "FIGURES 3\n"),
            ("YYZ 7Z ROM 300.00 YYCOW/2 // MAN Q1 YYZ 601.69 YYCOW/1 NUC901.69END ROE1234567.654321", "BROKEN 2 1\n"),
            ("YYZ 7Z ROM 204.79 YYYOW/1 // MAN Q1 YYZ 601.69 YYCOW/2 P/1 1.00 NUC806.48END ROE1234567.654321", "FIGURES 3\n"),
        ],
    },
    Presented {
        edition: "HEAD,1,43,2025-01-01\nCUR,AU,AUD,0.000001,0,5,U\nCUR,IT,EUR,0.912345,2,100,U\nCUR,US,USD,110.000000,2,10000,N\nCITY,SYD,AU,1\nCITY,LAX,US,1\nCITY,ROM,IT,2\nRULE,B2,0,16,21,0,30,Y,*,FLEX B2\nRULE,FLEX,1,5,0,0,999,N,*,- SAVER21 FLEX\nRULE,SAVER21,0,0,7,0,999,Y,FLEX - GHOST,*\nFARE,SYD,ROM,AT,YY,Y,OW,,232.28\nFARE,SYD,ROM,AT,YY,Y,HR,,186.54\nFARE,ROM,SYD,AT,YY,Y,OW,,273.57\nTPM,SYD,ROM,1255\nEND\n",
        trip: "{\"from\":\"SYD\",\"sale\":\"2025-03-13\",\"sectors\":[{\"cabin\":\"Y\",\"carrier\":\"Q2\",\"day\":\"2025-05-12\",\"over\":\"AT\",\"stop\":false,\"surface\":false,\"to\":\"ROM\"},{\"cabin\":\"Y\",\"carrier\":\"Q2\",\"day\":\"2025-05-15\",\"over\":\"PA\",\"stop\":false,\"surface\":false,\"to\":\"SYD\"}]}",
        lines: &[
            ("SYD Q2 X/ROM 232.28 YYYOW/1 Q2 SYD 273.57 YYYOW/2 NUC505.85END ROE0.000001", "LAWFUL 505.85 OVER 132.77\n"),
            ("SYD Q2 X/ROM 186.54 YYYHR/1 Q2 SYD 186.54 YYYHR/1 NUC373.08END ROE0.000001", "LAWFUL 373.08 OVER 0.00\n"),
            ("SYD Q2 X/ROM 232.28 YYYOW/1 Q2 SYD 273.57 YYYOW/2 NUC505.86END ROE0.000001", "FIGURES 3\n"),
            ("SYD Q2 X/ROM 186.54 YYYHR/1 Q2 SYD 186.55 YYYHR/1 NUC373.08END ROE0.000001", "FIGURES 2\n"),
        ],
    },
    Presented {
        edition: "HEAD,1,95,2025-01-01\nFARE,ROM,PAR,EH,Q2,F,OW,,485.71\nTPM,LYS,MIL,3098\nCITY,MIL,IT,2\nCITY,LYS,FR,2\nCUR,IT,EUR,1234567.654321,2,1,N\nCUR,FR,EUR,110.000000,1,100,N\nCUR,DE,EUR,0.912345,2,10,N\nTPM,ROM,FRA,2106\nTPM,PAR,FRA,1266\nTPM,LYS,FRA,1305\nCITY,FRA,DE,2\nFARE,LYS,ROM,EH,Q2,F,OW,,800.00\nFARE,ROM,PAR,WH,Q2,F,HR,,450.00\nRULE,A,16,2,0,6,15,N,GHOST -,*\nFARE,ROM,PAR,EH,YY,Y,OW,,177.85\nCITY,PAR,FR,2\nCITY,ROM,IT,2\nTPM,ROM,PAR,1059\nTPM,MIL,FRA,2008\nEND\n",
        trip: "{\"from\":\"ROM\",\"sale\":\"2025-02-16\",\"sectors\":[{\"cabin\":\"Y\",\"carrier\":\"Q1\",\"day\":\"2025-02-21\",\"over\":\"AT\",\"stop\":false,\"surface\":false,\"to\":\"PAR\"}]}",
        lines: &[
            ("ROM Q1 PAR 177.85 YYCOW/1 NUC177.85END ROE1234567.654321", "NO RECORD 1\n"),
            ("ROM Q1 PAR 177.85 YYYOW/1 NUC177.85END ROE1234567.654321", "LAWFUL 177.85 OVER 0.00\n"),
            ("PAR Q1 PAR 177.85 YYYOW/1 NUC177.85END ROE1234567.654321", "OTHER TRIP 0\n"),
        ],
    },
    Presented {
        edition: "HEAD,1,6,2025-01-01\nCUR,AU,AUD,0.750000,0,10000,N\nCUR,DE,EUR,0.750000,2,5,U\nCUR,GB,GBP,0.000001,1,10,N\nCUR,JP,JPY,110.000000,1,1,N\nCUR,US,USD,1234567.654321,1,100,U\nCITY,FRA,DE,2\nCITY,MAN,GB,2\nCITY,LAX,US,1\nCITY,SYD,AU,3\nCITY,TYO,JP,3\nFARE,FRA,TYO,EH,Q1,F,OW,,1050.00\nFARE,FRA,TYO,EH,Q1,F,HR,,650.00\nFARE,TYO,FRA,EH,Q1,F,HR,,800.00\nFARE,FRA,LAX,PA,Q1,F,HR,,800.00\nFARE,LAX,FRA,PA,Q1,F,HR,,722.13\nFARE,TYO,LAX,PA,Q1,F,OW,,150.00\nFARE,TYO,LAX,PA,Q1,F,HR,,150.00\nFARE,LAX,TYO,PA,Q1,F,HR,,258.61\nFARE,FRA,LAX,AT,Q1,F,HR,,800.00\nFARE,LAX,FRA,WH,Q1,F,OW,,836.14\nMPM,LAX,FRA,PA,3092\nMPM,TYO,FRA,AP,3356\nTPM,FRA,LAX,2555\nTPM,FRA,TYO,2580\nTPM,MAN,LAX,1513\nTPM,MAN,TYO,1693\nTPM,LAX,TYO,316\nTPM,SYD,TYO,1882\nEND\n",
        trip: "{\"from\":\"FRA\",\"sale\":\"2025-06-13\",\"sectors\":[{\"cabin\":\"Y\",\"carrier\":\"Q1\",\"day\":\"2025-07-03\",\"over\":\"\",\"stop\":true,\"surface\":false,\"to\":\"TYO\"},{\"cabin\":\"Y\",\"carrier\":\"Q1\",\"day\":\"2025-07-06\",\"over\":\"PA\",\"stop\":true,\"surface\":false,\"to\":\"LAX\"},{\"cabin\":\"Y\",\"carrier\":\"7Z\",\"day\":\"2025-07-13\",\"over\":\"\",\"stop\":true,\"surface\":true,\"to\":\"TYO\"},{\"cabin\":\"Y\",\"carrier\":\"Q1\",\"day\":\"2025-07-16\",\"over\":\"\",\"stop\":false,\"surface\":false,\"to\":\"LAX\"},{\"cabin\":\"Y\",\"carrier\":\"Q1\",\"day\":\"2025-07-19\",\"over\":\"\",\"stop\":true,\"surface\":false,\"to\":\"FRA\"}]}",
        lines: &[
            ("FRA Q1 TYO 650.00 Q1FHR/1 Q1 LAX 150.00 Q1FHR/1 // TYO Q1 X/LAX 150.00 Q1FOW/2 Q1 FRA 800.00 Q1FHR/3 NUC1750.00END ROE0.750000", "BROKEN 7 1\n"),
            ("LAX Q1 TYO 650.00 Q1FHR/1 Q1 LAX 150.00 Q1FOW/2 // TYO Q1 X/LAX 150.00 Q1FHR/1 Q1 FRA 800.00 Q1FHR/1 NUC1750.00END ROE0.750000", "OTHER TRIP 0\n"),
            ("FRA Q1 TYO 650.00 Q1FHR/1 Q1 LAX 150.00 Q1FHR/1 // TYO Q1 X/LAX 150.00 Q1FOW/2 Q1 FRA 800.00 Q1FHR/1 P/1 1.00 NUC1750.00END ROE0.750000", "FIGURES 5\n"),
            ("FRA Q1 TYO 650.00 Q1FHR/1 Q1 LAX 150.00 Q1FHR/1 // TYO Q1 X/LAX 150.00 Q1FOW/2 Q1 FRA 800.00 Q1FHR/1 NUC1750.00END ROE0.750000", "LAWFUL 1750.00 OVER 0.00\n"),
        ],
    },
    Presented {
        edition: "HEAD,2,75,2025-01-01\nCUR,AU,AUD,1234567.654321,1,1,U\nCUR,GB,GBP,0.000001,1,1,U\nCUR,IT,EUR,0.750000,1,100,U\nCUR,US,USD,0.750000,2,10,U\nCITY,SYD,AU,3\nCITY,ROM,IT,2\nCITY,LAX,US,1\nCITY,MIL,IT,2\nCITY,MAN,GB,2\nFARE,MAN,MIL,EH,YY,Y,OW,,03-05,09-12,150.00\nFARE,MAN,MIL,EH,YY,Y,OW,,09-13,03-04,200.00\nFARE,MAN,MIL,EH,YY,Y,HR,,01-01,12-31,100.00\nFARE,ROM,LAX,EH,YY,Y,HR,,01-01,12-31,179.43\nFARE,MAN,LAX,AP,YY,Y,HR,,01-01,12-31,387.74\nTPM,ROM,MIL,1896\nTPM,ROM,MAN,2679\nTPM,MIL,MAN,790\nEND\n",
        trip: "{\"from\":\"MAN\",\"sale\":\"2025-05-11\",\"sectors\":[{\"cabin\":\"Y\",\"carrier\":\"Q1\",\"day\":\"2025-05-11\",\"over\":\"\",\"stop\":false,\"surface\":false,\"to\":\"MIL\"}]}",
        lines: &[
            ("MAN Q1 ZZZ 150.00 YYYOW/1 NUC150.00END ROE0.000001", "OTHER TRIP 1\n"),
            ("MAN Q1 X/MIL 150.00 YYYOW/1 NUC150.00END ROE0.000001", "FIGURES 2\n"),
            ("MAN Q1 MIL 150.00 YYYOW/1 NUC150.00END ROE0.000001", "LAWFUL 150.00 OVER 0.00\n"),
        ],
    },
    Presented {
        edition: "HEAD,1,44,2025-01-01\nCUR,AU,AUD,1234567.654321,1,100,U\nCUR,FR,EUR,0.750000,2,5,N\nCUR,GB,GBP,1234567.654321,2,10000,N\nCUR,US,USD,0.750000,0,5,U\nCITY,PAR,FR,1\nCITY,NYC,US,1\nCITY,LYS,FR,2\nCITY,LON,GB,2\nCITY,SYD,AU,3\nFARE,PAR,LON,AT,YY,Y,OW,,200.00\nFARE,PAR,LON,AT,YY,Y,HR,,201.50\nFARE,LYS,NYC,AT,YY,Y,OW,,200.00\nFARE,NYC,LYS,AT,YY,Y,HR,,200.00\nFARE,LYS,PAR,AT,YY,Y,HR,,300.00\nFARE,PAR,LYS,AT,YY,Y,HR,,334.64\nFARE,NYC,PAR,WH,YY,Y,OW,,519.23\nFARE,NYC,PAR,WH,YY,Y,HR,,400.00\nFARE,LYS,NYC,AT,YY,Y,HR,,189.82\nFARE,SYD,PAR,AP,YY,Y,OW,,300.00\nMPM,LYS,PAR,AT,3371\nTPM,PAR,NYC,2294\nTPM,PAR,LON,1249\nTPM,PAR,SYD,1268\nTPM,NYC,LYS,910\nTPM,NYC,SYD,1352\nTPM,LYS,LON,1034\nTPM,LYS,SYD,709\nEND\n",
        trip: "{\"from\":\"PAR\",\"sale\":\"2025-01-26\",\"sectors\":[{\"cabin\":\"Y\",\"carrier\":\"Q2\",\"day\":\"2025-02-15\",\"over\":\"\",\"stop\":true,\"surface\":false,\"to\":\"LON\"},{\"cabin\":\"Y\",\"carrier\":\"Q2\",\"day\":\"2025-02-17\",\"over\":\"AT\",\"stop\":false,\"surface\":true,\"to\":\"LYS\"},{\"cabin\":\"Y\",\"carrier\":\"Q1\",\"day\":\"2025-02-19\",\"over\":\"\",\"stop\":true,\"surface\":false,\"to\":\"NYC\"},{\"cabin\":\"Y\",\"carrier\":\"7Z\",\"day\":\"2025-02-19\",\"over\":\"PA\",\"stop\":true,\"surface\":false,\"to\":\"PAR\"}]}",
        lines: &[
            ("PAR Q2 LON 200.00 YYYOW/1 // LYS Q1 NYC 200.00 YYYOW/2 7Z PAR 519.23 YYYOW/3 NUC919.23END ROE0.750000", "LAWFUL 919.23 OVER 0.00\n"),
            ("PAR Q2 LON 200.00 YYYOW/1 // LYS Q1 NYC 200.01 YYYOW/2 7Z PAR 519.23 YYYOW/3 NUC919.23END ROE0.750000", "FIGURES 2\n"),
            ("PAR Q2 LON 200.00 YYYOW/1 // LYS Q1 NYC 200.00 YYYOW/2 7Z PAR 519.23 YYYOW/3 P/1 1.00 NUC919.23END ROE0.750000", "FIGURES 4\n"),
        ],
    },
];
