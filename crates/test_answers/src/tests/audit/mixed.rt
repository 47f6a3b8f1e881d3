//! Lines by the answers of a separate program: half round trips, missing records and dearer constructions.

use super::Presented;

/// Lines with their verdicts.
#[rattlefmt::skip]
pub(super) static MIXED: [Presented; 5] = [
    Presented {
        edition: "HEAD,1,11,2025-01-01\nTPM,LON,LYS,3355\nTPM,LON,PAR,869\nFARE,PAR,FRA,EH,YY,F,HR,,800.00\nFARE,LYS,PAR,WH,YY,Y,HR,,250.00\nFARE,PAR,FRA,EH,YY,Y,HR,,190.05\nFARE,PAR,FRA,EH,YY,Y,OW,,253.40\nTPM,LYS,PAR,2516\nCITY,FRA,DE,2\nTPM,PAR,MIL,1424\nFARE,FRA,PAR,EH,YY,F,HR,,735.59\nCITY,MIL,IT,2\nCUR,IT,EUR,1.000000,1,1,U\nFARE,FRA,PAR,EH,YY,Y,HR,,300.00\nTPM,FRA,PAR,1873\nCUR,DE,EUR,1.000000,0,1,U\nCITY,LON,GB,2\nCITY,LYS,FR,3\nFARE,PAR,LYS,AP,YY,Y,OW,,359.78\nTPM,FRA,MIL,1634\nTPM,ROM,LYS,198\nFARE,FRA,PAR,EH,YY,Y,OW,,331.95\nCITY,ROM,IT,2\nCUR,FR,EUR,0.000001,1,10,N\nFARE,FRA,PAR,EH,YY,F,OW,,751.53\nTPM,LON,MIL,2264\nCUR,GB,GBP,110.000000,2,1,N\nFARE,PAR,FRA,EH,YY,F,OW,,915.97\nCITY,PAR,FR,2\nEND\n",
        trip: "{\"from\":\"FRA\",\"sale\":\"2025-01-11\",\"sectors\":[{\"cabin\":\"Y\",\"carrier\":\"Q2\",\"day\":\"2025-01-16\",\"over\":\"\",\"stop\":true,\"surface\":false,\"to\":\"PAR\"},{\"cabin\":\"Y\",\"carrier\":\"Q2\",\"day\":\"2025-01-19\",\"over\":\"\",\"stop\":true,\"surface\":false,\"to\":\"FRA\"}]}",
        lines: &[
            ("FRA Q2 PAR 751.53 YYFOW/1 Q2 FRA 253.40 YYYOW/2 NUC1004.93END ROE1.000000", "LAWFUL 1004.93 OVER 419.58\n"),
            ("FRA Q2 PAR 751.53 YYFOW/1 Q2 FRA 915.97 YYFOW/2 NUC1667.51END ROE1.000000", "FIGURES 3\n"),
            ("FRA Q9 PAR 331.95 YYYOW/1 Q2 FRA 915.97 YYFOW/2 NUC1247.92END ROE1.000000", "OTHER TRIP 1\n"),
            ("FRA Q2 PAR 735.59 YYFHR/1 Q2 FRA 735.59 YYFHR/1 NUC1471.18END ROE1.000000", "LAWFUL 1471.18 OVER 885.83\n"),
        ],
    },
    Presented {
        edition: "HEAD,1,90,2025-01-01\nFARE,SYD,TYO,EH,Q1,F,HR,,615.49\nFARE,TYO,SYD,EH,Q1,F,OW,,569.65\nFARE,TYO,SYD,EH,YY,Y,HR,,303.95\nFARE,OSA,TYO,PA,Q1,F,OW,,800.00\nFARE,OSA,SYD,EH,YY,F,HR,,600.93\nFARE,OSA,TYO,AP,Q1,F,OW,,750.00\nFARE,SYD,TYO,EH,YY,F,HR,,600.00\nFARE,TYO,SYD,EH,YY,F,HR,,702.30\nCUR,JP,JPY,1234567.654321,2,1,U\nFARE,TYO,SYD,EH,Q1,F,HR,,600.00\nCITY,OSA,JP,3\nCITY,SYD,AU,3\nFARE,OSA,TYO,EH,YY,Y,HR,,200.00\nFARE,OSA,TYO,WH,YY,Y,HR,,286.44\nCUR,AU,AUD,1234567.654321,1,10000,N\nFARE,SYD,OSA,EH,Q1,F,OW,,461.85\nTPM,SYD,TYO,1923\nFARE,TYO,SYD,EH,YY,F,OW,,550.00\nFARE,SYD,TYO,EH,YY,Y,HR,,250.00\nFARE,SYD,OSA,EH,YY,Y,OW,,150.00\nFARE,SYD,OSA,EH,YY,F,OW,,600.00\nTPM,SYD,OSA,1073\nCITY,TYO,JP,3\nTPM,TYO,OSA,1919\nFARE,SYD,OSA,EH,Q1,F,HR,,500.00\nEND\n",
        trip: "{\"from\":\"SYD\",\"sale\":\"2025-07-18\",\"sectors\":[{\"cabin\":\"Y\",\"carrier\":\"Q2\",\"day\":\"2025-09-16\",\"over\":\"AT\",\"stop\":true,\"surface\":false,\"to\":\"OSA\"},{\"cabin\":\"Y\",\"carrier\":\"Q2\",\"day\":\"2025-09-19\",\"over\":\"PA\",\"stop\":false,\"surface\":true,\"to\":\"TYO\"},{\"cabin\":\"Y\",\"carrier\":\"Q2\",\"day\":\"2025-09-20\",\"over\":\"\",\"stop\":true,\"surface\":false,\"to\":\"SYD\"}]}",
        lines: &[
            ("SYD Q2 OSA 600.00 YYFOW/1 // TYO Q9 SYD 550.00 YYFOW/2 NUC1150.00END ROE1234567.654321", "OTHER TRIP 3\n"),
            ("SYD Q2 OSA 150.00 YYYOW/2 // TYO Q2 SYD 550.00 YYFOW/1 NUC700.00END ROE1234567.654321", "BROKEN 2 1\n"),
            ("SYD Q2 OSA 600.00 YYFOW/1 // TYO Q2 SYD 550.00 YYFOW/2 NUC1150.01END ROE1234567.654321", "FIGURES 3\n"),
        ],
    },
    Presented {
        edition: "HEAD,1,55,2025-01-01\nFARE,MAN,SYD,EH,YY,Y,HR,,150.91\nFARE,SYD,PAR,EH,YY,Y,OW,,300.00\nFARE,MAN,PAR,EH,YY,Y,HR,,200.00\nTPM,PAR,SYD,1713\nCUR,FR,EUR,0.912345,2,10000,U\nCITY,PAR,FR,2\nMPM,PAR,MAN,EH,3956\nFARE,PAR,SYD,EH,YY,Y,OW,,200.00\nFARE,SYD,PAR,EH,YY,Y,HR,,150.00\nEMA,MAN,PAR,EH,MAN,66\nFARE,SYD,MAN,AP,YY,Y,HR,,250.00\nFARE,MAN,PAR,EH,YY,Y,OW,,200.00\nFARE,MAN,SYD,AP,YY,Y,HR,,150.00\nCUR,AU,AUD,0.000001,0,1,N\nFARE,SYD,MAN,EH,YY,Y,HR,,217.80\nFARE,PAR,MAN,EH,YY,Y,HR,,250.00\nTPM,MAN,SYD,1603\nCITY,SYD,AU,3\nFARE,PAR,SYD,EH,YY,Y,HR,,250.00\nFARE,SYD,MAN,EH,YY,Y,OW,,200.00\nCUR,GB,GBP,0.000001,1,1,U\nCITY,MAN,GB,2\nEMA,MAN,PAR,EH,,6632\nTPM,MAN,PAR,1780\nEND\n",
        trip: "{\"from\":\"MAN\",\"sale\":\"2025-08-29\",\"sectors\":[{\"cabin\":\"Y\",\"carrier\":\"Q2\",\"day\":\"2025-09-03\",\"over\":\"PA\",\"stop\":true,\"surface\":false,\"to\":\"SYD\"},{\"cabin\":\"Y\",\"carrier\":\"Q2\",\"day\":\"2025-09-05\",\"over\":\"\",\"stop\":false,\"surface\":false,\"to\":\"PAR\"},{\"cabin\":\"Y\",\"carrier\":\"Q1\",\"day\":\"2025-09-12\",\"over\":\"\",\"stop\":true,\"surface\":false,\"to\":\"SYD\"},{\"cabin\":\"Y\",\"carrier\":\"Q2\",\"day\":\"2025-09-12\",\"over\":\"PA\",\"stop\":true,\"surface\":false,\"to\":\"MAN\"}]}",
        lines: &[
            ("PAR Q2 SYD 150.91 YYYHR/1 Q2 X/PAR 150.00 YYYHR/2 Q1 SYD 150.00 YYYHR/2 Q2 MAN 150.91 YYYHR/1 NUC601.82END ROE0.000001", "OTHER TRIP 0\n"),
            ("MAN Q2 SYD 150.91 YYYHR/1 Q2 X/PAR 300.00 YYYOW/2 Q1 SYD 200.00 YYYOWZZ/3 Q2 MAN 150.91 YYYHR/1 NUC801.82END ROE0.000001", "NO RECORD 3\n"),
        ],
    },
    Presented {
        edition: "HEAD,1,7,2025-01-01\nCUR,DE,EUR,1234567.654321,2,1,U\nCUR,FR,EUR,110.000000,0,1,U\nCUR,GB,GBP,0.000001,2,1,U\nCUR,IT,EUR,0.750000,2,1,N\nCITY,MAN,GB,2\nCITY,MIL,IT,2\nCITY,FRA,DE,2\nCITY,LON,GB,2\nCITY,ROM,IT,2\nCITY,PAR,FR,2\nFARE,MAN,ROM,EH,YY,Y,OW,,200.00\nFARE,MAN,ROM,EH,YY,F,HR,,750.00\nFARE,ROM,MAN,EH,YY,F,HR,,700.00\nFARE,MAN,MIL,EH,YY,Y,OW,,100.00\nFARE,MAN,MIL,EH,YY,F,OW,,250.00\nFARE,MAN,MIL,EH,YY,F,HR,,224.64\nFARE,MIL,MAN,EH,YY,F,HR,,302.22\nFARE,ROM,MIL,EH,YY,Y,OW,,300.00\nFARE,ROM,MIL,EH,YY,Y,HR,,300.00\nFARE,MIL,ROM,EH,YY,Y,HR,,311.22\nFARE,ROM,MIL,EH,YY,F,OW,,650.00\nFARE,ROM,MIL,EH,YY,F,HR,,657.10\nFARE,MIL,ROM,EH,YY,F,HR,,790.66\nFARE,MIL,ROM,EH,YY,Y,OW,,300.00\nFARE,MIL,FRA,EH,YY,Y,OW,,150.00\nFARE,MIL,FRA,EH,YY,Y,HR,,171.18\nFARE,FRA,MIL,EH,YY,Y,HR,,200.00\nFARE,MIL,FRA,EH,YY,F,OW,,450.00\nFARE,MIL,MAN,EH,YY,Y,HR,,60.65\nFARE,MAN,MIL,EH,YY,Y,HR,,61.85\nFARE,MIL,MAN,EH,YY,F,OW,,173.54\nFARE,ROM,FRA,EH,YY,Y,OW,,450.00\nFARE,ROM,FRA,EH,YY,Y,HR,,513.19\nFARE,ROM,FRA,EH,YY,F,HR,,1145.46\nFARE,FRA,ROM,EH,YY,F,HR,,950.00\nFARE,MAN,ROM,EH,YY,Y,HR,,300.00\nFARE,ROM,MAN,EH,YY,F,OW,,650.00\nFARE,FRA,MAN,EH,YY,Y,OW,,200.00\nFARE,MAN,FRA,EH,YY,Y,HR,,150.00\nFARE,FRA,MAN,EH,YY,F,OW,,380.62\nFARE,FRA,MAN,EH,YY,F,HR,,450.00\nFARE,MAN,FRA,EH,YY,F,HR,,450.00\nMPM,MIL,MAN,EH,4634\nMPM,ROM,MAN,EH,4513\nTPM,MAN,MIL,251\nTPM,MAN,FRA,1149\nTPM,MAN,ROM,2163\nTPM,MIL,ROM,2195\nTPM,FRA,LON,1374\nTPM,FRA,ROM,3305\nTPM,ROM,PAR,1638\nEMA,FRA,MIL,EH,,11000\nEMA,MAN,MIL,EH,,1994\nEND\n",
        trip: "{\"from\":\"MAN\",\"sale\":\"2025-05-22\",\"sectors\":[{\"cabin\":\"Y\",\"carrier\":\"Q2\",\"day\":\"2025-06-21\",\"over\":\"\",\"stop\":false,\"surface\":false,\"to\":\"ROM\"},{\"cabin\":\"Y\",\"carrier\":\"Q2\",\"day\":\"2025-06-28\",\"over\":\"\",\"stop\":true,\"surface\":false,\"to\":\"MIL\"},{\"cabin\":\"Y\",\"carrier\":\"Q2\",\"day\":\"2025-06-30\",\"over\":\"PA\",\"stop\":true,\"surface\":false,\"to\":\"ROM\"},{\"cabin\":\"Y\",\"carrier\":\"Q2\",\"day\":\"2025-07-02\",\"over\":\"\",\"stop\":true,\"surface\":false,\"to\":\"FRA\"},{\"cabin\":\"Y\",\"carrier\":\"Q2\",\"day\":\"2025-07-09\",\"over\":\"\",\"stop\":true,\"surface\":false,\"to\":\"MAN\"}]}",
        lines: &[
            ("MAN Q2 X/ROM 300.00 YYYHR/1 Q2 MIL 650.00 YYFOW/2 Q2 ROM 300.00 YYYOW/2 Q2 FRA 1145.46 YYFHR/1 Q2 MAN 450.00 YYFHR/1 NUC2845.46END ROE0.000001", "BROKEN 5 2\n"),
            ("MAN Q2 X/ROM 300.00 YYYHR/1 Q2 MIL 657.10 YYFHR/1 Q2 ROM 311.22 Q1YHR/1 Q2 FRA 1145.46 YYFHR/1 Q2 MAN 450.00 YYFHR/1 NUC2863.78END ROE0.000001", "NO RECORD 3\n"),
        ],
    },
    Presented {
        edition: "HEAD,1,48,2025-01-01\nCUR,DE,EUR,0.000001,0,5,U\nCUR,FR,EUR,1.000000,1,100,U\nCUR,GB,GBP,1234567.654321,1,1,U\nCITY,PAR,FR,2\nCITY,FRA,DE,2\nCITY,MAN,GB,2\nCITY,LYS,FR,2\nRULE,A,2,5,0,0,999,N,,*\nFARE,PAR,LYS,EH,YY,Y,OW,,137.95\nFARE,LYS,PAR,EH,YY,Y,HR,,150.00\nFARE,PAR,LYS,EH,Q2,C,OW,A,188.02\nFARE,PAR,LYS,EH,Q2,C,HR,A,150.00\nFARE,LYS,PAR,EH,Q2,C,HR,A,100.00\nFARE,PAR,LYS,EH,Q2,Y,OW,,150.00\nFARE,PAR,LYS,EH,Q2,Y,HR,,172.38\nFARE,LYS,PAR,EH,Q2,Y,HR,,200.00\nFARE,PAR,MAN,EH,YY,Y,OW,,189.59\nFARE,PAR,MAN,EH,YY,Y,HR,,150.00\nFARE,MAN,PAR,EH,YY,Y,HR,,153.65\nFARE,PAR,MAN,EH,Q2,C,OW,A,207.27\nFARE,PAR,MAN,EH,Q2,C,HR,A,200.00\nFARE,MAN,PAR,EH,Q2,C,HR,A,200.00\nFARE,PAR,MAN,EH,Q2,Y,OW,,150.00\nFARE,PAR,MAN,EH,Q2,Y,HR,,237.81\nFARE,MAN,PAR,EH,Q2,Y,HR,,259.60\nFARE,LYS,MAN,EH,YY,Y,OW,,150.00\nFARE,LYS,MAN,EH,YY,Y,HR,,100.00\nFARE,MAN,LYS,EH,YY,Y,HR,,150.00\nFARE,LYS,MAN,EH,Q2,C,OW,A,141.96\nFARE,MAN,LYS,EH,Q2,C,HR,A,129.17\nFARE,LYS,MAN,EH,Q2,Y,OW,,205.60\nFARE,MAN,LYS,EH,Q2,Y,HR,,167.82\nFARE,PAR,LYS,EH,YY,Y,HR,,155.83\nFARE,LYS,PAR,EH,Q2,C,OW,A,183.75\nFARE,LYS,PAR,EH,Q2,Y,OW,,100.00\nFARE,MAN,PAR,EH,YY,Y,OW,,162.76\nFARE,MAN,PAR,EH,Q2,C,OW,A,213.28\nFARE,MAN,PAR,EH,Q2,Y,OW,,222.69\nFARE,LYS,FRA,AT,Q2,C,HR,A,100.00\nFARE,PAR,MAN,PA,YY,Y,OW,,200.00\nMPM,MAN,PAR,EH,1352\nMPM,PAR,LYS,EH,1918\nTPM,PAR,MAN,919\nTPM,PAR,LYS,737\nTPM,FRA,MAN,1196\nTPM,FRA,LYS,750\nTPM,MAN,LYS,629\nEND\n",
        trip: "{\"from\":\"PAR\",\"sale\":\"2025-06-12\",\"sectors\":[{\"cabin\":\"Y\",\"carrier\":\"Q1\",\"day\":\"2025-06-13\",\"over\":\"\",\"stop\":true,\"surface\":false,\"to\":\"LYS\"},{\"cabin\":\"Y\",\"carrier\":\"Q1\",\"day\":\"2025-06-13\",\"over\":\"PA\",\"stop\":true,\"surface\":false,\"to\":\"MAN\"},{\"cabin\":\"Y\",\"carrier\":\"Q1\",\"day\":\"2025-06-15\",\"over\":\"\",\"stop\":true,\"surface\":false,\"to\":\"PAR\"}]}",
        lines: &[
            ("MAN Q1 LYS 155.83 YYYHR/1 Q1 MAN Q1 PAR M155.83 YYYHR/1 NUC311.66END ROE1.000000", "OTHER TRIP 0\n"),
            ("PAR Q1 LYS 155.83 YYYHR/1 Q1 MAN Q1 PAR M155.83 YYCHR/1 NUC311.66END ROE1.000000", "NO RECORD 2\n"),
            ("PAR Q1 LYS 155.83 YYYHR/1 Q1 MAN 100.00 YYYHR/1 Q1 PAR 150.00 YYYHR/1 P/1 1.00 NUC405.83END ROE1.000000", "FIGURES 4\n"),
            ("PAR Q1 LYS 137.95 YYYOW/1 Q1 MAN 150.00 YYYOW/9 Q1 PAR 162.76 YYYOW/3 NUC450.71END ROE1.000000", "BROKEN 2 2\n"),
        ],
    },
];
