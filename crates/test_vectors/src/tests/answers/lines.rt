//! Constructions on worked tariffs, each with lines that stand in its answer.

use super::Lined;

/// Constructions with lines of their answers.
#[rattlefmt::skip]
pub(super) static LINED: [Lined; 17] = [
    Lined {
        edition: "HEAD,1,1,2025-01-01\nCUR,GB,GBP,0.750000,0,1,U\nCUR,FR,EUR,0.900000,2,1,N\nCUR,IT,EUR,0.900000,2,1,N\nCITY,LON,GB,2\nCITY,PAR,FR,2\nCITY,ROM,IT,2\nFARE,LON,ROM,EH,YY,Y,OW,,400.00\nTPM,LON,PAR,300\nTPM,PAR,ROM,700\nMPM,LON,ROM,EH,1000\nEND\n",
        trip: "{\"sale\":\"2025-03-01\",\"from\":\"LON\",\"sectors\":[{\"to\":\"PAR\",\"carrier\":\"Q1\",\"day\":\"2025-04-10\",\"cabin\":\"Y\"},{\"to\":\"ROM\",\"carrier\":\"Q1\",\"day\":\"2025-04-12\",\"cabin\":\"Y\"}]}",
        parts: &[(2, 1, 8)],
        lines: &["\nLON Q1 PAR Q1 ROM M400.00 YYYOW/1 NUC400.00END ROE0.750000\n", "\nMILES TPM 1000 EMA 0 NET 1000 MPM 1000 M\n"],
    },
    Lined {
        edition: "HEAD,1,1,2025-01-01\nCUR,GB,GBP,0.750000,0,1,U\nCUR,FR,EUR,0.900000,2,1,N\nCUR,IT,EUR,0.900000,2,1,N\nCITY,LON,GB,2\nCITY,PAR,FR,2\nCITY,ROM,IT,2\nFARE,LON,ROM,EH,YY,Y,OW,,400.00\nTPM,LON,PAR,300\nTPM,PAR,ROM,750\nMPM,LON,ROM,EH,1000\nEND\n",
        trip: "{\"sale\":\"2025-03-01\",\"from\":\"LON\",\"sectors\":[{\"to\":\"PAR\",\"carrier\":\"Q1\",\"day\":\"2025-04-10\",\"cabin\":\"Y\"},{\"to\":\"ROM\",\"carrier\":\"Q1\",\"day\":\"2025-04-12\",\"cabin\":\"Y\"}]}",
        parts: &[(2, 1, 8)],
        lines: &["\nLON Q1 PAR Q1 ROM 5M420.00 YYYOW/1 NUC420.00END ROE0.750000\n"],
    },
    Lined {
        edition: "HEAD,1,1,2025-01-01\nCUR,GB,GBP,0.750000,0,1,U\nCUR,FR,EUR,0.900000,2,1,N\nCUR,IT,EUR,0.900000,2,1,N\nCITY,LON,GB,2\nCITY,PAR,FR,2\nCITY,ROM,IT,2\nFARE,LON,ROM,EH,YY,Y,OW,,400.00\nTPM,LON,PAR,300\nTPM,PAR,ROM,751\nMPM,LON,ROM,EH,1000\nEND\n",
        trip: "{\"sale\":\"2025-03-01\",\"from\":\"LON\",\"sectors\":[{\"to\":\"PAR\",\"carrier\":\"Q1\",\"day\":\"2025-04-10\",\"cabin\":\"Y\"},{\"to\":\"ROM\",\"carrier\":\"Q1\",\"day\":\"2025-04-12\",\"cabin\":\"Y\"}]}",
        parts: &[(2, 1, 8)],
        lines: &["\nLON Q1 PAR Q1 ROM 10M440.00 YYYOW/1 NUC440.00END ROE0.750000\n"],
    },
    Lined {
        edition: "HEAD,1,1,2025-01-01\nCUR,GB,GBP,0.750000,0,1,U\nCUR,FR,EUR,0.900000,2,1,N\nCUR,IT,EUR,0.900000,2,1,N\nCITY,LON,GB,2\nCITY,PAR,FR,2\nCITY,ROM,IT,2\nFARE,LON,ROM,EH,YY,Y,OW,,400.00\nTPM,LON,PAR,300\nTPM,PAR,ROM,950\nMPM,LON,ROM,EH,1000\nEND\n",
        trip: "{\"sale\":\"2025-03-01\",\"from\":\"LON\",\"sectors\":[{\"to\":\"PAR\",\"carrier\":\"Q1\",\"day\":\"2025-04-10\",\"cabin\":\"Y\"},{\"to\":\"ROM\",\"carrier\":\"Q1\",\"day\":\"2025-04-12\",\"cabin\":\"Y\"}]}",
        parts: &[(2, 1, 8)],
        lines: &["\nLON Q1 PAR Q1 ROM 25M500.00 YYYOW/1 NUC500.00END ROE0.750000\n"],
    },
    Lined {
        edition: "HEAD,1,1,2025-01-01\nCUR,GB,GBP,0.750000,0,1,U\nCUR,FR,EUR,0.900000,2,1,N\nCUR,IT,EUR,0.900000,2,1,N\nCITY,LON,GB,2\nCITY,PAR,FR,2\nCITY,ROM,IT,2\nFARE,LON,ROM,EH,YY,Y,OW,,400.00\nTPM,LON,PAR,300\nTPM,PAR,ROM,751\nMPM,LON,ROM,EH,1000\nEMA,LON,ROM,EH,PAR,60\nEND\n",
        trip: "{\"sale\":\"2025-03-01\",\"from\":\"LON\",\"sectors\":[{\"to\":\"PAR\",\"carrier\":\"Q1\",\"day\":\"2025-04-10\",\"cabin\":\"Y\"},{\"to\":\"ROM\",\"carrier\":\"Q1\",\"day\":\"2025-04-12\",\"cabin\":\"Y\"}]}",
        parts: &[(2, 1, 8)],
        lines: &["\nMILES TPM 1051 EMA 60 NET 991 MPM 1000 M\n", "\nAF 400.00\n"],
    },
    Lined {
        edition: "HEAD,1,1,2025-01-01\nCUR,GB,GBP,0.750000,0,1,U\nCUR,FR,EUR,0.900000,2,1,N\nCUR,IT,EUR,0.900000,2,1,N\nCITY,LON,GB,2\nCITY,PAR,FR,2\nCITY,ROM,IT,2\nFARE,LON,ROM,EH,YY,Y,OW,,400.00\nTPM,LON,PAR,300\nTPM,PAR,ROM,751\nMPM,LON,ROM,EH,1000\nEMA,LON,ROM,EH,PAR,2000\nEND\n",
        trip: "{\"sale\":\"2025-03-01\",\"from\":\"LON\",\"sectors\":[{\"to\":\"PAR\",\"carrier\":\"Q1\",\"day\":\"2025-04-10\",\"cabin\":\"Y\"},{\"to\":\"ROM\",\"carrier\":\"Q1\",\"day\":\"2025-04-12\",\"cabin\":\"Y\"}]}",
        parts: &[(2, 1, 8)],
        lines: &["\nMILES TPM 1051 EMA 2000 NET 0 MPM 1000 M\n", "\nAF 400.00\n"],
    },
    Lined {
        edition: "HEAD,1,1,2025-01-01\nCUR,GB,GBP,0.750000,0,1,U\nCUR,FR,EUR,0.900000,2,1,N\nCUR,IT,EUR,0.900000,2,1,N\nCITY,LON,GB,2\nCITY,PAR,FR,2\nCITY,ROM,IT,2\nFARE,LON,ROM,EH,YY,Y,OW,,400.00\nTPM,LON,PAR,300\nTPM,PAR,ROM,751\nMPM,LON,ROM,EH,1000\nCUR,DE,EUR,0.900000,2,1,N\nCITY,FRA,DE,2\nEMA,LON,ROM,EH,FRA,60\nEND\n",
        trip: "{\"sale\":\"2025-03-01\",\"from\":\"LON\",\"sectors\":[{\"to\":\"PAR\",\"carrier\":\"Q1\",\"day\":\"2025-04-10\",\"cabin\":\"Y\"},{\"to\":\"ROM\",\"carrier\":\"Q1\",\"day\":\"2025-04-12\",\"cabin\":\"Y\"}]}",
        parts: &[(2, 1, 8)],
        lines: &["\nLON Q1 PAR Q1 ROM 10M440.00 YYYOW/1 NUC440.00END ROE0.750000\n"],
    },
    Lined {
        edition: "HEAD,1,1,2025-01-01\nCUR,GB,GBP,0.750000,0,1,U\nCUR,FR,EUR,0.900000,2,1,N\nCUR,IT,EUR,0.900000,2,1,N\nCITY,LON,GB,2\nCITY,PAR,FR,2\nCITY,ROM,IT,2\nFARE,LON,ROM,EH,YY,Y,OW,,400.00\nFARE,LON,PAR,EH,YY,Y,OW,,450.00\nFARE,PAR,ROM,EH,YY,Y,OW,,200.00\nTPM,LON,PAR,300\nTPM,PAR,ROM,700\nMPM,LON,ROM,EH,1000\nEND\n",
        trip: "{\"sale\":\"2025-03-01\",\"from\":\"LON\",\"sectors\":[{\"to\":\"PAR\",\"carrier\":\"Q1\",\"day\":\"2025-04-10\",\"cabin\":\"Y\",\"stop\":false},{\"to\":\"ROM\",\"carrier\":\"Q1\",\"day\":\"2025-04-12\",\"cabin\":\"Y\"}]}",
        parts: &[(2, 1, 8)],
        lines: &["\nLON Q1 X/PAR Q1 ROM M400.00 YYYOW/1 NUC400.00END ROE0.750000\n"],
    },
    Lined {
        edition: "HEAD,1,1,2025-01-01\nCUR,GB,GBP,0.750000,0,1,U\nCUR,FR,EUR,0.900000,2,1,N\nCUR,IT,EUR,0.900000,2,1,N\nCITY,LON,GB,2\nCITY,PAR,FR,2\nCITY,ROM,IT,2\nFARE,LON,ROM,EH,YY,Y,OW,,400.00\nFARE,LON,PAR,EH,YY,Y,OW,,450.00\nFARE,PAR,ROM,EH,YY,Y,OW,,200.00\nTPM,LON,PAR,300\nTPM,PAR,ROM,700\nMPM,LON,ROM,EH,1000\nEND\n",
        trip: "{\"sale\":\"2025-03-01\",\"from\":\"LON\",\"sectors\":[{\"to\":\"PAR\",\"carrier\":\"Q1\",\"day\":\"2025-04-10\",\"cabin\":\"Y\"},{\"to\":\"ROM\",\"carrier\":\"Q1\",\"day\":\"2025-04-12\",\"cabin\":\"Y\"}]}",
        parts: &[(1, 1, 9), (2, 2, 10)],
        lines: &["\nLON Q1 PAR 450.00 YYYOW/1 Q1 ROM 200.00 YYYOW/2 NUC650.00END ROE0.750000\n"],
    },
    Lined {
        edition: "HEAD,1,1,2025-01-01\nCUR,GB,GBP,0.750000,0,1,U\nCUR,JP,JPY,110.000000,0,100,U\nCUR,US,USD,1.000000,2,1,N\nCITY,LON,GB,2\nCITY,TYO,JP,3\nCITY,LAX,US,1\nFARE,LON,TYO,EH,YY,Y,HR,,400.00\nFARE,LON,TYO,AP,YY,Y,HR,,390.00\nFARE,LON,LAX,PA,YY,Y,HR,,450.00\nFARE,LON,LAX,AT,YY,Y,HR,,300.00\nTPM,TYO,LAX,5000\nTPM,LAX,LON,5000\nMPM,LON,TYO,AP,12000\nEND\n",
        trip: "{\"sale\":\"2025-03-01\",\"from\":\"LON\",\"sectors\":[{\"to\":\"TYO\",\"carrier\":\"Q1\",\"day\":\"2025-04-10\",\"cabin\":\"Y\"},{\"to\":\"LAX\",\"carrier\":\"Q1\",\"day\":\"2025-04-20\",\"cabin\":\"Y\"},{\"to\":\"LON\",\"carrier\":\"Q1\",\"day\":\"2025-04-25\",\"cabin\":\"Y\"}]}",
        parts: &[(1, 1, 8), (3, 1, 9)],
        lines: &["\nLON Q1 TYO 400.00 YYYHR/1 Q1 LAX Q1 LON M390.00 YYYHR/1 P/1 110.00 NUC900.00END ROE0.750000\n", "\nLOCAL GBP 675\n"],
    },
    Lined {
        edition: "HEAD,1,1,2025-01-01\nCUR,GB,GBP,0.750000,0,1,U\nCUR,JP,JPY,110.000000,0,100,U\nCUR,US,USD,1.000000,2,1,N\nCITY,LON,GB,2\nCITY,TYO,JP,3\nCITY,LAX,US,1\nFARE,LON,TYO,EH,YY,Y,HR,,400.00\nFARE,LON,TYO,AP,YY,Y,HR,,390.00\nFARE,LON,LAX,PA,YY,Y,HR,,450.00\nFARE,LON,LAX,AT,YY,Y,HR,,300.00\nTPM,TYO,LAX,5000\nTPM,LAX,LON,5000\nMPM,LON,TYO,AP,12000\nFARE,LON,TYO,AP,Q1,Y,HR,,400.00\nEND\n",
        trip: "{\"sale\":\"2025-03-01\",\"from\":\"LON\",\"sectors\":[{\"to\":\"TYO\",\"carrier\":\"Q1\",\"day\":\"2025-04-10\",\"cabin\":\"Y\"},{\"to\":\"LAX\",\"carrier\":\"Q1\",\"day\":\"2025-04-20\",\"cabin\":\"Y\"},{\"to\":\"LON\",\"carrier\":\"Q1\",\"day\":\"2025-04-25\",\"cabin\":\"Y\"}]}",
        parts: &[(1, 1, 8), (3, 1, 15)],
        lines: &["\nLON Q1 TYO 400.00 YYYHR/1 Q1 LAX Q1 LON M400.00 Q1YHR/1 NUC800.00END ROE0.750000\n", "\nLOCAL GBP 600\n"],
    },
    Lined {
        edition: "HEAD,1,1,2025-01-01\nCUR,GB,GBP,0.750000,0,1,U\nCUR,FR,EUR,0.900000,2,1,N\nCUR,IT,EUR,0.900000,2,1,N\nCITY,LON,GB,2\nCITY,PAR,FR,2\nCITY,ROM,IT,2\nFARE,LON,PAR,EH,YY,Y,HR,,100.00\nFARE,PAR,ROM,EH,YY,Y,HR,,80.00\nEND\n",
        trip: "{\"sale\":\"2025-03-01\",\"from\":\"LON\",\"sectors\":[{\"to\":\"PAR\",\"carrier\":\"Q1\",\"day\":\"2025-04-10\",\"cabin\":\"Y\"},{\"to\":\"ROM\",\"carrier\":\"Q1\",\"day\":\"2025-04-12\",\"cabin\":\"Y\"},{\"to\":\"PAR\",\"carrier\":\"Q1\",\"day\":\"2025-04-14\",\"cabin\":\"Y\"},{\"to\":\"LON\",\"carrier\":\"Q1\",\"day\":\"2025-04-16\",\"cabin\":\"Y\"}]}",
        parts: &[(1, 1, 8), (2, 2, 9), (3, 2, 9), (4, 1, 8)],
        lines: &["\nLON Q1 PAR 100.00 YYYHR/1 Q1 ROM 80.00 YYYHR/2 Q1 PAR 80.00 YYYHR/2 Q1 LON 100.00 YYYHR/1 NUC360.00END ROE0.750000\n", "\nLOCAL GBP 270\n"],
    },
    Lined {
        edition: "HEAD,1,1,2025-01-01\nCUR,GB,GBP,0.750000,0,1,U\nCUR,FR,EUR,0.900000,2,1,N\nCUR,IT,EUR,0.900000,2,1,N\nCITY,LON,GB,2\nCITY,PAR,FR,2\nCITY,ROM,IT,2\nRULE,RA,9,9,0,0,365,Y,*,RA\nRULE,RB,9,9,0,0,365,Y,*,*\nFARE,LON,PAR,EH,YY,Y,OW,RA,150.00\nFARE,LON,PAR,EH,YY,Y,OW,,200.00\nFARE,PAR,ROM,EH,YY,Y,OW,RB,100.00\nEND\n",
        trip: "{\"sale\":\"2025-03-01\",\"from\":\"LON\",\"sectors\":[{\"to\":\"PAR\",\"carrier\":\"Q1\",\"day\":\"2025-04-10\",\"cabin\":\"Y\"},{\"to\":\"ROM\",\"carrier\":\"Q1\",\"day\":\"2025-04-12\",\"cabin\":\"Y\"}]}",
        parts: &[(1, 1, 11), (2, 2, 12)],
        lines: &["\nLON Q1 PAR 200.00 YYYOW/1 Q1 ROM 100.00 YYYOWRB/2 NUC300.00END ROE0.750000\n", "\nLOCAL GBP 225\n"],
    },
    Lined {
        edition: "HEAD,1,1,2025-01-01\nCUR,GB,GBP,0.750000,0,1,U\nCUR,FR,EUR,0.900000,2,1,N\nCUR,IT,EUR,0.900000,2,1,N\nCITY,LON,GB,2\nCITY,PAR,FR,2\nCITY,ROM,IT,2\nCITY,LYS,FR,2\nFARE,LON,PAR,EH,YY,Y,HR,,100.00\nFARE,LON,LYS,EH,YY,Y,HR,,90.00\nEND\n",
        trip: "{\"sale\":\"2025-03-01\",\"from\":\"LON\",\"sectors\":[{\"to\":\"PAR\",\"carrier\":\"Q1\",\"day\":\"2025-04-10\",\"cabin\":\"Y\"},{\"to\":\"LYS\",\"carrier\":\"Q1\",\"day\":\"2025-04-12\",\"cabin\":\"Y\",\"surface\":true},{\"to\":\"LON\",\"carrier\":\"Q1\",\"day\":\"2025-04-16\",\"cabin\":\"Y\"}]}",
        parts: &[(1, 1, 9), (3, 1, 10)],
        lines: &["\nLON Q1 PAR 100.00 YYYHR/1 // LYS Q1 LON 90.00 YYYHR/1 NUC190.00END ROE0.750000\n", "\nUNIT 1 OJ SUM 190.00 CHECK NONE PRICE 190.00\n", "\nLOCAL GBP 143\n"],
    },
    Lined {
        edition: "HEAD,1,1,2025-01-01\nCUR,GB,GBP,0.750000,0,1,U\nCUR,IT,EUR,0.900000,2,1,N\nCITY,LON,GB,2\nCITY,ROM,IT,2\nFARE,ROM,LON,EH,YY,Y,OW,,333.33\nEND\n",
        trip: "{\"sale\":\"2025-03-01\",\"from\":\"ROM\",\"sectors\":[{\"to\":\"LON\",\"carrier\":\"Q1\",\"day\":\"2025-04-10\",\"cabin\":\"Y\"}]}",
        parts: &[(1, 1, 6)],
        lines: &["\nROE 0.900000\n", "\nLOCAL EUR 300.00\n"],
    },
    Lined {
        edition: "HEAD,1,1,2025-01-01\nCUR,GB,GBP,0.750000,0,1,U\nCUR,IT,EUR,0.900000,2,1,N\nCITY,LON,GB,2\nCITY,ROM,IT,2\nFARE,LON,ROM,EH,YY,Y,OW,,401.73\nEND\n",
        trip: "{\"sale\":\"2025-03-01\",\"from\":\"LON\",\"sectors\":[{\"to\":\"ROM\",\"carrier\":\"Q1\",\"day\":\"2025-04-10\",\"cabin\":\"Y\"}]}",
        parts: &[(1, 1, 6)],
        lines: &["\nLOCAL GBP 302\n"],
    },
    Lined {
        edition: "HEAD,1,1,2025-01-01\nCUR,GB,GBP,0.750000,0,1,U\nCUR,IT,EUR,0.900000,2,1,N\nCITY,LON,GB,2\nCITY,ROM,IT,2\nFARE,LON,ROM,EH,YY,Y,OW,,400.06\nEND\n",
        trip: "{\"sale\":\"2025-03-01\",\"from\":\"LON\",\"sectors\":[{\"to\":\"ROM\",\"carrier\":\"Q1\",\"day\":\"2025-04-10\",\"cabin\":\"Y\"}]}",
        parts: &[(1, 1, 6)],
        lines: &["\nLOCAL GBP 300\n"],
    },
];
