//! Constructions on worked tariffs with their answers.

use super::Answered;

/// Constructions with their whole answers.
#[rattlefmt::skip]
pub(super) static ANSWERED: [Answered; 3] = [
    Answered {
        edition: "HEAD,1,1,2025-01-01\nCUR,GB,GBP,0.750000,0,1,U\nCUR,IT,EUR,0.900000,2,1,N\nCITY,LON,GB,2\nCITY,ROM,IT,2\nFARE,LON,ROM,EH,YY,Y,OW,,400.00\nEND\n",
        trip: "{\"sale\":\"2025-03-01\",\"from\":\"LON\",\"sectors\":[{\"to\":\"ROM\",\"carrier\":\"Q1\",\"day\":\"2025-04-10\",\"cabin\":\"Y\"}]}",
        parts: &[(1, 1, 6)],
        text: "EDITION 1 2025-01-01\nLON Q1 ROM 400.00 YYYOW/1 NUC400.00END ROE0.750000\nPART 1 LON-ROM UNIT 1 OUT\nFARE 6 YYYOW 400.00\nMILES DIRECT\nHIP NONE\nAF 400.00\nUNIT 1 OW SUM 400.00 CHECK NONE PRICE 400.00\nTOTAL NUC 400.00\nROE 0.750000\nLOCAL GBP 300\n",
    },
    Answered {
        edition: "HEAD,1,1,2025-01-01\nCUR,GB,GBP,0.750000,0,1,U\nCUR,FR,EUR,0.900000,2,1,N\nCUR,IT,EUR,0.900000,2,1,N\nCITY,LON,GB,2\nCITY,PAR,FR,2\nCITY,ROM,IT,2\nFARE,LON,ROM,EH,YY,Y,OW,,400.00\nFARE,LON,PAR,EH,YY,Y,OW,,450.00\nFARE,PAR,ROM,EH,YY,Y,OW,,200.00\nTPM,LON,PAR,300\nTPM,PAR,ROM,700\nMPM,LON,ROM,EH,1000\nEND\n",
        trip: "{\"sale\":\"2025-03-01\",\"from\":\"LON\",\"sectors\":[{\"to\":\"PAR\",\"carrier\":\"Q1\",\"day\":\"2025-04-10\",\"cabin\":\"Y\"},{\"to\":\"ROM\",\"carrier\":\"Q1\",\"day\":\"2025-04-12\",\"cabin\":\"Y\"}]}",
        parts: &[(2, 1, 8)],
        text: "EDITION 1 2025-01-01\nLON Q1 PAR Q1 ROM MLONPAR450.00 YYYOW/1 P/1 50.00 NUC500.00END ROE0.750000\nPART 1 LON-ROM UNIT 1 OUT\nFARE 8 YYYOW 400.00\nMILES TPM 1000 EMA 0 NET 1000 MPM 1000 M\nHIP LON-PAR 450.00\nAF 450.00\nUNIT 1 OW SUM 450.00 CHECK BH 500.00 PRICE 500.00\nTOTAL NUC 500.00\nROE 0.750000\nLOCAL GBP 375\n",
    },
    Answered {
        edition: "HEAD,1,7,2025-01-01\nCUR,GB,GBP,0.750000,0,1,U\nCUR,DE,EUR,0.900000,2,1,N\nCUR,JP,JPY,110.000000,0,100,U\nCUR,US,USD,1.000000,2,1,N\nCITY,LON,GB,2\nCITY,FRA,DE,2\nCITY,TYO,JP,3\nCITY,LAX,US,1\nCITY,NYC,US,1\nRULE,FLEX,5,5,0,3,365,Y,*,*\nFARE,LON,TYO,EH,YY,Y,HR,FLEX,1200.00\nFARE,LON,TYO,AP,YY,Y,HR,FLEX,1500.00\nFARE,LON,LAX,PA,YY,Y,HR,FLEX,1300.00\nFARE,LON,NYC,PA,YY,Y,HR,FLEX,1400.00\nFARE,LON,LAX,AT,YY,Y,HR,FLEX,900.00\nFARE,LON,NYC,AT,YY,Y,HR,FLEX,700.00\nTPM,LON,FRA,400\nTPM,FRA,TYO,5900\nTPM,TYO,LAX,5450\nTPM,LAX,NYC,2470\nTPM,NYC,LON,3450\nMPM,LON,TYO,EH,7400\nMPM,LON,TYO,AP,11000\nEND\n",
        trip: "{\"sale\":\"2025-03-01\",\"from\":\"LON\",\"sectors\":[{\"to\":\"FRA\",\"carrier\":\"Q1\",\"day\":\"2025-04-10\",\"cabin\":\"Y\",\"stop\":false},{\"to\":\"TYO\",\"carrier\":\"Q1\",\"day\":\"2025-04-10\",\"cabin\":\"Y\"},{\"to\":\"LAX\",\"carrier\":\"Q2\",\"day\":\"2025-04-20\",\"cabin\":\"Y\"},{\"to\":\"NYC\",\"carrier\":\"Q2\",\"day\":\"2025-04-25\",\"cabin\":\"Y\"},{\"to\":\"LON\",\"carrier\":\"Q2\",\"day\":\"2025-05-01\",\"cabin\":\"Y\"}]}",
        parts: &[(2, 1, 12), (5, 1, 13)],
        text: "EDITION 7 2025-01-01\nLON Q1 X/FRA Q1 TYO M1200.00 YYYHRFLEX/1 Q2 LAX Q2 NYC Q2 LON 5M1575.00 YYYHRFLEX/1 P/1 25.00 NUC2800.00END ROE0.750000\nPART 1 LON-TYO UNIT 1 OUT\nFARE 12 YYYHRFLEX 1200.00\nMILES TPM 6300 EMA 0 NET 6300 MPM 7400 M\nHIP NONE\nAF 1200.00\nPART 2 TYO-LON UNIT 1 BACK\nFARE 13 YYYHRFLEX 1500.00\nMILES TPM 11370 EMA 0 NET 11370 MPM 11000 5M\nHIP NONE\nAF 1575.00\nUNIT 1 CT SUM 2775.00 CHECK CT 2800.00 PRICE 2800.00\nTOTAL NUC 2800.00\nROE 0.750000\nLOCAL GBP 2100\n",
    },
];
