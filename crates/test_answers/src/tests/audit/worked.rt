//! Lines on the tariffs of worked examples.

use super::Presented;

/// Lines with their verdicts.
#[rattlefmt::skip]
pub(super) static WORKED: [Presented; 3] = [
    Presented {
        edition: "HEAD,1,1,2025-01-01\nCUR,GB,GBP,0.750000,0,1,U\nCUR,FR,EUR,0.900000,2,1,N\nCUR,IT,EUR,0.900000,2,1,N\nCITY,LON,GB,2\nCITY,PAR,FR,2\nCITY,ROM,IT,2\nFARE,LON,ROM,EH,YY,Y,OW,,400.00\nFARE,LON,PAR,EH,YY,Y,OW,,450.00\nFARE,PAR,ROM,EH,YY,Y,OW,,200.00\nTPM,LON,PAR,300\nTPM,PAR,ROM,700\nMPM,LON,ROM,EH,1000\nEND\n",
        trip: "{\"sale\":\"2025-03-01\",\"from\":\"LON\",\"sectors\":[{\"to\":\"PAR\",\"carrier\":\"Q1\",\"day\":\"2025-04-10\",\"cabin\":\"Y\"},{\"to\":\"ROM\",\"carrier\":\"Q1\",\"day\":\"2025-04-12\",\"cabin\":\"Y\"}]}",
        lines: &[
            ("LON Q1 PAR Q1 ROM MLONPAR450.00 YYYOW/1 P/1 50.00 NUC500.00END ROE0.750000", "LAWFUL 500.00 OVER 0.00\n"),
            ("LON Q1 PAR 450.00 YYYOW/1 Q1 ROM 200.00 YYYOW/2 NUC650.00END ROE0.750000", "LAWFUL 650.00 OVER 150.00\n"),
            ("LON Q1 X/PAR Q1 ROM M400.00 YYYOW/1 NUC400.00END ROE0.750000", "OTHER TRIP 1\n"),
        ],
    },
    Presented {
        edition: "HEAD,1,1,2025-01-01\nCUR,GB,GBP,0.750000,0,1,U\nCUR,FR,EUR,0.900000,2,1,N\nCUR,IT,EUR,0.900000,2,1,N\nCITY,LON,GB,2\nCITY,PAR,FR,2\nCITY,ROM,IT,2\nFARE,LON,PAR,EH,YY,Y,HR,,100.00\nFARE,PAR,ROM,EH,YY,Y,HR,,80.00\nEND\n",
        trip: "{\"sale\":\"2025-03-01\",\"from\":\"LON\",\"sectors\":[{\"to\":\"PAR\",\"carrier\":\"Q1\",\"day\":\"2025-04-10\",\"cabin\":\"Y\"},{\"to\":\"ROM\",\"carrier\":\"Q1\",\"day\":\"2025-04-12\",\"cabin\":\"Y\"},{\"to\":\"PAR\",\"carrier\":\"Q1\",\"day\":\"2025-04-14\",\"cabin\":\"Y\"},{\"to\":\"LON\",\"carrier\":\"Q1\",\"day\":\"2025-04-16\",\"cabin\":\"Y\"}]}",
        lines: &[
            ("LON Q1 PAR 100.00 YYYHR/1 Q1 ROM 80.00 YYYHR/2 Q1 PAR 80.00 YYYHR/1 Q1 LON 100.00 YYYHR/2 NUC360.00END ROE0.750000", "BROKEN 4 4\n"),
        ],
    },
    Presented {
        edition: "HEAD,1,1,2025-01-01\nCUR,GB,GBP,0.750000,0,1,U\nCUR,IT,EUR,0.900000,2,1,N\nCITY,LON,GB,2\nCITY,ROM,IT,2\nFARE,LON,ROM,EH,YY,Y,OW,,400.00\nEND\n",
        trip: "{\"sale\":\"2025-03-01\",\"from\":\"LON\",\"sectors\":[{\"to\":\"ROM\",\"carrier\":\"Q1\",\"day\":\"2025-04-10\",\"cabin\":\"Y\"}]}",
        lines: &[
            ("LON Q1 ROM 400.00 YYYOW/1 NUC399.00END ROE0.750000", "FIGURES 2\n"),
            ("LON Q1 ROM 400.00 YYYOWRA/1 NUC400.00END ROE0.750000", "NO RECORD 1\n"),
        ],
    },
];
