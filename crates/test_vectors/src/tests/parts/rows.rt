//! Lists of parts on two worked tariffs: fares that combine end on end or don't, and an open jaw within a country or across two.

use super::{Answer, Listed, PartCase, Sheet};

#[rattlefmt::skip]
pub(super) static ROWS: [PartCase; 3] = [
    PartCase {
        edition: "HEAD,1,1,2025-01-01\nCUR,GB,GBP,0.750000,0,1,U\nCUR,FR,EUR,0.900000,2,1,N\nCUR,IT,EUR,0.900000,2,1,N\nCITY,LON,GB,2\nCITY,PAR,FR,2\nCITY,ROM,IT,2\nRULE,RA,9,9,0,0,365,Y,*,RA\nRULE,RB,9,9,0,0,365,Y,*,*\nFARE,LON,PAR,EH,YY,Y,OW,RA,150.00\nFARE,LON,PAR,EH,YY,Y,OW,,200.00\nFARE,PAR,ROM,EH,YY,Y,OW,RB,100.00\nEND\n",
        trip: "{\"sale\":\"2025-03-01\",\"from\":\"LON\",\"sectors\":[{\"to\":\"PAR\",\"carrier\":\"Q1\",\"day\":\"2025-04-10\",\"cabin\":\"Y\"},{\"to\":\"ROM\",\"carrier\":\"Q1\",\"day\":\"2025-04-12\",\"cabin\":\"Y\"}]}",
        lists: &[
            Listed { parts: &[(1, 1, 10), (2, 2, 12)], answer: Answer::Broken(20, 2), sheets: &[], backs: &[], circles: &[] },
            Listed { parts: &[(1, 1, 11), (2, 2, 12)], answer: Answer::Price(30_000), sheets: &[Sheet { kind: "OW", sum: 20_000, minimum: None, price: 20_000 }, Sheet { kind: "OW", sum: 10_000, minimum: None, price: 10_000 }], backs: &[false, false], circles: &[] },
        ],
    },
    PartCase {
        edition: "HEAD,1,1,2025-01-01\nCUR,GB,GBP,0.750000,0,1,U\nCUR,FR,EUR,0.900000,2,1,N\nCUR,IT,EUR,0.900000,2,1,N\nCITY,LON,GB,2\nCITY,PAR,FR,2\nCITY,ROM,IT,2\nCITY,LYS,FR,2\nFARE,LON,PAR,EH,YY,Y,HR,,100.00\nFARE,LON,LYS,EH,YY,Y,HR,,90.00\nEND\n",
        trip: "{\"sale\":\"2025-03-01\",\"from\":\"LON\",\"sectors\":[{\"to\":\"PAR\",\"carrier\":\"Q1\",\"day\":\"2025-04-10\",\"cabin\":\"Y\"},{\"to\":\"LYS\",\"carrier\":\"Q1\",\"day\":\"2025-04-12\",\"cabin\":\"Y\",\"surface\":true},{\"to\":\"LON\",\"carrier\":\"Q1\",\"day\":\"2025-04-16\",\"cabin\":\"Y\"}]}",
        lists: &[
            Listed { parts: &[(1, 1, 9), (3, 1, 10)], answer: Answer::Price(19_000), sheets: &[Sheet { kind: "OJ", sum: 19_000, minimum: None, price: 19_000 }], backs: &[false, true], circles: &[] },
        ],
    },
    PartCase {
        edition: "HEAD,1,1,2025-01-01\nCUR,GB,GBP,0.750000,0,1,U\nCUR,FR,EUR,0.900000,2,1,N\nCUR,IT,EUR,0.900000,2,1,N\nCITY,LON,GB,2\nCITY,PAR,FR,2\nCITY,ROM,IT,2\nCITY,LYS,IT,2\nFARE,LON,PAR,EH,YY,Y,HR,,100.00\nFARE,LON,LYS,EH,YY,Y,HR,,90.00\nEND\n",
        trip: "{\"sale\":\"2025-03-01\",\"from\":\"LON\",\"sectors\":[{\"to\":\"PAR\",\"carrier\":\"Q1\",\"day\":\"2025-04-10\",\"cabin\":\"Y\"},{\"to\":\"LYS\",\"carrier\":\"Q1\",\"day\":\"2025-04-12\",\"cabin\":\"Y\",\"surface\":true},{\"to\":\"LON\",\"carrier\":\"Q1\",\"day\":\"2025-04-16\",\"cabin\":\"Y\"}]}",
        lists: &[
            Listed { parts: &[(1, 1, 9), (3, 1, 10)], answer: Answer::Broken(6, 1), sheets: &[], backs: &[], circles: &[] },
        ],
    },
];
