//! Migrations: worked ones, and one of a separate plain program.

use super::{Kept, Step};
use crate::tests::tariffs::CANONICAL;

const MIGRATE: &[&str] = &["migrate", "--store=s"];

const EXPORT: &[&str] = &["export", "--store=s", "--edition=1"];

/// An edition in the former version of the text.
pub const FORMER: &str =
    "HEAD,1,1,2025-01-01\nCUR,GB,GBP,0.750000,0,1,U\nCUR,FR,EUR,0.900000,2,1,N\nCUR,IT,EUR,0.900000,2,1,N\n\
     CITY,LON,GB,2\nCITY,PAR,FR,2\nCITY,ROM,IT,2\nFARE,LON,ROM,EH,YY,Y,OW,,400.00\nTPM,LON,PAR,300\nTPM,PAR,ROM,700\n\
     MPM,LON,ROM,EH,1000\nEND\n";

const SECOND: &str = "HEAD,2,2,2025-02-01\nEND\n";

const FORMER_SECOND: &str = "HEAD,1,2,2025-02-01\nEND\n";

/// What a store of both editions answers, of which the first is in the former version.
pub static ONE_FORMER: [Step; 4] = [
    Step {
        words: EXPORT,
        source: &[],
        status: 0,
        text: CANONICAL,
    },
    Step {
        words: MIGRATE,
        source: &[],
        status: 0,
        text: "MIGRATED 1\n",
    },
    Step {
        words: MIGRATE,
        source: &[],
        status: 0,
        text: "MIGRATED 0\n",
    },
    Step {
        words: EXPORT,
        source: &[],
        status: 0,
        text: CANONICAL,
    },
];

/// Migrations of two editions in the former version whose second replacement fails, and that go on from there.
pub static MIGRATED: [Kept; 5] = [
    Kept {
        words: MIGRATE,
        source: "",
        bodies: &[FORMER, FORMER_SECOND],
        store: &[(11, false)],
        status: 10,
        text: "",
        left: &[CANONICAL, FORMER_SECOND],
    },
    Kept {
        words: MIGRATE,
        source: "",
        bodies: &[CANONICAL, FORMER_SECOND],
        store: &[],
        status: 0,
        text: "MIGRATED 1\n",
        left: &[CANONICAL, SECOND],
    },
    Kept {
        words: MIGRATE,
        source: "",
        bodies: &[FORMER, FORMER_SECOND],
        store: &[(11, true)],
        status: 10,
        text: "",
        left: &[CANONICAL, SECOND],
    },
    Kept {
        words: MIGRATE,
        source: "",
        bodies: &[CANONICAL, SECOND],
        store: &[],
        status: 0,
        text: "MIGRATED 0\n",
        left: &[CANONICAL, SECOND],
    },
    Kept {
        words: MIGRATE,
        source: "",
        bodies: &[
            "HEAD,1,1,2025-01-01\nCITY,LYS,FR,2\nFARE,LAX,MIL,AT,YY,Y,OW,B2,230.25\nCUR,US,USD,1234567.654321,2,10,U\n\
             TPM,LAX,MIL,1316\nFARE,LYS,MIL,EH,YY,Y,HR,B2,104.59\nCITY,MIL,IT,2\nFARE,MIL,LYS,EH,YY,Y,HR,,100.00\n\
             CITY,NYC,US,1\nFARE,MIL,LAX,AT,YY,Y,HR,B2,200.00\nTPM,MIL,LYS,521\nFARE,MIL,LAX,AT,YY,Y,HR,,100.00\n\
             FARE,LAX,LYS,AT,YY,Y,OW,,264.34\nCUR,IT,EUR,0.000001,2,1,U\nTPM,LAX,LYS,1425\n\
             FARE,LAX,MIL,AT,YY,Y,OW,,250.00\nRULE,SAVER21,16,16,7,1,365,Y,*,*\nRULE,A,0,0,21,6,999,Y,*,*\n\
             RULE,B2,16,2,0,0,15,Y,GHOST,\nCUR,FR,EUR,0.750000,2,10000,U\nFARE,LAX,LYS,AT,YY,Y,HR,B2,300.00\n\
             FARE,LYS,MIL,EH,YY,Y,HR,,100.00\nMPM,LAX,MIL,AT,1951\nFARE,LAX,MIL,AT,YY,Y,HR,,297.83\n\
             FARE,LYS,MIL,EH,YY,Y,OW,,164.23\nCITY,LAX,US,1\nFARE,MIL,LYS,EH,YY,Y,HR,B2,103.92\n\
             FARE,LYS,LAX,AT,YY,Y,HR,,244.85\nTPM,NYC,MIL,1462\nEND\n",
            "HEAD,1,2,2025-01-01\nCUR,AU,AUD,1234567.654321,0,100,U\nCUR,CA,CAD,1234567.654321,2,10000,U\n\
             CUR,DE,EUR,0.912345,0,5,U\nCUR,FR,EUR,0.000001,2,1,N\nCUR,GB,GBP,1234567.654321,0,1,N\n\
             CUR,IT,EUR,1.000000,2,5,U\nCUR,US,USD,110.000000,1,5,U\nCITY,SYD,AU,3\nCITY,PAR,FR,2\nCITY,MAN,GB,2\n\
             CITY,ROM,IT,2\nCITY,LAX,US,1\nCITY,YYZ,CA,1\nCITY,FRA,DE,2\nRULE,A,0,2,0,3,15,N,GHOST A,*\n\
             FARE,SYD,YYZ,PA,YY,Y,OW,,338.19\nFARE,SYD,YYZ,PA,YY,Y,HR,,300.00\nFARE,YYZ,SYD,PA,YY,Y,HR,,300.00\n\
             FARE,YYZ,SYD,PA,Q1,Y,HR,A,191.67\nFARE,SYD,FRA,AP,YY,Y,OW,,200.00\nFARE,FRA,SYD,AP,YY,Y,HR,,200.00\n\
             FARE,SYD,FRA,AP,Q1,Y,OW,A,150.00\nFARE,SYD,FRA,AP,Q1,Y,HR,A,100.00\nFARE,SYD,FRA,AP,Q2,Y,OW,A,150.00\n\
             FARE,SYD,FRA,AP,Q2,Y,HR,A,100.00\nFARE,FRA,SYD,AP,Q2,Y,HR,A,122.44\nFARE,YYZ,FRA,AT,YY,Y,OW,,473.17\n\
             FARE,YYZ,FRA,AT,YY,Y,HR,,365.30\nFARE,FRA,YYZ,AT,YY,Y,HR,,450.00\nFARE,YYZ,FRA,AT,Q1,Y,OW,A,209.26\n\
             FARE,YYZ,FRA,AT,Q1,Y,HR,A,188.47\nFARE,FRA,YYZ,AT,Q1,Y,HR,A,200.00\nFARE,YYZ,FRA,AT,Q2,Y,OW,A,350.00\n\
             FARE,YYZ,FRA,AT,Q2,Y,HR,A,486.29\nFARE,FRA,YYZ,AT,Q2,Y,HR,A,250.00\nFARE,SYD,YYZ,PA,Q2,Y,HR,A,386.81\n\
             FARE,LAX,SYD,PA,YY,Y,OW,,359.61\nFARE,YYZ,PAR,PA,YY,Y,OW,,300.00\nFARE,YYZ,LAX,PA,YY,Y,OW,,416.59\n\
             FARE,YYZ,SYD,PA,Q1,Y,OW,A,158.90\nMPM,FRA,SYD,AP,3900\nTPM,SYD,YYZ,1649\nTPM,SYD,FRA,953\n\
             TPM,PAR,LAX,1822\nTPM,PAR,FRA,1579\nTPM,MAN,LAX,1498\nTPM,ROM,YYZ,790\nTPM,LAX,YYZ,2844\n\
             TPM,LAX,FRA,1829\nTPM,YYZ,FRA,2315\nEND\n",
        ],
        store: &[],
        status: 0,
        text: "MIGRATED 2\n",
        left: &[
            "HEAD,2,1,2025-01-01\nCITY,LYS,FR,2\nFARE,LAX,MIL,AT,YY,Y,OW,B2,01-01,12-31,230.25\n\
             CUR,US,USD,1234567.654321,2,10,U\nTPM,LAX,MIL,1316\nFARE,LYS,MIL,EH,YY,Y,HR,B2,01-01,12-31,104.59\n\
             CITY,MIL,IT,2\nFARE,MIL,LYS,EH,YY,Y,HR,,01-01,12-31,100.00\nCITY,NYC,US,1\n\
             FARE,MIL,LAX,AT,YY,Y,HR,B2,01-01,12-31,200.00\nTPM,MIL,LYS,521\n\
             FARE,MIL,LAX,AT,YY,Y,HR,,01-01,12-31,100.00\nFARE,LAX,LYS,AT,YY,Y,OW,,01-01,12-31,264.34\n\
             CUR,IT,EUR,0.000001,2,1,U\nTPM,LAX,LYS,1425\nFARE,LAX,MIL,AT,YY,Y,OW,,01-01,12-31,250.00\n\
             RULE,SAVER21,16,16,7,1,365,Y,*,*\nRULE,A,0,0,21,6,999,Y,*,*\nRULE,B2,16,2,0,0,15,Y,GHOST,\n\
             CUR,FR,EUR,0.750000,2,10000,U\nFARE,LAX,LYS,AT,YY,Y,HR,B2,01-01,12-31,300.00\n\
             FARE,LYS,MIL,EH,YY,Y,HR,,01-01,12-31,100.00\nMPM,LAX,MIL,AT,1951\n\
             FARE,LAX,MIL,AT,YY,Y,HR,,01-01,12-31,297.83\nFARE,LYS,MIL,EH,YY,Y,OW,,01-01,12-31,164.23\nCITY,LAX,US,1\n\
             FARE,MIL,LYS,EH,YY,Y,HR,B2,01-01,12-31,103.92\nFARE,LYS,LAX,AT,YY,Y,HR,,01-01,12-31,244.85\n\
             TPM,NYC,MIL,1462\nEND\n",
            "HEAD,2,2,2025-01-01\nCUR,AU,AUD,1234567.654321,0,100,U\nCUR,CA,CAD,1234567.654321,2,10000,U\n\
             CUR,DE,EUR,0.912345,0,5,U\nCUR,FR,EUR,0.000001,2,1,N\nCUR,GB,GBP,1234567.654321,0,1,N\n\
             CUR,IT,EUR,1.000000,2,5,U\nCUR,US,USD,110.000000,1,5,U\nCITY,SYD,AU,3\nCITY,PAR,FR,2\nCITY,MAN,GB,2\n\
             CITY,ROM,IT,2\nCITY,LAX,US,1\nCITY,YYZ,CA,1\nCITY,FRA,DE,2\nRULE,A,0,2,0,3,15,N,GHOST A,*\n\
             FARE,SYD,YYZ,PA,YY,Y,OW,,01-01,12-31,338.19\nFARE,SYD,YYZ,PA,YY,Y,HR,,01-01,12-31,300.00\n\
             FARE,YYZ,SYD,PA,YY,Y,HR,,01-01,12-31,300.00\nFARE,YYZ,SYD,PA,Q1,Y,HR,A,01-01,12-31,191.67\n\
             FARE,SYD,FRA,AP,YY,Y,OW,,01-01,12-31,200.00\nFARE,FRA,SYD,AP,YY,Y,HR,,01-01,12-31,200.00\n\
             FARE,SYD,FRA,AP,Q1,Y,OW,A,01-01,12-31,150.00\nFARE,SYD,FRA,AP,Q1,Y,HR,A,01-01,12-31,100.00\n\
             FARE,SYD,FRA,AP,Q2,Y,OW,A,01-01,12-31,150.00\nFARE,SYD,FRA,AP,Q2,Y,HR,A,01-01,12-31,100.00\n\
             FARE,FRA,SYD,AP,Q2,Y,HR,A,01-01,12-31,122.44\nFARE,YYZ,FRA,AT,YY,Y,OW,,01-01,12-31,473.17\n\
             FARE,YYZ,FRA,AT,YY,Y,HR,,01-01,12-31,365.30\nFARE,FRA,YYZ,AT,YY,Y,HR,,01-01,12-31,450.00\n\
             FARE,YYZ,FRA,AT,Q1,Y,OW,A,01-01,12-31,209.26\nFARE,YYZ,FRA,AT,Q1,Y,HR,A,01-01,12-31,188.47\n\
             FARE,FRA,YYZ,AT,Q1,Y,HR,A,01-01,12-31,200.00\nFARE,YYZ,FRA,AT,Q2,Y,OW,A,01-01,12-31,350.00\n\
             FARE,YYZ,FRA,AT,Q2,Y,HR,A,01-01,12-31,486.29\nFARE,FRA,YYZ,AT,Q2,Y,HR,A,01-01,12-31,250.00\n\
             FARE,SYD,YYZ,PA,Q2,Y,HR,A,01-01,12-31,386.81\nFARE,LAX,SYD,PA,YY,Y,OW,,01-01,12-31,359.61\n\
             FARE,YYZ,PAR,PA,YY,Y,OW,,01-01,12-31,300.00\nFARE,YYZ,LAX,PA,YY,Y,OW,,01-01,12-31,416.59\n\
             FARE,YYZ,SYD,PA,Q1,Y,OW,A,01-01,12-31,158.90\nMPM,FRA,SYD,AP,3900\nTPM,SYD,YYZ,1649\nTPM,SYD,FRA,953\n\
             TPM,PAR,LAX,1822\nTPM,PAR,FRA,1579\nTPM,MAN,LAX,1498\nTPM,ROM,YYZ,790\nTPM,LAX,YYZ,2844\n\
             TPM,LAX,FRA,1829\nTPM,YYZ,FRA,2315\nEND\n",
        ],
    },
];
