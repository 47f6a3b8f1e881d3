//! The commands `check`, `diff` and `compare`: worked texts.

use super::Told;
use crate::tests::tariffs::{END, MILES, PASSING, PLACES, THROUGH, TIED_FARES, WORLD_FARES};

const CHECK: &[&str] = &["check"];

/// Reading faults, faults of records beside one another, the first of both kinds, and an edition without a fault.
pub static CHECKS: [Told; 4] = [
    Told {
        words: CHECK,
        source: &[
            "HEAD,1,1,2025-01-01\n\
             CUR,GB,GBP,0.750000,0,1\n\
             CITY,LON,GB,2\n\
             CITY,ROM,IT,4\n\
             fare,LON,ROM,EH,YY,Y,OW,,400.00\n\
             FARE,LON,ROM,EH,YY,W,OW,,400.00\n\
             FARE,LON,ROM,EH,YY,Y,OW,,400\n\
             RULE,FLEX,5,5,0,3,365,Y,*,A  B\n",
        ],
        bodies: &[],
        status: 3,
        text: "TARIFF 2 BadRecord 0  CUR,GB,GBP,0.750000,0,1  the number of fields is 6, and for CUR it is 7\n\
               TARIFF 4 BadRecord 4  CITY,ROM,IT,4  field 4 (area) has to be 1, 2 or 3\n\
               TARIFF 5 UnknownRecord  fare,LON,ROM,EH,YY,Y,OW,,\
               400.00  field 1 is none of CUR, CITY, RULE, FARE, MPM, TPM, EMA and END\n\
               TARIFF 6 BadRecord 6  FARE,LON,ROM,EH,YY,W,OW,,400.00  field 6 (class) has to be F, C or Y\n\
               TARIFF 7 BadRecord 9  FARE,LON,ROM,EH,YY,Y,OW,,\
               400  field 9 (amount) has to be an amount from 0.00 to 9999999.99 with two decimals\n\
               TARIFF 8 BadRecord 10  RULE,FLEX,5,5,0,3,365,Y,*,\
               A  B  field 10 (ends) has to be *, or empty, or 1 to 64 names with one space between, a name being a \
               rule's id or -\n\
               TARIFF 9 NoEnd  the text has no END record\n",
        line: "TARIFF 2 BadRecord 0\n",
    },
    Told {
        words: CHECK,
        source: &[
            "HEAD,1,1,2025-01-01\n\
             CUR,GB,GBP,0.750000,0,1,U\n\
             CUR,FR,EUR,0.900000,2,1,N\n\
             CUR,IT,EUR,0.900000,2,1,N\n\
             CITY,LON,GB,2\n\
             CITY,ROM,IT,2\n\
             FARE,LON,ROM,EH,YY,Y,OW,FLEX,400.00\n\
             TPM,LON,PAR,300\n\
             TPM,PAR,ROM,700\n\
             TPM,PAR,LON,300\n\
             TPM,ROM,ROM,0\n\
             MPM,LON,ROM,EH,1000\n\
             END\n",
        ],
        bodies: &[],
        status: 3,
        text: "TARIFF 7 UnknownRule  FARE,LON,ROM,EH,YY,Y,OW,FLEX,400.00  the rule FLEX has no RULE record\n\
               TARIFF 8 UnknownCity  TPM,LON,PAR,300  the city PAR has no CITY record\n\
               TARIFF 9 UnknownCity  TPM,PAR,ROM,700  the city PAR has no CITY record\n\
               TARIFF 10 Duplicate 8  TPM,PAR,LON,300  its key is that of record 8\n\
               TARIFF 11 SamePoint  TPM,ROM,ROM,0  its two cities are equal\n",
        line: "TARIFF 7 UnknownRule\n",
    },
    Told {
        words: CHECK,
        source: &[
            PLACES,
            "FARE,LON,ROM,EH,YY,Y,OW,,400\nTPM,LON,PAR,300\nTPM,PAR,LON,700\nMPM,LON,ROM,EH,1000\nEND\n",
        ],
        bodies: &[],
        status: 3,
        text: "TARIFF 8 BadRecord 9  FARE,LON,ROM,EH,YY,Y,OW,,\
               400  field 9 (amount) has to be an amount from 0.00 to 9999999.99 with two decimals\n",
        line: "TARIFF 8 BadRecord 9\n",
    },
    Told {
        words: &["check", "--"],
        source: &[WORLD_FARES, END],
        bodies: &[],
        status: 0,
        text: "CHECKED 7 2025-01-01 23\n",
        line: "",
    },
];

/// An edition in which a fare and a mileage are others, a city and its fare are new, and a mileage has moved.
const LATER: &str =
    "HEAD,1,2,2025-02-01\nCUR,GB,GBP,0.750000,0,1,U\nCUR,FR,EUR,0.900000,2,1,N\nCUR,IT,EUR,0.900000,2,1,N\n\
     CITY,LON,GB,2\nCITY,PAR,FR,2\nCITY,ROM,IT,2\nFARE,LON,ROM,EH,YY,Y,OW,,400.00\nTPM,LON,PAR,310\n\
     MPM,LON,ROM,EH,1000\nFARE,LON,PAR,EH,YY,Y,OW,,150.00\nFARE,PAR,ROM,EH,YY,Y,OW,,240.00\nCITY,MIL,IT,2\n\
     FARE,LON,MIL,EH,YY,Y,OW,,380.00\nTPM,PAR,ROM,700\nEND\n";

const TWO: &[&[&str]] = &[&[PLACES, THROUGH, MILES, TIED_FARES, END], &[LATER]];

/// The records that differ, in either direction and in none, and numbers that name no edition.
pub static DIFFERENCES: [Told; 5] = [
    Told {
        words: &["diff", "--store=s", "--from=1", "--to=2"],
        source: &[],
        bodies: TWO,
        status: 0,
        text: "DIFF 1 2 removed 2 added 4 same 10\n\
               - TPM,LON,PAR,300\n\
               - FARE,PAR,ROM,EH,YY,Y,OW,,01-01,12-31,250.00\n\
               + TPM,LON,PAR,310\n\
               + FARE,PAR,ROM,EH,YY,Y,OW,,01-01,12-31,240.00\n\
               + CITY,MIL,IT,2\n\
               + FARE,LON,MIL,EH,YY,Y,OW,,01-01,12-31,380.00\n",
        line: "",
    },
    Told {
        words: &["diff", "--store=s", "--from=2", "--to=1"],
        source: &[],
        bodies: TWO,
        status: 0,
        text: "DIFF 2 1 removed 4 added 2 same 10\n\
               - TPM,LON,PAR,310\n\
               - FARE,PAR,ROM,EH,YY,Y,OW,,01-01,12-31,240.00\n\
               - CITY,MIL,IT,2\n\
               - FARE,LON,MIL,EH,YY,Y,OW,,01-01,12-31,380.00\n\
               + TPM,LON,PAR,300\n\
               + FARE,PAR,ROM,EH,YY,Y,OW,,01-01,12-31,250.00\n",
        line: "",
    },
    Told {
        words: &["diff", "--store=s", "--from=1", "--to=1"],
        source: &[],
        bodies: TWO,
        status: 0,
        text: "DIFF 1 1 removed 0 added 0 same 12\n",
        line: "",
    },
    Told {
        words: &["diff", "--store=s", "--from=8", "--to=9"],
        source: &[],
        bodies: TWO,
        status: 15,
        text: "",
        line: "NO SUCH EDITION 8\n",
    },
    Told {
        words: &["diff", "--store=s", "--from=1", "--to=9"],
        source: &[],
        bodies: TWO,
        status: 15,
        text: "",
        line: "NO SUCH EDITION 9\n",
    },
];

/// What trips cost in both editions, a batch of none, and what is no batch.
pub static COMPARISONS: [Told; 4] = [
    Told {
        words: &["compare", "--store=s", "--from=1", "--to=2", "--workers=2"],
        source: &[
            r#"[{"sale":"2025-03-01","from":"LON","sectors":[{"to":"PAR","carrier":"Q1","day":"2025-04-10","cabin":"Y"},{"to":"ROM","carrier":"Q1","day":"2025-04-12","cabin":"Y"}]},"#,
            PASSING,
            r#",{"sale":"2025-03-01","from":"LON","sectors":[{"to":"MIL","carrier":"Q1","day":"2025-04-10","cabin":"Y"}]},{"sale":"2025-03-01","from":"LON","sectors":[{"to":"PAR","carrier":"Q1","day":"2025-04-10","cabin":"Y"},{"to":"ROM","carrier":"Q1","day":"2025-04-12","cabin":"Y"},{"to":"PAR","carrier":"Q1","day":"2025-04-14","cabin":"Y"},{"to":"LON","carrier":"Q1","day":"2025-04-16","cabin":"Y"}]},{},"#,
            r#"{"sale":"2025-03-01","from":"XXX","sectors":[{"to":"PAR","carrier":"Q1","day":"2025-04-10","cabin":"Y"},{"to":"ROM","carrier":"Q1","day":"2025-04-12","cabin":"Y"}]}]"#,
        ],
        bodies: TWO,
        status: 0,
        text: "ITEM 1 400.00 390.00 -10.00\n\
               ITEM 2 400.00 390.00 -10.00\n\
               ITEM 3 - 380.00 -\n\
               ITEM 4 - - -\n\
               ITEM 5 FAULT TRIP Missing sale 0\n\
               ITEM 6 FAULT UNKNOWN PLACE XXX\n\
               COMPARE 1 2 items 6 same 0 dearer 0 cheaper 2 opened 1 closed 0 none 1 faults 2 old 800.00 new 780.00 \
               change -20.00\n",
        line: "",
    },
    Told {
        words: &["compare", "--store=s", "--from=1", "--to=2"],
        source: &["[]"],
        bodies: TWO,
        status: 0,
        text: "COMPARE 1 2 items 0 same 0 dearer 0 cheaper 0 opened 0 closed 0 none 0 faults 0 old 0.00 new 0.00 \
               change 0.00\n",
        line: "",
    },
    Told {
        words: &["compare", "--store=s", "--from=1", "--to=2"],
        source: &["{}"],
        bodies: TWO,
        status: 4,
        text: "",
        line: "TRIP Bad trip 0\n",
    },
    Told {
        words: &["compare", "--store=s", "--from=1", "--to=9"],
        source: &["[]"],
        bodies: TWO,
        status: 15,
        text: "",
        line: "NO SUCH EDITION 9\n",
    },
];
