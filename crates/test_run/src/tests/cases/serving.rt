//! Connections that `serve` takes, and what comes of them.

use super::Served;

/// An edition as it is stored.
const STORED_7: &str =
    "HEAD,2,7,2025-01-01\nCUR,GB,GBP,0.750000,0,1,U\nCUR,DE,EUR,0.900000,2,1,N\nCUR,JP,JPY,110.000000,0,100,U\n\
     CUR,US,USD,1.000000,2,1,N\nCITY,LON,GB,2\nCITY,FRA,DE,2\nCITY,TYO,JP,3\nCITY,LAX,US,1\nCITY,NYC,US,1\n\
     RULE,FLEX,5,5,0,3,365,Y,*,*\nFARE,LON,TYO,EH,YY,Y,HR,FLEX,01-01,12-31,1200.00\n\
     FARE,LON,TYO,AP,YY,Y,HR,FLEX,01-01,12-31,1500.00\nFARE,LON,LAX,PA,YY,Y,HR,FLEX,01-01,12-31,1300.00\n\
     FARE,LON,NYC,PA,YY,Y,HR,FLEX,01-01,12-31,1400.00\nFARE,LON,LAX,AT,YY,Y,HR,FLEX,01-01,12-31,900.00\n\
     FARE,LON,NYC,AT,YY,Y,HR,FLEX,01-01,12-31,700.00\nTPM,LON,FRA,400\nTPM,FRA,TYO,5900\nTPM,TYO,LAX,5450\n\
     TPM,LAX,NYC,2470\nTPM,NYC,LON,3450\nMPM,LON,TYO,EH,7400\nMPM,LON,TYO,AP,11000\nEND\n";

/// Another, whose number is lower.
const STORED_1: &str =
    "HEAD,2,1,2025-01-01\nCUR,GB,GBP,0.750000,0,1,U\nCUR,FR,EUR,0.900000,2,1,N\nCUR,IT,EUR,0.900000,2,1,N\n\
     CITY,LON,GB,2\nCITY,PAR,FR,2\nCITY,ROM,IT,2\nFARE,LON,ROM,EH,YY,Y,OW,,01-01,12-31,400.00\nTPM,LON,PAR,300\n\
     TPM,PAR,ROM,700\nMPM,LON,ROM,EH,1000\nEND\n";

/// One without a record.
const STORED_2: &str = "HEAD,2,2,2025-02-01\nEND\n";

/// Publishes the first of them.
const POST_7: &[u8] =
    b"POST /editions HTTP/1.1\r\nContent-Length: 575\r\n\r\nHEAD,1,7,2025-01-01\nCUR,GB,GBP,0.750000,0,1,U\n\
      CUR,DE,EUR,0.900000,2,1,N\nCUR,JP,JPY,110.000000,0,100,U\nCUR,US,USD,1.000000,2,1,N\nCITY,LON,GB,2\n\
      CITY,FRA,DE,2\nCITY,TYO,JP,3\nCITY,LAX,US,1\nCITY,NYC,US,1\nRULE,FLEX,5,5,0,3,365,Y,*,*\n\
      FARE,LON,TYO,EH,YY,Y,HR,FLEX,1200.00\nFARE,LON,TYO,AP,YY,Y,HR,FLEX,1500.00\n\
      FARE,LON,LAX,PA,YY,Y,HR,FLEX,1300.00\nFARE,LON,NYC,PA,YY,Y,HR,FLEX,1400.00\nFARE,LON,LAX,AT,YY,Y,HR,FLEX,900.00\n\
      FARE,LON,NYC,AT,YY,Y,HR,FLEX,700.00\nTPM,LON,FRA,400\nTPM,FRA,TYO,5900\nTPM,TYO,LAX,5450\nTPM,LAX,NYC,2470\n\
      TPM,NYC,LON,3450\nMPM,LON,TYO,EH,7400\nMPM,LON,TYO,AP,11000\nEND\n";

/// Publishes the second.
const POST_1: &[u8] =
    b"POST /editions HTTP/1.1\r\nContent-Length: 228\r\n\r\nHEAD,1,1,2025-01-01\nCUR,GB,GBP,0.750000,0,1,U\n\
      CUR,FR,EUR,0.900000,2,1,N\nCUR,IT,EUR,0.900000,2,1,N\nCITY,LON,GB,2\nCITY,PAR,FR,2\nCITY,ROM,IT,2\n\
      FARE,LON,ROM,EH,YY,Y,OW,,400.00\nTPM,LON,PAR,300\nTPM,PAR,ROM,700\nMPM,LON,ROM,EH,1000\nEND\n";

/// Publishes the third.
const POST_2: &[u8] =
    b"POST /editions HTTP/1.1\r\nContent-Length: 24\r\n\r\nHEAD,1,2,2025-02-01\nEND\n";

/// Asks for a quotation that the second and the third may give.
const QUOTE: &[u8] = b"POST /quote HTTP/1.1\r\nContent-Length: 164\r\n\r\n\
      {\"sale\":\"2025-03-01\",\"from\":\"LON\",\"sectors\":[{\"to\":\"PAR\",\"carrier\":\"Q1\",\"day\":\"2025-04-10\",\
      \"cabin\":\"Y\"},{\"to\":\"ROM\",\"carrier\":\"Q1\",\"day\":\"2025-04-12\",\"cabin\":\"Y\"}]}";

/// Asks for the list of editions.
const LIST: &[u8] = b"GET /editions HTTP/1.1\r\nHost: localhost\r\n\r\n";

/// The list of the first alone.
const LISTED_7: &[u8] =
    b"HTTP/1.1 200 OK\r\nContent-Type: text/plain\r\nContent-Length: 24\r\nConnection: close\r\n\r\n\
      EDITION 7 2025-01-01 23\n";

/// The list of none.
const LISTED_NONE: &[u8] =
    b"HTTP/1.1 200 OK\r\nContent-Type: text/plain\r\nContent-Length: 0\r\nConnection: close\r\n\r\n";

/// The first is published.
const PUBLISHED_7: &[u8] =
    b"HTTP/1.1 201 Created\r\nContent-Type: text/plain\r\nContent-Length: 12\r\nConnection: close\r\n\r\nPUBLISHED 7\n";

/// The first stands already.
const ALREADY_7: &[u8] =
    b"HTTP/1.1 200 OK\r\nContent-Type: text/plain\r\nContent-Length: 10\r\nConnection: close\r\n\r\nALREADY 7\n";

/// The second is published.
const PUBLISHED_1: &[u8] =
    b"HTTP/1.1 201 Created\r\nContent-Type: text/plain\r\nContent-Length: 12\r\nConnection: close\r\n\r\nPUBLISHED 1\n";

/// The third is published.
const PUBLISHED_2: &[u8] =
    b"HTTP/1.1 201 Created\r\nContent-Type: text/plain\r\nContent-Length: 12\r\nConnection: close\r\n\r\nPUBLISHED 2\n";

/// The third stands already.
const ALREADY_2: &[u8] =
    b"HTTP/1.1 200 OK\r\nContent-Type: text/plain\r\nContent-Length: 10\r\nConnection: close\r\n\r\nALREADY 2\n";

/// The store failed.
const KEEPER_FAULT: &[u8] =
    b"HTTP/1.1 503 Service Unavailable\r\nContent-Type: text/plain\r\nContent-Length: 13\r\nConnection: close\r\n\r\n\
      KEEPER FAULT\n";

/// The quotation in the second.
const QUOTED_1: &[u8] =
    b"HTTP/1.1 200 OK\r\nContent-Type: text/plain\r\nContent-Length: 275\r\nConnection: close\r\n\r\n\
      EDITION 1 2025-01-01\nLON Q1 PAR Q1 ROM M400.00 YYYOW/1 NUC400.00END ROE0.750000\nPART 1 LON-ROM UNIT 1 OUT\n\
      FARE 8 YYYOW 400.00\nMILES TPM 1000 EMA 0 NET 1000 MPM 1000 M\nHIP NONE\nAF 400.00\n\
      UNIT 1 OW SUM 400.00 CHECK NONE PRICE 400.00\nTOTAL NUC 400.00\nROE 0.750000\nLOCAL GBP 300\n";

/// One connection, whole and cut off, and two, in one round and in one after the other.
pub static ROUNDS: [Served; 5] = [
    Served {
        words: &["serve", "--store=s", "--port=80", "--count=1"],
        bodies: &[STORED_7],
        store: &[],
        door: &[],
        connections: &[LIST],
        status: 0,
        text: "SERVED 1 CUT 0\n",
        sent: &[LISTED_7],
        left: &[STORED_7],
    },
    Served {
        words: &["serve", "--store=s", "--port=80", "--count=1"],
        bodies: &[STORED_7],
        store: &[],
        door: &[],
        connections: &[b"GET /editions HTTP/1.1\r\nHost: local"],
        status: 0,
        text: "SERVED 0 CUT 1\n",
        sent: &[b""],
        left: &[STORED_7],
    },
    Served {
        words: &["serve", "--store=s", "--port=80", "--count=2", "--round=2"],
        bodies: &[],
        store: &[],
        door: &[],
        connections: &[POST_7, LIST],
        status: 0,
        text: "SERVED 2 CUT 0\n",
        sent: &[PUBLISHED_7, LISTED_NONE],
        left: &[STORED_7],
    },
    Served {
        words: &["serve", "--store=s", "--port=80", "--count=2", "--round=1"],
        bodies: &[],
        store: &[],
        door: &[],
        connections: &[POST_7, LIST],
        status: 0,
        text: "SERVED 2 CUT 0\n",
        sent: &[PUBLISHED_7, LISTED_7],
        left: &[STORED_7],
    },
    Served {
        words: &["serve", "--store=s", "--port=80", "--count=3", "--round=2"],
        bodies: &[],
        store: &[],
        door: &[],
        connections: &[POST_7, POST_7],
        status: 0,
        text: "SERVED 2 CUT 0\n",
        sent: &[PUBLISHED_7, ALREADY_7],
        left: &[STORED_7],
    },
];

/// A store whose second append fails, and keeps nothing or its body; stores that don't open.
pub static STORES: [Served; 4] = [
    Served {
        words: &["serve", "--store=s", "--port=80", "--count=5"],
        bodies: &[],
        store: &[(4, false)],
        door: &[],
        connections: &[POST_1, POST_2, QUOTE, POST_2],
        status: 0,
        text: "SERVED 4 CUT 0\n",
        sent: &[PUBLISHED_1, KEEPER_FAULT, QUOTED_1, PUBLISHED_2],
        left: &[STORED_1, STORED_2],
    },
    Served {
        words: &["serve", "--store=s", "--port=80", "--count=5"],
        bodies: &[],
        store: &[(4, true)],
        door: &[],
        connections: &[POST_1, POST_2, QUOTE, POST_2],
        status: 0,
        text: "SERVED 4 CUT 0\n",
        sent: &[PUBLISHED_1, KEEPER_FAULT, QUOTED_1, ALREADY_2],
        left: &[STORED_1, STORED_2],
    },
    Served {
        words: &["serve", "--store=s", "--port=80", "--count=5"],
        bodies: &["junk"],
        store: &[],
        door: &[],
        connections: &[LIST],
        status: 14,
        text: "",
        sent: &[],
        left: &["junk"],
    },
    Served {
        words: &["serve", "--store=s", "--port=80", "--count=5"],
        bodies: &[],
        store: &[(1, false)],
        door: &[],
        connections: &[LIST],
        status: 10,
        text: "",
        sent: &[],
        left: &[],
    },
];

/// A door of which a call fails: `listen`, the first and the second `next`, a read and a write.
pub static DOORS: [Served; 5] = [
    Served {
        words: &["serve", "--store=s", "--port=80", "--count=2"],
        bodies: &[],
        store: &[],
        door: &[1],
        connections: &[POST_7, LIST],
        status: 11,
        text: "",
        sent: &[],
        left: &[],
    },
    Served {
        words: &["serve", "--store=s", "--port=80", "--count=2"],
        bodies: &[],
        store: &[],
        door: &[2],
        connections: &[POST_7, LIST],
        status: 11,
        text: "",
        sent: &[],
        left: &[],
    },
    Served {
        words: &["serve", "--store=s", "--port=80", "--count=2"],
        bodies: &[],
        store: &[],
        door: &[13],
        connections: &[POST_7, LIST],
        status: 11,
        text: "",
        sent: &[PUBLISHED_7],
        left: &[STORED_7],
    },
    Served {
        words: &["serve", "--store=s", "--port=80", "--count=2"],
        bodies: &[],
        store: &[],
        door: &[3],
        connections: &[POST_7],
        status: 0,
        text: "SERVED 0 CUT 1\n",
        sent: &[b""],
        left: &[],
    },
    Served {
        words: &["serve", "--store=s", "--port=80", "--count=2"],
        bodies: &[],
        store: &[],
        door: &[4],
        connections: &[POST_7],
        status: 0,
        text: "SERVED 0 CUT 1\n",
        sent: &[b""],
        left: &[STORED_7],
    },
];
