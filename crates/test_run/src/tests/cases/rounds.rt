//! Connections that `serve` takes: the answers of a separate plain program.

use super::Served;

/// Edition 61, of 30 records, as it is stored.
const EDITION_61: &str =
    "HEAD,2,61,2025-01-01\nCUR,CA,CAD,0.750000,2,10,N\nCUR,FR,EUR,1234567.654321,2,100,U\n\
     CUR,GB,GBP,0.750000,2,5,U\nCUR,JP,JPY,0.912345,0,1,U\nCUR,US,USD,110.000000,1,1,N\nCITY,TYO,JP,3\nCITY,NYC,US,1\n\
     CITY,YYZ,CA,1\nCITY,LON,GB,2\nCITY,MAN,GB,2\nCITY,LAX,US,1\nCITY,LYS,FR,2\nRULE,B2,2,5,0,0,15,Y,*,*\n\
     RULE,A,1,16,21,3,30,N,*,FLEX GHOST A -\nRULE,FLEX,0,2,3,0,15,N,*,A B2\n\
     FARE,YYZ,TYO,AT,YY,Y,HR,FLEX,01-01,12-31,150.00\nFARE,LON,YYZ,AT,YY,Y,OW,FLEX,04-14,09-06,128.96\n\
     FARE,LON,YYZ,AT,YY,Y,OW,FLEX,09-07,04-13,150.00\nFARE,TYO,YYZ,AT,YY,Y,OW,FLEX,05-17,10-09,250.00\n\
     FARE,TYO,YYZ,AT,YY,Y,OW,FLEX,10-10,05-16,150.00\nFARE,TYO,LYS,AP,YY,Y,HR,FLEX,01-01,12-31,124.14\n\
     TPM,TYO,NYC,2140\nTPM,TYO,YYZ,1145\nTPM,TYO,LYS,407\nTPM,NYC,MAN,378\nTPM,YYZ,LON,665\nTPM,YYZ,MAN,1792\n\
     TPM,YYZ,LYS,1285\nTPM,LON,LYS,788\nTPM,LAX,LYS,2093\nEND\n";

/// Edition 58, of 23 records, in the former version.
const FORMER_58: &str =
    "HEAD,1,58,2025-01-01\nCUR,GB,GBP,0.750000,0,5,U\nCUR,IT,EUR,110.000000,1,1,U\n\
     CUR,US,USD,1.000000,1,1,N\nCITY,MIL,IT,2\nCITY,LAX,US,1\nCITY,ROM,IT,2\nCITY,MAN,GB,2\n\
     FARE,MIL,LAX,AT,YY,Y,OW,,200.00\nFARE,LAX,MIL,AT,YY,Y,HR,,250.00\nFARE,MIL,LAX,AT,YY,F,HR,,318.57\n\
     FARE,LAX,MIL,AT,YY,F,HR,,455.53\nFARE,MIL,LAX,AT,Q2,Y,OW,,150.00\nFARE,MIL,LAX,AT,Q2,Y,HR,,100.00\n\
     FARE,LAX,MIL,AT,Q2,Y,HR,,100.00\nFARE,LAX,MIL,AT,YY,Y,OW,,214.94\nFARE,MIL,LAX,AT,YY,Y,HR,,100.00\n\
     FARE,LAX,MIL,AT,YY,F,OW,,550.00\nFARE,LAX,MIL,AT,Q2,Y,OW,,200.00\nFARE,LAX,ROM,AT,YY,F,HR,,411.55\n\
     TPM,MIL,LAX,975\nTPM,MIL,ROM,1320\nTPM,LAX,MAN,1096\nTPM,ROM,MAN,1543\nEND\n";

/// Another edition 58, as it is stored.
const EDITION_58: &str =
    "HEAD,2,58,2025-01-01\nCUR,AU,AUD,1234567.654321,2,10000,N\nCUR,CA,CAD,0.750000,0,10,U\n\
     CUR,DE,EUR,0.750000,2,10000,U\nCUR,FR,EUR,1234567.654321,1,1,N\nCUR,IT,EUR,1.000000,2,100,N\nCITY,ROM,IT,1\n\
     CITY,YYZ,CA,1\nCITY,LYS,FR,2\nCITY,FRA,DE,2\nCITY,SYD,AU,3\nCITY,PAR,FR,2\nRULE,A,1,16,0,0,15,Y,*,*\n\
     FARE,ROM,FRA,AT,YY,Y,OW,,01-01,12-31,273.21\nFARE,ROM,FRA,AT,YY,Y,HR,,01-01,12-31,229.76\n\
     FARE,FRA,ROM,AT,YY,Y,HR,,01-01,12-31,200.00\nFARE,YYZ,ROM,WH,YY,Y,OW,,01-01,12-31,248.00\n\
     FARE,YYZ,ROM,WH,YY,Y,HR,,01-01,12-31,200.00\nFARE,ROM,YYZ,WH,YY,Y,HR,,01-01,12-31,200.00\nTPM,ROM,YYZ,1063\n\
     TPM,ROM,FRA,918\nTPM,ROM,PAR,1397\nTPM,YYZ,LYS,825\nTPM,YYZ,FRA,1156\nTPM,YYZ,PAR,1513\nTPM,FRA,SYD,1975\nEND\n";

/// Edition 9, as it is stored.
const EDITION_9: &str =
    "HEAD,2,9,2025-01-01\nCUR,AU,AUD,1.000000,2,1,N\nCUR,FR,EUR,0.750000,1,10,N\n\
     CUR,JP,JPY,1234567.654321,2,1,U\nCITY,SYD,AU,3\nCITY,OSA,JP,3\nCITY,PAR,FR,2\nRULE,B2,16,16,3,0,15,Y,,\n\
     FARE,SYD,OSA,EH,YY,Y,OW,,01-01,12-31,405.46\nFARE,SYD,OSA,EH,YY,Y,HR,,05-27,07-18,350.00\n\
     FARE,SYD,OSA,EH,YY,Y,HR,,07-19,05-26,200.00\nFARE,OSA,SYD,EH,YY,Y,HR,,01-01,12-31,300.00\n\
     FARE,SYD,OSA,EH,Q2,Y,OW,B2,01-19,09-21,450.00\nFARE,SYD,OSA,EH,Q2,Y,OW,B2,09-22,01-18,357.96\n\
     FARE,PAR,SYD,EH,YY,Y,OW,,01-16,12-05,450.00\nFARE,PAR,SYD,EH,YY,Y,OW,,12-06,01-15,384.79\n\
     FARE,PAR,SYD,EH,YY,Y,HR,,01-07,12-08,200.00\nFARE,PAR,SYD,EH,YY,Y,HR,,12-09,01-06,319.44\n\
     FARE,SYD,PAR,EH,YY,Y,HR,,02-05,04-06,250.00\nFARE,SYD,PAR,EH,YY,Y,HR,,04-07,02-04,250.00\n\
     FARE,PAR,OSA,AT,YY,Y,HR,,01-01,12-31,200.00\nFARE,OSA,SYD,AP,YY,Y,OW,,01-01,12-31,250.00\n\
     FARE,SYD,PAR,PA,YY,Y,OW,,03-18,08-30,300.00\nFARE,SYD,PAR,PA,YY,Y,OW,,08-31,09-25,535.29\n\
     FARE,SYD,PAR,PA,YY,Y,OW,,09-26,03-17,490.42\nTPM,SYD,OSA,2748\nTPM,SYD,PAR,3151\nTPM,OSA,PAR,1832\nEND\n";

/// Edition 33, as it is stored.
const EDITION_33: &str =
    "HEAD,2,33,2025-01-01\nCUR,AU,AUD,0.750000,1,100,U\nCUR,FR,EUR,1234567.654321,2,10000,N\n\
     CUR,GB,GBP,0.750000,0,1,N\nCUR,JP,JPY,1234567.654321,1,1,N\nCUR,US,USD,1234567.654321,2,100,N\nCITY,PAR,FR,2\n\
     CITY,OSA,JP,3\nCITY,LON,GB,1\nCITY,LAX,US,1\nCITY,NYC,US,1\nCITY,SYD,AU,3\nRULE,SAVER21,1,5,0,3,999,Y,*,*\n\
     RULE,FLEX,5,2,7,1,999,Y,- GHOST SAVER21,*\nFARE,PAR,LAX,AT,YY,Y,OW,,04-29,05-16,400.00\n\
     FARE,PAR,LAX,AT,YY,Y,OW,,05-17,12-12,400.00\nFARE,PAR,LAX,AT,YY,Y,OW,,12-13,04-28,250.00\n\
     FARE,PAR,LAX,AT,YY,Y,HR,,04-15,05-15,269.58\nFARE,PAR,LAX,AT,YY,Y,HR,,05-16,04-14,378.14\n\
     FARE,LAX,PAR,AT,YY,Y,HR,FLEX,01-01,12-31,300.00\nFARE,OSA,LAX,PA,YY,Y,OW,,01-01,12-31,300.00\n\
     FARE,LAX,OSA,PA,YY,Y,HR,,08-11,12-18,415.99\nFARE,LAX,OSA,PA,YY,Y,HR,,12-19,08-10,350.00\n\
     FARE,OSA,LAX,PA,YY,Y,OW,FLEX,02-15,08-10,300.00\nFARE,OSA,LAX,PA,YY,Y,OW,FLEX,08-11,10-26,300.00\n\
     FARE,OSA,LAX,PA,YY,Y,OW,FLEX,10-27,02-14,350.00\nFARE,OSA,LAX,PA,YY,Y,HR,FLEX,01-01,12-31,350.80\n\
     FARE,LAX,OSA,PA,YY,Y,HR,FLEX,01-01,12-31,298.89\nFARE,LAX,NYC,WH,YY,Y,OW,,01-01,12-31,500.00\n\
     FARE,PAR,OSA,EH,YY,Y,OW,,01-01,12-31,132.28\nFARE,OSA,SYD,AP,YY,Y,OW,FLEX,01-01,12-31,300.00\n\
     FARE,PAR,SYD,EH,YY,Y,HR,FLEX,03-22,09-28,300.00\nFARE,PAR,SYD,EH,YY,Y,HR,FLEX,09-29,03-21,371.31\n\
     TPM,PAR,OSA,575\nTPM,PAR,LON,1210\nTPM,PAR,LAX,1782\nTPM,PAR,SYD,2585\nTPM,OSA,LAX,1784\nTPM,OSA,NYC,1667\n\
     TPM,LON,NYC,1251\nEND\n";

/// Edition 1, as it is stored.
const EDITION_1: &str =
    "HEAD,2,1,2025-01-01\nCUR,FR,EUR,110.000000,2,100,U\nCUR,GB,GBP,1.000000,0,1,U\n\
     CUR,IT,EUR,110.000000,0,1,U\nCITY,LON,GB,2\nCITY,MIL,IT,2\nCITY,LYS,FR,2\nCITY,MAN,GB,2\n\
     FARE,LON,MAN,EH,YY,Y,OW,,01-01,12-31,200.00\nFARE,LON,MAN,EH,YY,Y,HR,,01-01,12-31,138.48\n\
     FARE,MAN,LON,EH,YY,Y,HR,,01-01,12-31,170.93\nFARE,LON,LYS,EH,Q1,Y,HR,,06-27,09-05,248.56\n\
     FARE,MAN,LYS,EH,YY,Y,OW,,01-01,12-31,80.66\nFARE,LYS,MAN,EH,Q1,Y,HR,,06-20,08-19,50.00\n\
     FARE,LYS,MAN,EH,Q1,Y,HR,,08-20,06-19,100.00\nFARE,LON,MAN,EH,Q1,Y,HR,,01-01,12-31,150.00\n\
     FARE,LON,LYS,EH,YY,Y,OW,,01-01,12-31,217.76\nFARE,MIL,LON,AP,YY,Y,HR,,03-11,04-29,286.46\n\
     FARE,MIL,LON,AP,YY,Y,HR,,04-30,03-10,200.00\nMPM,LON,LYS,EH,1539\nTPM,LON,LYS,1276\nTPM,LON,MAN,1142\n\
     TPM,MIL,LYS,3185\nTPM,LYS,MAN,262\nEND\n";

/// Odd heads together with a publication; a head behind an empty line; one publication.
pub static TOGETHER: [Served; 3] = [
    Served {
        words: &["serve", "--store=s", "--port=80", "--count=6", "--round=8"],
        bodies: &[EDITION_61, FORMER_58],
        store: &[],
        door: &[],
        connections: &[
            b"GET /editions/1 HTTP/1.1\nX: \n\n",
            b"POST /editions HTTP/1.1\r\nContent-Length: 612\r\n\r\nHEAD,1,58,2025-01-01\nCUR,GB,GBP,0.750000,0,5,U\n\
              CUR,IT,EUR,110.000000,1,1,U\nCUR,US,USD,1.000000,1,1,N\nCITY,MIL,IT,2\nCITY,LAX,US,1\nCITY,ROM,IT,2\n\
              CITY,MAN,GB,2\nFARE,MIL,LAX,AT,YY,Y,OW,,200.00\nFARE,LAX,MIL,AT,YY,Y,HR,,250.00\n\
              FARE,MIL,LAX,AT,YY,F,HR,,318.57\nFARE,LAX,MIL,AT,YY,F,HR,,455.53\nFARE,MIL,LAX,AT,Q2,Y,OW,,150.00\n\
              FARE,MIL,LAX,AT,Q2,Y,HR,,100.00\nFARE,LAX,MIL,AT,Q2,Y,HR,,100.00\nFARE,LAX,MIL,AT,YY,Y,OW,,214.94\n\
              FARE,MIL,LAX,AT,YY,Y,HR,,100.00\nFARE,LAX,MIL,AT,YY,F,OW,,550.00\nFARE,LAX,MIL,AT,Q2,Y,OW,,200.00\n\
              FARE,LAX,ROM,AT,YY,F,HR,,411.55\nTPM,MIL,LAX,975\nTPM,MIL,ROM,1320\nTPM,LAX,MAN,1096\nTPM,ROM,MAN,1543\n\
              END\n",
            b"GET /\xc3\xa9 HTTP/1.1\r\nHost: localhost\r\n\r\n",
            b"GET /editions HTTP/1.0\n\n",
        ],
        status: 0,
        text: "SERVED 4 CUT 0\n",
        sent: &[
            b"HTTP/1.1 404 Not Found\r\nContent-Type: text/plain\r\nContent-Length: 18\r\nConnection: close\r\n\r\n\
              NO SUCH EDITION 1\n",
            b"HTTP/1.1 200 OK\r\nContent-Type: text/plain\r\nContent-Length: 11\r\nConnection: close\r\n\r\n\
              ALREADY 58\n",
            b"HTTP/1.1 404 Not Found\r\nContent-Type: text/plain\r\nContent-Length: 9\r\nConnection: close\r\n\r\n\
              NO ROUTE\n",
            b"HTTP/1.1 200 OK\r\nContent-Type: text/plain\r\nContent-Length: 50\r\nConnection: close\r\n\r\n\
              EDITION 61 2025-01-01 30\nEDITION 58 2025-01-01 23\n",
        ],
        left: &[EDITION_61, FORMER_58],
    },
    Served {
        words: &["serve", "--store=s", "--port=80", "--count=2", "--round=3"],
        bodies: &[EDITION_58, EDITION_9],
        store: &[],
        door: &[],
        connections: &[
            b"\r\nPOST /quote HTTP/1.1\r\nX:\ta b\t\r\nContent-Length:0041 \r\n\r\n\
              TRIP,2025-07-17,,LON,FRA,Q1,2025-08-16,Y tail",
        ],
        status: 0,
        text: "SERVED 1 CUT 0\n",
        sent: &[
            b"HTTP/1.1 400 Bad Request\r\nContent-Type: text/plain\r\nContent-Length: 13\r\nConnection: close\r\n\r\n\
              TRIP NotJson\n",
        ],
        left: &[EDITION_58, EDITION_9],
    },
    Served {
        words: &["serve", "--store=s", "--port=80", "--count=7", "--round=3"],
        bodies: &[EDITION_33],
        store: &[],
        door: &[],
        connections: &[
            b"POST /editions HTTP/1.1\r\nContent-Length: 119\r\n\r\nHEAD,2,76,2025-01-01\nCUR,AU,AUD,0.750000,0,5,U\n\
              CITY,OSA,JP,3\nCITY,SYD,AU,3\nCUR,JP,JPY,1.000000,2,5,N\nCITY,TYO,JP,3\nEND\n",
        ],
        status: 0,
        text: "SERVED 1 CUT 0\n",
        sent: &[
            b"HTTP/1.1 201 Created\r\nContent-Type: text/plain\r\nContent-Length: 13\r\nConnection: close\r\n\r\n\
              PUBLISHED 76\n",
        ],
        left: &[
            EDITION_33,
            "HEAD,2,76,2025-01-01\nCUR,AU,AUD,0.750000,0,5,U\nCITY,OSA,JP,3\nCITY,SYD,AU,3\nCUR,JP,JPY,1.000000,2,5,N\n\
             CITY,TYO,JP,3\nEND\n",
        ],
    },
];

/// Publications one after the other with an append that fails, and a store that doesn't open.
pub static APART: [Served; 3] = [
    Served {
        words: &["serve", "--store=s", "--port=80", "--count=9"],
        bodies: &[],
        store: &[(7, false), (9, true)],
        door: &[],
        connections: &[
            b"POST /editions HTTP/1.1\r\nContent-Length: 1505\r\n\r\nHEAD,2,1,2024-01-01\nCUR,AU,AUD,0.750000,1,10,N\n\
              CUR,CA,CAD,1.000000,1,5,U\nCUR,DE,EUR,1234567.654321,2,1,N\nCUR,IT,EUR,110.000000,1,100,N\n\
              CUR,US,USD,1234567.654321,1,10000,N\nCITY,ROM,IT,2\nCITY,MIL,IT,2\nCITY,SYD,AU,3\nCITY,NYC,US,1\n\
              CITY,YYZ,CA,1\nCITY,FRA,DE,2\nRULE,A,16,16,7,6,999,Y,*,*\nFARE,ROM,SYD,EH,Q2,Y,HR,A,08-24,09-30,200.00\n\
              FARE,ROM,SYD,EH,Q2,Y,HR,A,10-01,08-23,234.49\nFARE,SYD,ROM,EH,Q2,Y,HR,A,01-01,12-31,250.00\n\
              FARE,ROM,SYD,EH,Q2,Y,OW,,01-01,12-31,450.00\nFARE,ROM,SYD,EH,Q2,Y,HR,,01-01,12-31,322.43\n\
              FARE,ROM,MIL,EH,Q2,Y,OW,A,01-01,12-31,370.64\nFARE,ROM,MIL,EH,Q2,Y,HR,A,01-01,12-31,353.38\n\
              FARE,MIL,ROM,EH,Q2,Y,HR,A,01-27,05-17,300.00\nFARE,MIL,ROM,EH,Q2,Y,HR,A,05-18,01-26,350.00\n\
              FARE,ROM,MIL,EH,Q2,Y,OW,,01-01,12-31,400.00\nFARE,MIL,ROM,EH,Q2,Y,HR,,07-02,09-02,319.71\n\
              FARE,MIL,ROM,EH,Q2,Y,HR,,09-03,07-01,450.00\nFARE,SYD,MIL,EH,Q2,Y,OW,A,03-08,10-23,122.93\n\
              FARE,SYD,MIL,EH,Q2,Y,OW,A,10-24,03-07,50.00\nFARE,SYD,MIL,EH,Q2,Y,HR,A,02-02,07-23,73.11\n\
              FARE,SYD,MIL,EH,Q2,Y,HR,A,07-24,02-01,50.00\nFARE,MIL,SYD,EH,Q2,Y,HR,A,12-20,12-04,95.74\n\
              FARE,SYD,MIL,EH,Q2,Y,OW,,02-02,12-06,150.00\nFARE,SYD,MIL,EH,Q2,Y,OW,,12-07,02-01,150.00\n\
              FARE,SYD,MIL,EH,Q2,Y,HR,,10-14,11-18,103.69\nFARE,MIL,SYD,EH,Q2,Y,HR,,01-01,12-31,50.00\n\
              FARE,FRA,MIL,AT,Q2,Y,OW,,01-01,12-31,400.00\nFARE,FRA,NYC,AT,Q2,Y,OW,A,05-21,07-08,255.65\n\
              FARE,FRA,NYC,AT,Q2,Y,OW,A,07-09,05-20,150.00\nMPM,MIL,ROM,EH,2879\nTPM,ROM,MIL,2245\nTPM,ROM,SYD,2588\n\
              TPM,ROM,FRA,1357\nTPM,MIL,SYD,385\nTPM,MIL,NYC,882\nTPM,MIL,YYZ,2085\nTPM,SYD,YYZ,2471\n\
              TPM,NYC,FRA,1528\nEND\n",
            b"GET /editions HTTP/1.1\r\n\r\n",
        ],
        status: 0,
        text: "SERVED 2 CUT 0\n",
        sent: &[
            b"HTTP/1.1 201 Created\r\nContent-Type: text/plain\r\nContent-Length: 12\r\nConnection: close\r\n\r\n\
              PUBLISHED 1\n",
            b"HTTP/1.1 200 OK\r\nContent-Type: text/plain\r\nContent-Length: 24\r\nConnection: close\r\n\r\n\
              EDITION 1 2024-01-01 45\n",
        ],
        left: &[
            "HEAD,2,1,2024-01-01\nCUR,AU,AUD,0.750000,1,10,N\nCUR,CA,CAD,1.000000,1,5,U\n\
             CUR,DE,EUR,1234567.654321,2,1,N\nCUR,IT,EUR,110.000000,1,100,N\nCUR,US,USD,1234567.654321,1,10000,N\n\
             CITY,ROM,IT,2\nCITY,MIL,IT,2\nCITY,SYD,AU,3\nCITY,NYC,US,1\nCITY,YYZ,CA,1\nCITY,FRA,DE,2\n\
             RULE,A,16,16,7,6,999,Y,*,*\nFARE,ROM,SYD,EH,Q2,Y,HR,A,08-24,09-30,200.00\n\
             FARE,ROM,SYD,EH,Q2,Y,HR,A,10-01,08-23,234.49\nFARE,SYD,ROM,EH,Q2,Y,HR,A,01-01,12-31,250.00\n\
             FARE,ROM,SYD,EH,Q2,Y,OW,,01-01,12-31,450.00\nFARE,ROM,SYD,EH,Q2,Y,HR,,01-01,12-31,322.43\n\
             FARE,ROM,MIL,EH,Q2,Y,OW,A,01-01,12-31,370.64\nFARE,ROM,MIL,EH,Q2,Y,HR,A,01-01,12-31,353.38\n\
             FARE,MIL,ROM,EH,Q2,Y,HR,A,01-27,05-17,300.00\nFARE,MIL,ROM,EH,Q2,Y,HR,A,05-18,01-26,350.00\n\
             FARE,ROM,MIL,EH,Q2,Y,OW,,01-01,12-31,400.00\nFARE,MIL,ROM,EH,Q2,Y,HR,,07-02,09-02,319.71\n\
             FARE,MIL,ROM,EH,Q2,Y,HR,,09-03,07-01,450.00\nFARE,SYD,MIL,EH,Q2,Y,OW,A,03-08,10-23,122.93\n\
             FARE,SYD,MIL,EH,Q2,Y,OW,A,10-24,03-07,50.00\nFARE,SYD,MIL,EH,Q2,Y,HR,A,02-02,07-23,73.11\n\
             FARE,SYD,MIL,EH,Q2,Y,HR,A,07-24,02-01,50.00\nFARE,MIL,SYD,EH,Q2,Y,HR,A,12-20,12-04,95.74\n\
             FARE,SYD,MIL,EH,Q2,Y,OW,,02-02,12-06,150.00\nFARE,SYD,MIL,EH,Q2,Y,OW,,12-07,02-01,150.00\n\
             FARE,SYD,MIL,EH,Q2,Y,HR,,10-14,11-18,103.69\nFARE,MIL,SYD,EH,Q2,Y,HR,,01-01,12-31,50.00\n\
             FARE,FRA,MIL,AT,Q2,Y,OW,,01-01,12-31,400.00\nFARE,FRA,NYC,AT,Q2,Y,OW,A,05-21,07-08,255.65\n\
             FARE,FRA,NYC,AT,Q2,Y,OW,A,07-09,05-20,150.00\nMPM,MIL,ROM,EH,2879\nTPM,ROM,MIL,2245\nTPM,ROM,SYD,2588\n\
             TPM,ROM,FRA,1357\nTPM,MIL,SYD,385\nTPM,MIL,NYC,882\nTPM,MIL,YYZ,2085\nTPM,SYD,YYZ,2471\nTPM,NYC,FRA,1528\n\
             END\n",
        ],
    },
    Served {
        words: &["serve", "--store=s", "--port=80", "--count=9"],
        bodies: &[],
        store: &[(9, false)],
        door: &[],
        connections: &[
            b"POST /editions HTTP/1.1\r\nContent-Length: 1278\r\n\r\nHEAD,2,1,2024-01-01\nMPM,LON,PAR,EH,1179\n\
              CITY,FRA,DE,2\nCITY,MAN,GB,2\nCITY,MIL,IT,2\nCUR,FR,EUR,0.750000,1,1,U\n\
              FARE,LON,MAN,EH,YY,Y,HR,,06-20,12-10,300.00\nCUR,DE,EUR,1.000000,0,10,N\n\
              FARE,MAN,FRA,WH,YY,Y,OW,SAVER21,01-01,12-31,183.90\nRULE,SAVER21,16,16,3,0,7,N,*,*\nTPM,MAN,LYS,1003\n\
              CITY,PAR,FR,3\nFARE,FRA,PAR,EH,YY,Y,HR,SAVER21,04-16,08-24,232.43\nCUR,IT,EUR,110.000000,2,1,N\n\
              CUR,GB,GBP,0.000001,1,10,N\nFARE,FRA,PAR,EH,YY,Y,OW,SAVER21,01-01,12-31,150.00\nTPM,PAR,MIL,1571\n\
              FARE,FRA,LON,EH,YY,Y,HR,,11-16,02-29,150.00\nFARE,LON,FRA,EH,YY,Y,OW,,02-21,01-17,150.00\n\
              FARE,LON,FRA,EH,YY,Y,HR,,10-26,05-17,150.00\nFARE,LON,FRA,EH,YY,Y,OW,SAVER21,01-01,12-31,198.30\n\
              FARE,PAR,LON,EH,YY,Y,HR,,01-01,12-31,250.00\nTPM,PAR,FRA,818\nTPM,MAN,PAR,162\n\
              FARE,LON,PAR,EH,YY,Y,HR,SAVER21,01-01,12-31,200.00\nFARE,FRA,PAR,EH,YY,Y,OW,,07-23,09-22,100.00\n\
              FARE,LON,MAN,EH,YY,Y,HR,,12-11,06-19,308.92\nTPM,LON,FRA,554\n\
              FARE,FRA,LON,EH,YY,Y,HR,SAVER21,01-01,12-31,100.00\nCITY,LON,GB,2\n\
              FARE,LON,FRA,EH,YY,Y,OW,,01-18,02-01,119.75\nFARE,FRA,PAR,EH,YY,Y,OW,,09-23,07-22,150.00\nCITY,LYS,FR,2\n\
              FARE,LON,PAR,EH,YY,Y,OW,,01-01,12-31,295.95\nFARE,LON,FRA,EH,YY,Y,HR,,05-18,10-25,101.38\n\
              FARE,FRA,LYS,EH,YY,Y,OW,,01-01,12-31,150.00\nFARE,FRA,PAR,EH,YY,Y,HR,SAVER21,08-25,04-15,250.00\n\
              FARE,LON,FRA,EH,YY,Y,OW,,02-02,02-20,171.62\nEND\n",
            b"POST /editions HTTP/1.1\r\nContent-Length: 1278\r\n\r\nHEAD,2,1,2025-01-01\nMPM,LON,PAR,EH,1179\n\
              CITY,FRA,DE,2\nCITY,MAN,GB,2\nCITY,MIL,IT,2\nCUR,FR,EUR,0.750000,1,1,U\n\
              FARE,LON,MAN,EH,YY,Y,HR,,06-20,12-10,300.00\nCUR,DE,EUR,1.000000,0,10,N\n\
              FARE,MAN,FRA,WH,YY,Y,OW,SAVER21,01-01,12-31,183.90\nRULE,SAVER21,16,16,3,0,7,N,*,*\nTPM,MAN,LYS,1003\n\
              CITY,PAR,FR,3\nFARE,FRA,PAR,EH,YY,Y,HR,SAVER21,04-16,08-24,232.43\nCUR,IT,EUR,110.000000,2,1,N\n\
              CUR,GB,GBP,0.000001,1,10,N\nFARE,FRA,PAR,EH,YY,Y,OW,SAVER21,01-01,12-31,150.00\nTPM,PAR,MIL,1571\n\
              FARE,FRA,LON,EH,YY,Y,HR,,11-16,02-29,150.00\nFARE,LON,FRA,EH,YY,Y,OW,,02-21,01-17,150.00\n\
              FARE,LON,FRA,EH,YY,Y,HR,,10-26,05-17,150.00\nFARE,LON,FRA,EH,YY,Y,OW,SAVER21,01-01,12-31,198.30\n\
              FARE,PAR,LON,EH,YY,Y,HR,,01-01,12-31,250.00\nTPM,PAR,FRA,818\nTPM,MAN,PAR,162\n\
              FARE,LON,PAR,EH,YY,Y,HR,SAVER21,01-01,12-31,200.00\nFARE,FRA,PAR,EH,YY,Y,OW,,07-23,09-22,100.00\n\
              FARE,LON,MAN,EH,YY,Y,HR,,12-11,06-19,308.92\nTPM,LON,FRA,554\n\
              FARE,FRA,LON,EH,YY,Y,HR,SAVER21,01-01,12-31,100.00\nCITY,LON,GB,2\n\
              FARE,LON,FRA,EH,YY,Y,OW,,01-18,02-01,119.75\nFARE,FRA,PAR,EH,YY,Y,OW,,09-23,07-22,150.00\nCITY,LYS,FR,2\n\
              FARE,LON,PAR,EH,YY,Y,OW,,01-01,12-31,295.95\nFARE,LON,FRA,EH,YY,Y,HR,,05-18,10-25,101.38\n\
              FARE,FRA,LYS,EH,YY,Y,OW,,01-01,12-31,150.00\nFARE,FRA,PAR,EH,YY,Y,HR,SAVER21,08-25,04-15,250.00\n\
              FARE,LON,FRA,EH,YY,Y,OW,,02-02,02-20,171.62\nEND\n",
        ],
        status: 0,
        text: "SERVED 2 CUT 0\n",
        sent: &[
            b"HTTP/1.1 201 Created\r\nContent-Type: text/plain\r\nContent-Length: 12\r\nConnection: close\r\n\r\n\
              PUBLISHED 1\n",
            b"HTTP/1.1 409 Conflict\r\nContent-Type: text/plain\r\nContent-Length: 10\r\nConnection: close\r\n\r\n\
              DIFFERS 1\n",
        ],
        left: &[
            "HEAD,2,1,2024-01-01\nMPM,LON,PAR,EH,1179\nCITY,FRA,DE,2\nCITY,MAN,GB,2\nCITY,MIL,IT,2\n\
             CUR,FR,EUR,0.750000,1,1,U\nFARE,LON,MAN,EH,YY,Y,HR,,06-20,12-10,300.00\nCUR,DE,EUR,1.000000,0,10,N\n\
             FARE,MAN,FRA,WH,YY,Y,OW,SAVER21,01-01,12-31,183.90\nRULE,SAVER21,16,16,3,0,7,N,*,*\nTPM,MAN,LYS,1003\n\
             CITY,PAR,FR,3\nFARE,FRA,PAR,EH,YY,Y,HR,SAVER21,04-16,08-24,232.43\nCUR,IT,EUR,110.000000,2,1,N\n\
             CUR,GB,GBP,0.000001,1,10,N\nFARE,FRA,PAR,EH,YY,Y,OW,SAVER21,01-01,12-31,150.00\nTPM,PAR,MIL,1571\n\
             FARE,FRA,LON,EH,YY,Y,HR,,11-16,02-29,150.00\nFARE,LON,FRA,EH,YY,Y,OW,,02-21,01-17,150.00\n\
             FARE,LON,FRA,EH,YY,Y,HR,,10-26,05-17,150.00\nFARE,LON,FRA,EH,YY,Y,OW,SAVER21,01-01,12-31,198.30\n\
             FARE,PAR,LON,EH,YY,Y,HR,,01-01,12-31,250.00\nTPM,PAR,FRA,818\nTPM,MAN,PAR,162\n\
             FARE,LON,PAR,EH,YY,Y,HR,SAVER21,01-01,12-31,200.00\nFARE,FRA,PAR,EH,YY,Y,OW,,07-23,09-22,100.00\n\
             FARE,LON,MAN,EH,YY,Y,HR,,12-11,06-19,308.92\nTPM,LON,FRA,554\n\
             FARE,FRA,LON,EH,YY,Y,HR,SAVER21,01-01,12-31,100.00\nCITY,LON,GB,2\n\
             FARE,LON,FRA,EH,YY,Y,OW,,01-18,02-01,119.75\nFARE,FRA,PAR,EH,YY,Y,OW,,09-23,07-22,150.00\nCITY,LYS,FR,2\n\
             FARE,LON,PAR,EH,YY,Y,OW,,01-01,12-31,295.95\nFARE,LON,FRA,EH,YY,Y,HR,,05-18,10-25,101.38\n\
             FARE,FRA,LYS,EH,YY,Y,OW,,01-01,12-31,150.00\nFARE,FRA,PAR,EH,YY,Y,HR,SAVER21,08-25,04-15,250.00\n\
             FARE,LON,FRA,EH,YY,Y,OW,,02-02,02-20,171.62\nEND\n",
        ],
    },
    Served {
        words: &["serve", "--store=s", "--port=80", "--count=9"],
        bodies: &[EDITION_1],
        store: &[(1, true)],
        door: &[],
        connections: &[
            b"POST /editions HTTP/1.1\r\nContent-Length: 1447\r\n\r\nHEAD,2,2,2025-01-01\n\
              FARE,FRA,ROM,EH,YY,Y,HR,FLEX,01-01,12-31,200.00\nCUR,DE,EUR,0.912345,1,5,U\n\
              CUR,IT,EUR,1234567.654321,0,10000,N\nRULE,SAVER21,5,0,21,6,7,Y,*,*\nTPM,ROM,MIL,986\n\
              RULE,B2,2,5,3,1,999,Y,FLEX SAVER21,B2 - FLEX GHOST\nFARE,FRA,LAX,EH,YY,Y,OW,FLEX,10-15,03-24,250.00\n\
              FARE,LAX,ROM,EH,YY,Y,HR,,03-06,06-01,119.81\nFARE,LAX,ROM,EH,YY,Y,OW,,03-06,03-02,50.00\n\
              MPM,ROM,FRA,EH,3127\nFARE,TYO,ROM,AP,YY,Y,OW,,07-18,10-19,300.00\nTPM,TYO,MIL,2071\n\
              FARE,FRA,LAX,EH,YY,Y,HR,FLEX,11-29,04-24,200.00\nTPM,LAX,MIL,1160\n\
              FARE,LAX,FRA,EH,YY,Y,HR,FLEX,06-27,07-09,236.32\nFARE,TYO,ROM,AP,YY,Y,OW,,10-20,07-17,313.74\n\
              FARE,FRA,LAX,EH,YY,Y,OW,,02-20,09-30,350.00\nFARE,LAX,FRA,EH,YY,Y,HR,FLEX,07-10,12-03,200.00\n\
              FARE,LAX,ROM,EH,YY,Y,HR,,06-02,03-05,100.00\nFARE,LAX,ROM,EH,YY,Y,HR,FLEX,01-01,12-31,100.00\n\
              FARE,FRA,ROM,EH,YY,Y,HR,,11-03,05-29,386.06\nFARE,FRA,ROM,EH,YY,Y,OW,,01-01,12-31,316.08\n\
              FARE,FRA,LAX,EH,YY,Y,HR,FLEX,04-25,11-28,200.00\nFARE,LAX,FRA,EH,YY,Y,HR,FLEX,12-04,06-26,150.00\n\
              FARE,FRA,LAX,EH,YY,Y,OW,,10-01,02-19,200.00\nTPM,LAX,ROM,460\nCUR,US,USD,0.750000,0,100,N\n\
              CITY,MIL,IT,2\nCITY,FRA,DE,2\nCITY,ROM,IT,2\nTPM,TYO,ROM,2084\nCITY,TYO,JP,3\n\
              CUR,JP,JPY,0.912345,2,100,U\nCITY,LAX,US,2\nFARE,LAX,ROM,EH,YY,Y,OW,,03-03,03-05,84.48\n\
              TPM,FRA,LAX,2049\nFARE,ROM,FRA,EH,YY,Y,HR,,01-01,12-31,324.01\n\
              FARE,LAX,ROM,EH,YY,Y,OW,FLEX,01-01,12-31,101.90\nRULE,FLEX,2,5,0,6,999,Y,*,*\n\
              FARE,FRA,ROM,EH,YY,Y,HR,,05-30,11-02,225.23\nFARE,FRA,LAX,EH,YY,Y,OW,FLEX,03-25,10-14,200.00\nEND\n",
            b"POST /editions HTTP/1.1\r\nContent-Length: 733\r\n\r\nHEAD,2,1,2024-01-01\n\
              CUR,FR,EUR,110.000000,2,100,U\nCUR,GB,GBP,1.000000,0,1,U\nCUR,IT,EUR,110.000000,0,1,U\nCITY,LON,GB,2\n\
              CITY,MIL,IT,2\nCITY,LYS,FR,2\nCITY,MAN,GB,2\nFARE,LON,MAN,EH,YY,Y,OW,,01-01,12-31,200.00\n\
              FARE,LON,MAN,EH,YY,Y,HR,,01-01,12-31,138.48\nFARE,MAN,LON,EH,YY,Y,HR,,01-01,12-31,170.93\n\
              FARE,LON,LYS,EH,Q1,Y,HR,,06-27,09-05,248.56\nFARE,MAN,LYS,EH,YY,Y,OW,,01-01,12-31,80.66\n\
              FARE,LYS,MAN,EH,Q1,Y,HR,,06-20,08-19,50.00\nFARE,LYS,MAN,EH,Q1,Y,HR,,08-20,06-19,100.00\n\
              FARE,LON,MAN,EH,Q1,Y,HR,,01-01,12-31,150.00\nFARE,LON,LYS,EH,YY,Y,OW,,01-01,12-31,217.76\n\
              FARE,MIL,LON,AP,YY,Y,HR,,03-11,04-29,286.46\nFARE,MIL,LON,AP,YY,Y,HR,,04-30,03-10,200.00\n\
              MPM,LON,LYS,EH,1539\nTPM,LON,LYS,1276\nTPM,LON,MAN,1142\nTPM,MIL,LYS,3185\nTPM,LYS,MAN,262\nEND\n",
        ],
        status: 10,
        text: "",
        sent: &[],
        left: &[EDITION_1],
    },
];
