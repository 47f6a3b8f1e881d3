//! Answers in JSON, and those of the routes for checks, differences and reasons.

use super::Served;

/// Answers in JSON: faults in one round, and then answers of a separate program.
pub static IN_JSON: [Served; 6] = [
    // Faults, of a trip, of a path and of a method.
    Served {
        bodies: &[
            "HEAD,1,1,2025-01-01\nCUR,GB,GBP,0.750000,0,1,U\nCUR,FR,EUR,0.900000,2,1,N\nCUR,IT,EUR,0.900000,2,1,N\nCITY,LON,GB,2\nCITY,PAR,FR,2\nCITY,ROM,IT,2\nFARE,LON,ROM,EH,YY,Y,OW,,400.00\nTPM,LON,PAR,300\nTPM,PAR,ROM,700\nMPM,LON,ROM,EH,1000\nEND\n",
        ],
        round: 3,
        connections: &[
            b"POST /json/quote HTTP/1.1\r\nContent-Length: 164\r\n\r\n{\"sale\":\"2025-03-01\",\"from\":\"LON\",\"sectors\":[{\"to\":\"PAR\",\"carrier\":\"Q1\",\"day\":\"2025-04-10\",\"cabin\":\"Y\"},{\"to\":\"MIL\",\"carrier\":\"Q1\",\"day\":\"2025-04-12\",\"cabin\":\"Y\"}]}",
            b"POST /json/fares HTTP/1.1\r\n\r\n",
            b"GET /json/quote HTTP/1.1\r\n\r\n",
        ],
        sent: &[
            b"HTTP/1.1 422 Unprocessable Content\r\nContent-Type: application/json\r\nContent-Length: 91\r\nConnection: close\r\n\r\n{\"fault\":{\"text\":\"UNKNOWN PLACE MIL\",\"words\":\"the edition has no record of the city MIL\"}}\n",
            b"HTTP/1.1 404 Not Found\r\nContent-Type: application/json\r\nContent-Length: 64\r\nConnection: close\r\n\r\n{\"fault\":{\"text\":\"NO ROUTE\",\"words\":\"nothing is at this path\"}}\n",
            b"HTTP/1.1 405 Method Not Allowed\r\nContent-Type: application/json\r\nContent-Length: 65\r\nAllow: POST\r\nConnection: close\r\n\r\n{\"fault\":{\"text\":\"METHOD\",\"words\":\"this path takes POST alone\"}}\n",
        ],
    },
    // A quotation.
    Served {
        bodies: &[
            "HEAD,2,85,2025-01-01\nCUR,AU,AUD,1234567.654321,1,10,U\nCUR,JP,JPY,0.750000,1,10,U\nCITY,OSA,JP,3\nCITY,SYD,AU,3\nCITY,TYO,JP,3\nFARE,OSA,TYO,EH,YY,Y,OW,,01-01,12-31,100.00\nFARE,OSA,TYO,EH,YY,Y,HR,,01-01,12-31,117.22\nFARE,TYO,OSA,EH,YY,Y,HR,,01-01,12-31,110.80\nFARE,SYD,TYO,EH,YY,Y,HR,,01-01,12-31,200.00\nFARE,OSA,SYD,AP,YY,Y,HR,,01-01,12-31,197.17\nFARE,SYD,TYO,PA,YY,Y,HR,,01-01,12-31,200.00\nFARE,OSA,SYD,WH,YY,Y,OW,,01-01,12-31,250.00\nTPM,OSA,TYO,372\nTPM,SYD,TYO,1110\nEND\n",
        ],
        round: 1,
        connections: &[
            b"POST /json/quote?x=1 HTTP/1.1\r\nHost: localhost\r\nContent-Length: 144\r\n\r\n{\"from\":\"OSA\",\"sale\":\"2025-09-16\",\"sectors\":[{\"cabin\":\"Y\",\"carrier\":\"Q1\",\"day\":\"2025-09-16\",\"over\":\"\",\"stop\":false,\"surface\":false,\"to\":\"TYO\"}]}",
        ],
        sent: &[
            b"HTTP/1.1 200 OK\r\nContent-Type: application/json\r\nContent-Length: 486\r\nConnection: close\r\n\r\n{\"edition\":{\"effective\":\"2025-01-01\",\"number\":85},\"quotation\":{\"line\":\"OSA Q1 TYO 100.00 YYYOW/1 NUC100.00END ROE0.750000\",\"local\":{\"amount\":\"75.0\",\"currency\":\"JPY\"},\"parts\":[{\"amount\":\"100.00\",\"back\":false,\"fare\":{\"carrier\":\"YY\",\"class\":\"Y\",\"kind\":\"OW\",\"record\":7,\"rule\":null},\"filed\":\"100.00\",\"from\":\"OSA\",\"hip\":null,\"miles\":null,\"sectors\":[1],\"to\":\"TYO\",\"unit\":1}],\"roe\":\"0.750000\",\"total\":\"100.00\",\"units\":[{\"kind\":\"OW\",\"minimum\":null,\"number\":1,\"price\":\"100.00\",\"sum\":\"100.00\"}]}}\n",
        ],
    },
    // A batch.
    Served {
        bodies: &[
            "HEAD,2,99,2025-06-01\nCUR,CA,CAD,0.000001,2,5,U\nCUR,DE,EUR,1.000000,0,1,N\nCUR,IT,EUR,110.000000,0,5,U\nCUR,US,USD,0.912345,1,10,U\nCITY,NYC,US,1\nCITY,FRA,DE,2\nCITY,ROM,IT,3\nCITY,YYZ,CA,1\nRULE,FLEX,16,16,0,0,30,Y,GHOST,- SAVER21 GHOST\nRULE,SAVER21,1,5,3,0,30,Y,*,GHOST\nFARE,NYC,YYZ,WH,YY,Y,OW,,01-01,12-31,357.32\nFARE,NYC,YYZ,WH,YY,Y,HR,,01-01,12-31,200.00\nFARE,YYZ,NYC,WH,YY,Y,HR,,01-01,12-31,300.00\nFARE,NYC,YYZ,WH,Q1,Y,OW,SAVER21,01-01,12-31,350.01\nFARE,NYC,YYZ,WH,Q1,Y,HR,SAVER21,01-01,12-31,300.00\nFARE,ROM,YYZ,WH,YY,Y,OW,,01-01,12-31,339.09\nFARE,FRA,NYC,WH,YY,Y,HR,,01-01,12-31,176.67\nFARE,ROM,YYZ,AT,YY,Y,HR,,01-01,12-31,500.00\nFARE,ROM,FRA,WH,YY,Y,HR,,01-01,12-31,300.00\nTPM,NYC,ROM,1673\nTPM,NYC,YYZ,2755\nTPM,FRA,ROM,2090\nTPM,FRA,YYZ,1940\nEND\n",
        ],
        round: 1,
        connections: &[
            b"POST /json/batch HTTP/1.1\r\nHost: localhost\r\nContent-Length: 295\r\n\r\n[{\"from\":\"NYC\",\"sale\":\"2025-05-22\",\"sectors\":[{\"cabin\":\"Y\",\"carrier\":\"Q2\",\"day\":\"2025-05-23\",\"over\":\"AT\",\"stop\":false,\"surface\":false,\"to\":\"YYZ\"}]},{\"from\":\"NYC\",\"sale\":\"2024-05-22\",\"sectors\":[{\"cabin\":\"Y\",\"carrier\":\"Q2\",\"day\":\"2025-05-23\",\"over\":\"AT\",\"stop\":false,\"surface\":false,\"to\":\"YYZ\"}]}]",
        ],
        sent: &[
            b"HTTP/1.1 200 OK\r\nContent-Type: application/json\r\nContent-Length: 242\r\nConnection: close\r\n\r\n{\"items\":[{\"answer\":{\"fault\":{\"text\":\"NO EDITION 2025-05-22\",\"words\":\"no edition is effective by 2025-05-22\"}},\"status\":422},{\"answer\":{\"fault\":{\"text\":\"NO EDITION 2024-05-22\",\"words\":\"no edition is effective by 2024-05-22\"}},\"status\":422}]}\n",
        ],
    },
    // The first ten.
    Served {
        bodies: &[
            "HEAD,2,81,2025-01-01\nCUR,AU,AUD,0.000001,1,1,N\nCUR,JP,JPY,0.750000,0,1,U\nCITY,SYD,AU,3\nCITY,TYO,JP,3\nCITY,OSA,JP,3\nRULE,FLEX,16,16,0,6,999,Y,*,\nFARE,SYD,OSA,EH,YY,Y,OW,,01-01,12-31,200.00\nFARE,SYD,OSA,EH,YY,Y,HR,,01-01,12-31,229.30\nFARE,OSA,SYD,EH,YY,Y,HR,,01-01,12-31,150.00\nFARE,SYD,OSA,EH,Q2,Y,OW,,01-01,12-31,150.00\nFARE,OSA,SYD,EH,Q2,Y,HR,,01-01,12-31,249.95\nFARE,SYD,OSA,EH,Q1,Y,OW,FLEX,01-01,12-31,208.54\nFARE,SYD,OSA,EH,Q1,Y,HR,FLEX,01-01,12-31,250.00\nFARE,OSA,SYD,EH,Q1,Y,HR,FLEX,01-01,12-31,250.00\nFARE,OSA,SYD,EH,YY,Y,OW,,01-01,12-31,231.46\nFARE,OSA,SYD,EH,Q2,Y,OW,,01-01,12-31,200.00\nFARE,SYD,OSA,EH,Q2,Y,HR,,01-01,12-31,100.00\nFARE,OSA,SYD,EH,Q1,Y,OW,FLEX,01-01,12-31,300.00\nTPM,SYD,TYO,403\nTPM,SYD,OSA,1482\nEND\n",
        ],
        round: 1,
        connections: &[
            b"POST /json/best/10 HTTP/1.1\r\nHost: localhost\r\nContent-Length: 243\r\n\r\n{\"from\":\"SYD\",\"sale\":\"2025-08-20\",\"sectors\":[{\"cabin\":\"Y\",\"carrier\":\"Q1\",\"day\":\"2025-10-19\",\"over\":\"\",\"stop\":true,\"surface\":false,\"to\":\"OSA\"},{\"cabin\":\"Y\",\"carrier\":\"Q1\",\"day\":\"2025-11-02\",\"over\":\"AT\",\"stop\":false,\"surface\":false,\"to\":\"SYD\"}]}",
        ],
        sent: &[
            b"HTTP/1.1 200 OK\r\nContent-Type: application/json\r\nContent-Length: 591\r\nConnection: close\r\n\r\n{\"best\":[{\"line\":\"SYD Q1 OSA 200.00 YYYOW/1 Q1 SYD 231.46 YYYOW/2 NUC431.46END ROE0.000001\",\"total\":\"431.46\"},{\"line\":\"SYD Q1 OSA 229.30 YYYHR/1 Q1 SYD 229.30 YYYHR/1 NUC458.60END ROE0.000001\",\"total\":\"458.60\"},{\"line\":\"SYD Q1 OSA 229.30 YYYHR/1 Q1 SYD 250.00 Q1YHRFLEX/1 NUC479.30END ROE0.000001\",\"total\":\"479.30\"},{\"line\":\"SYD Q1 OSA 250.00 Q1YHRFLEX/1 Q1 SYD 229.30 YYYHR/1 P/1 20.70 NUC500.00END ROE0.000001\",\"total\":\"500.00\"},{\"line\":\"SYD Q1 OSA 250.00 Q1YHRFLEX/1 Q1 SYD 250.00 Q1YHRFLEX/1 NUC500.00END ROE0.000001\",\"total\":\"500.00\"}],\"edition\":{\"effective\":\"2025-01-01\",\"number\":81}}\n",
        ],
    },
    // An audit.
    Served {
        bodies: &[
            "HEAD,2,64,2025-01-01\nCUR,FR,EUR,0.750000,0,10,U\nCUR,IT,EUR,0.912345,2,5,U\nCITY,MIL,IT,2\nCITY,ROM,IT,2\nCITY,PAR,FR,2\nRULE,A,16,16,0,0,999,Y,*,GHOST\nFARE,MIL,PAR,EH,YY,Y,OW,,01-01,12-31,200.00\nFARE,MIL,PAR,EH,YY,Y,HR,,01-01,12-31,150.00\nFARE,PAR,MIL,EH,YY,Y,HR,,01-01,12-31,200.00\nFARE,ROM,MIL,EH,YY,Y,OW,,01-01,12-31,250.00\nFARE,ROM,MIL,EH,YY,Y,HR,,01-01,12-31,200.00\nFARE,MIL,ROM,EH,YY,Y,HR,,01-01,12-31,300.00\nTPM,MIL,ROM,1585\nTPM,MIL,PAR,925\nTPM,ROM,PAR,864\nEND\n",
        ],
        round: 1,
        connections: &[
            b"POST /json/audit HTTP/1.1\r\nHost: localhost\r\nContent-Length: 494\r\n\r\n{\"line\": \"YAK YA NQS 10M999999999.65 KHFOW/10 CF QPC 999999999.89 TICHR/9 NUC400.44END ROE0.618101\", \"trip\": {\"from\": \"MIL\", \"sale\": \"2025-06-02\", \"sectors\": [{\"cabin\": \"Y\", \"carrier\": \"7Z\", \"day\": \"2025-06-22\", \"over\": \"\", \"stop\": true, \"surface\": false, \"to\": \"PAR\"}, {\"cabin\": \"F\", \"carrier\": \"7Z\", \"day\": \"2025-06-25\", \"over\": \"\", \"stop\": false, \"surface\": true, \"to\": \"ROM\"}, {\"cabin\": \"F\", \"carrier\": \"7Z\", \"day\": \"2025-06-26\", \"over\": \"\", \"stop\": false, \"surface\": false, \"to\": \"MIL\"}]}}",
        ],
        sent: &[
            b"HTTP/1.1 200 OK\r\nContent-Type: application/json\r\nContent-Length: 150\r\nConnection: close\r\n\r\n{\"edition\":{\"effective\":\"2025-01-01\",\"number\":64},\"verdict\":{\"name\":\"OTHER TRIP\",\"sector\":0,\"words\":\"the line begins in another city than the trip\"}}\n",
        ],
    },
    // The list.
    Served {
        bodies: &[
            "HEAD,2,65,2025-01-01\nCUR,AU,AUD,1.000000,1,1,N\nCUR,FR,EUR,1234567.654321,2,1,N\nCUR,GB,GBP,110.000000,1,1,U\nCUR,IT,EUR,0.912345,0,1,U\nCUR,JP,JPY,0.912345,2,5,U\nCUR,US,USD,1.000000,0,10000,N\nCITY,MAN,GB,2\nCITY,SYD,AU,3\nCITY,NYC,US,1\nCITY,MIL,IT,2\nCITY,PAR,FR,2\nCITY,TYO,JP,3\nCITY,LAX,US,1\nFARE,MAN,MIL,EH,YY,Y,OW,,01-01,12-31,156.39\nFARE,MAN,MIL,EH,YY,Y,HR,,01-01,12-31,100.00\nFARE,MIL,MAN,EH,YY,Y,HR,,01-01,12-31,100.00\nFARE,MAN,MIL,EH,YY,F,OW,,01-01,12-31,317.19\nFARE,MIL,MAN,EH,YY,F,HR,,01-01,12-31,400.00\nFARE,MAN,MIL,EH,Q1,F,OW,,01-01,12-31,350.00\nFARE,MAN,MIL,EH,Q1,F,HR,,01-01,12-31,450.00\nFARE,MIL,MAN,EH,Q1,F,HR,,01-01,12-31,400.00\nFARE,PAR,TYO,PA,YY,F,OW,,01-01,12-31,450.00\nFARE,MIL,SYD,AT,YY,F,HR,,01-01,12-31,850.00\nFARE,NYC,PAR,PA,YY,Y,OW,,01-01,12-31,200.00\nTPM,MAN,SYD,1734\nTPM,MAN,MIL,562\nTPM,SYD,MIL,1901\nTPM,SYD,PAR,1859\nTPM,NYC,MIL,617\nTPM,NYC,PAR,1564\nEND\n",
            "HEAD,2,2,2025-01-01\nCUR,AU,AUD,1.000000,1,1,N\nCUR,FR,EUR,1234567.654321,2,1,N\nCUR,GB,GBP,110.000000,1,1,U\nCUR,IT,EUR,0.912345,0,1,U\nCUR,JP,JPY,0.912345,2,5,U\nCUR,US,USD,1.000000,0,10000,N\nCITY,MAN,GB,2\nCITY,SYD,AU,3\nCITY,NYC,US,1\nCITY,MIL,IT,2\nCITY,PAR,FR,2\nCITY,TYO,JP,3\nCITY,LAX,US,1\nFARE,MAN,MIL,EH,YY,Y,OW,,01-01,12-31,140.75\nFARE,MAN,MIL,EH,YY,Y,HR,,01-01,12-31,90.00\nFARE,MIL,MAN,EH,YY,Y,HR,,01-01,12-31,100.00\nFARE,MAN,MIL,EH,YY,F,OW,,01-01,12-31,285.47\nFARE,MIL,MAN,EH,YY,F,HR,,01-01,12-31,360.00\nFARE,MAN,MIL,EH,Q1,F,OW,,01-01,12-31,350.00\nFARE,MAN,MIL,EH,Q1,F,HR,,01-01,12-31,450.00\nFARE,MIL,MAN,EH,Q1,F,HR,,01-01,12-31,400.00\nFARE,MIL,SYD,AT,YY,F,HR,,01-01,12-31,850.00\nFARE,NYC,PAR,PA,YY,Y,OW,,01-01,12-31,180.00\nTPM,MAN,SYD,1734\nTPM,MAN,MIL,562\nTPM,SYD,MIL,1901\nTPM,SYD,PAR,1859\nTPM,NYC,MIL,617\nTPM,NYC,PAR,1564\nEND\n",
        ],
        round: 1,
        connections: &[b"GET /json/editions HTTP/1.1\r\nHost: localhost\r\n\r\n"],
        sent: &[
            b"HTTP/1.1 200 OK\r\nContent-Type: application/json\r\nContent-Length: 118\r\nConnection: close\r\n\r\n{\"editions\":[{\"effective\":\"2025-01-01\",\"number\":65,\"records\":30},{\"effective\":\"2025-01-01\",\"number\":2,\"records\":29}]}\n",
        ],
    },
];

/// Plain answers of a separate program.
pub static FURTHER: [Served; 6] = [
    // Every fault of a text.
    Served {
        bodies: &[],
        round: 1,
        connections: &[
            b"POST /check HTTP/1.1\r\nHost: localhost\r\nContent-Length: 159\r\n\r\nHEAD,1,6,2025-01-01\r\nXYZ\r\nCUR,CA,CAD,1234567.654321,1,100,U\r\nCUR,FR,EUR,0.750000,1,5,U\r\nCUR,GB,GBP,1.000000,0,10,N\r\nCUR,IT,EUR,110.000000,2,5,U\r\nCUR,JP,JPY,0.0",
        ],
        sent: &[
            b"HTTP/1.1 400 Bad Request\r\nContent-Type: text/plain\r\nContent-Length: 221\r\nConnection: close\r\n\r\nTARIFF 2 UnknownRecord  XYZ  field 1 is none of CUR, CITY, RULE, FARE, MPM, TPM, EMA and END\nTARIFF 7 BadRecord 0  CUR,JP,JPY,0.0  the number of fields is 4, and for CUR it is 7\nTARIFF 8 NoEnd  the text has no END record\n",
        ],
    },
    // A text without a fault.
    Served {
        bodies: &[],
        round: 1,
        connections: &[
            b"POST /check HTTP/1.1\r\nHost: localhost\r\nContent-Length: 497\r\n\r\nHEAD,2,31,2025-01-01\nFARE,LAX,LYS,AT,YY,Y,HR,B2,11-23,08-08,253.73\nCUR,AU,AUD,0.912345,2,1,N\nTPM,OSA,SYD,2074\nTPM,LYS,LAX,1478\nTPM,MIL,LAX,1246\nCITY,LYS,FR,2\nTPM,LYS,MIL,2591\nTPM,OSA,MIL,490\nFARE,MIL,LAX,AP,YY,C,OW,B2,01-01,12-31,300.00\nRULE,B2,1,16,3,0,999,N,GHOST -,GHOST B2 -\nFARE,MIL,LYS,EH,YY,C,OW,B2,05-13,02-29,350.00\nCITY,MIL,IT,2\nCITY,SYD,AU,2\nCITY,LAX,US,1\nCUR,FR,EUR,0.750000,2,1,N\nCUR,JP,JPY,0.750000,0,5,N\nCUR,IT,EUR,110.000000,0,100,U\nCUR,US,USD,0.750000,1,10000,U\nCITY,OSA,JP,3\nEND\n",
        ],
        sent: &[
            b"HTTP/1.1 200 OK\r\nContent-Type: text/plain\r\nContent-Length: 25\r\nConnection: close\r\n\r\nCHECKED 31 2025-01-01 19\n",
        ],
    },
    // What changed.
    Served {
        bodies: &[
            "HEAD,2,73,2025-01-01\nCUR,FR,EUR,0.000001,1,5,N\nCUR,IT,EUR,110.000000,2,100,U\nCITY,ROM,IT,2\nCITY,PAR,FR,2\nFARE,ROM,PAR,EH,YY,Y,OW,,02-14,10-06,364.00\nFARE,ROM,PAR,EH,YY,Y,OW,,10-07,02-13,413.93\nFARE,ROM,PAR,AT,YY,Y,HR,,01-01,12-31,300.00\nTPM,ROM,PAR,1871\nEND\n",
            "HEAD,2,2,2025-02-01\nFARE,ROM,PAR,EH,7Z,Y,OW,,02-14,10-06,353.08\nCUR,FR,EUR,0.000001,1,5,N\nCUR,IT,EUR,110.000000,2,100,U\nCITY,ROM,IT,2\nCITY,PAR,FR,2\nFARE,ROM,PAR,EH,YY,Y,OW,,02-14,10-06,353.08\nFARE,ROM,PAR,EH,YY,Y,OW,,10-07,02-13,413.93\nTPM,ROM,PAR,1871\nEND\n",
        ],
        round: 1,
        connections: &[b"GET /editions/73/diff/2 HTTP/1.1\r\nHost: localhost\r\n\r\n"],
        sent: &[
            b"HTTP/1.1 200 OK\r\nContent-Type: text/plain\r\nContent-Length: 219\r\nConnection: close\r\n\r\nDIFF 73 2 removed 2 added 2 same 6\n- FARE,ROM,PAR,EH,YY,Y,OW,,02-14,10-06,364.00\n- FARE,ROM,PAR,AT,YY,Y,HR,,01-01,12-31,300.00\n+ FARE,ROM,PAR,EH,7Z,Y,OW,,02-14,10-06,353.08\n+ FARE,ROM,PAR,EH,YY,Y,OW,,02-14,10-06,353.08\n",
        ],
    },
    // A number that no edition has.
    Served {
        bodies: &[
            "HEAD,2,2,2025-01-01\nCUR,AU,AUD,1234567.654321,0,1,U\nCUR,JP,JPY,0.912345,2,5,N\nCITY,TYO,JP,3\nCITY,OSA,JP,3\nRULE,A,16,1,0,0,999,N,*,*\nFARE,TYO,OSA,AP,YY,Y,HR,A,01-01,12-31,350.00\nEND\n",
            "HEAD,2,23,2025-01-01\nCUR,AU,AUD,1234567.654321,0,1,U\nCUR,JP,JPY,0.912345,2,5,N\nCITY,TYO,JP,3\nCITY,SYD,AU,3\nCITY,OSA,JP,3\nRULE,A,16,1,0,0,999,N,*,*\nFARE,TYO,SYD,EH,YY,Y,OW,,02-07,09-14,154.89\nFARE,TYO,SYD,EH,YY,Y,OW,,09-15,02-06,150.00\nFARE,TYO,SYD,EH,YY,Y,HR,,01-01,12-31,200.00\nFARE,SYD,TYO,EH,YY,Y,HR,,01-01,12-31,100.00\nFARE,TYO,SYD,EH,Q2,Y,OW,A,01-01,12-31,212.37\nFARE,TYO,SYD,EH,Q2,Y,HR,A,05-13,10-03,140.94\nFARE,TYO,SYD,EH,Q2,Y,HR,A,10-04,05-12,141.09\nFARE,SYD,TYO,EH,Q2,Y,HR,A,04-06,10-24,171.29\nFARE,SYD,TYO,EH,Q2,Y,HR,A,10-25,04-05,150.80\nFARE,TYO,SYD,EH,YY,Y,HR,A,01-01,12-31,200.00\nFARE,SYD,TYO,EH,YY,Y,HR,A,01-01,12-31,205.69\nFARE,TYO,OSA,AP,YY,Y,HR,A,01-01,12-31,350.00\nFARE,SYD,TYO,AT,YY,Y,OW,A,05-21,07-07,250.00\nFARE,SYD,TYO,AT,YY,Y,OW,A,07-08,05-20,249.86\nTPM,TYO,SYD,985\nTPM,SYD,OSA,1527\nEND\n",
        ],
        round: 1,
        connections: &[b"GET /editions/0/diff/x HTTP/1.1\r\nHost: localhost\r\n\r\n"],
        sent: &[
            b"HTTP/1.1 404 Not Found\r\nContent-Type: text/plain\r\nContent-Length: 9\r\nConnection: close\r\n\r\nNO ROUTE\n",
        ],
    },
    // Reasons.
    Served {
        bodies: &[
            "HEAD,2,96,2025-01-01\nRULE,KEEN,16,0,0,0,999,Y,*,*\nCUR,AU,AUD,1.000000,2,100,U\nCUR,JP,JPY,0.912345,0,10,U\nCITY,SYD,AU,3\nCITY,TYO,JP,3\nCITY,OSA,JP,3\nRULE,SAVER21,16,5,0,0,15,Y,- B2 GHOST A,A SAVER21 GHOST\nRULE,A,0,16,0,0,999,Y,*,A SAVER21\nRULE,B2,5,5,21,1,999,Y,*,- A\nFARE,SYD,OSA,EH,YY,Y,OW,KEEN,01-01,12-31,237.50\nFARE,OSA,SYD,EH,YY,Y,HR,KEEN,01-01,12-31,113.84\nFARE,SYD,OSA,EH,YY,Y,HR,B2,01-01,12-31,150.00\nFARE,OSA,SYD,EH,YY,Y,HR,B2,01-01,12-31,150.00\nFARE,SYD,TYO,EH,YY,Y,HR,KEEN,01-01,12-31,315.00\nFARE,TYO,SYD,EH,YY,Y,HR,,01-01,12-31,300.00\nFARE,TYO,SYD,EH,YY,Y,HR,KEEN,01-01,12-31,270.00\nFARE,SYD,TYO,EH,YY,Y,HR,B2,01-01,12-31,318.40\nFARE,OSA,TYO,EH,YY,Y,OW,KEEN,01-01,12-31,271.62\nFARE,OSA,TYO,EH,YY,Y,HR,,01-01,12-31,287.61\nFARE,OSA,TYO,EH,YY,Y,HR,KEEN,01-01,12-31,201.32\nFARE,TYO,OSA,EH,YY,Y,HR,,01-01,12-31,232.91\nFARE,TYO,OSA,EH,YY,Y,HR,KEEN,01-01,12-31,163.03\nFARE,OSA,TYO,EH,YY,Y,OW,B2,01-01,12-31,200.00\nFARE,OSA,SYD,EH,YY,Y,OW,,01-01,12-31,250.00\nFARE,OSA,SYD,EH,YY,Y,OW,KEEN,01-01,12-31,200.00\nFARE,SYD,OSA,EH,YY,Y,HR,KEEN,01-01,12-31,162.61\nFARE,OSA,SYD,EH,YY,Y,OW,B2,01-01,12-31,150.00\nFARE,TYO,SYD,EH,YY,Y,OW,,01-01,12-31,350.00\nFARE,TYO,SYD,EH,YY,Y,OW,KEEN,01-01,12-31,210.00\nFARE,TYO,SYD,EH,YY,Y,OW,B2,01-01,12-31,432.62\nFARE,TYO,SYD,EH,YY,Y,HR,B2,01-01,12-31,350.00\nFARE,TYO,OSA,PA,YY,Y,OW,KEEN,01-01,12-31,201.62\nMPM,TYO,SYD,EH,1811\nMPM,SYD,OSA,EH,4004\nTPM,SYD,TYO,2247\nTPM,SYD,OSA,938\nTPM,TYO,OSA,1323\nEND\n",
        ],
        round: 1,
        connections: &[
            b"POST /why HTTP/1.1\r\nHost: localhost\r\nContent-Length: 344\r\n\r\n{\"from\":\"SYD\",\"sale\":\"2025-02-01\",\"sectors\":[{\"cabin\":\"Y\",\"carrier\":\"Q1\",\"day\":\"2025-02-02\",\"over\":\"AT\",\"stop\":true,\"surface\":false,\"to\":\"OSA\"},{\"cabin\":\"Y\",\"carrier\":\"Q1\",\"day\":\"2025-02-03\",\"over\":\"AT\",\"stop\":false,\"surface\":false,\"to\":\"TYO\"},{\"cabin\":\"Y\",\"carrier\":\"Q1\",\"day\":\"2025-02-03\",\"over\":\"AT\",\"stop\":true,\"surface\":false,\"to\":\"SYD\"}]}",
        ],
        sent: &[
            b"HTTP/1.1 200 OK\r\nContent-Type: text/plain\r\nContent-Length: 310\r\nConnection: close\r\n\r\nEDITION 96 2025-01-01\nBEST 487.50\nWITHOUT ADVANCE 300.00 SAVES 187.50\nSYD Q1 OSA 150.00 YYYHRB2/1 Q1 X/TYO Q1 SYD M150.00 YYYHRB2/1 NUC300.00END ROE1.000000\nBROKEN 15 1\nWITHOUT TRANSFERS 325.22 SAVES 162.28\nSYD Q1 OSA 162.61 YYYHRKEEN/1 Q1 X/TYO Q1 SYD M162.61 YYYHRKEEN/1 NUC325.22END ROE1.000000\nBROKEN 14 2\n",
        ],
    },
    // A trip that is not answered.
    Served {
        bodies: &[
            "HEAD,2,20,2025-01-01\nRULE,KEEN,16,16,0,0,4,Y,*,*\nCITY,FRA,DE,2\nFARE,FRA,PAR,PA,YY,Y,OW,KEEN,01-01,12-31,135.00\nTPM,PAR,FRA,1450\nCITY,ROM,IT,2\nCUR,IT,EUR,1.000000,2,1,U\nCITY,PAR,FR,2\nCITY,MAN,GB,2\nFARE,FRA,LON,EH,YY,Y,HR,KEEN,01-01,12-31,237.50\nCITY,LON,GB,2\nFARE,LON,MAN,EH,YY,Y,HR,KEEN,01-01,12-31,78.09\nTPM,FRA,LON,1379\nTPM,ROM,LON,3102\nCUR,DE,EUR,0.912345,1,1,N\nCUR,GB,GBP,110.000000,1,5,U\nFARE,FRA,PAR,WH,YY,Y,HR,KEEN,01-01,12-31,172.50\nCUR,FR,EUR,110.000000,0,10000,N\nFARE,LON,FRA,EH,YY,Y,HR,KEEN,01-01,12-31,190.00\nTPM,PAR,ROM,608\nTPM,PAR,MAN,1535\nEND\n",
        ],
        round: 1,
        connections: &[
            b"POST /why HTTP/1.1\r\nHost: localhost\r\nContent-Length: 380\r\n\r\n{\"sale\":\"2025-01-06\",\"from\":\"TYO\",\"sectors\":[{\"to\":\"NYC\",\"carrier\":\"Q2\",\"day\":\"2025-01-26\",\"cabin\":\"Y\",\"over\":\"PA\",\"stop\":false},{\"to\":\"LYS\",\"carrier\":\"Q2\",\"day\":\"2025-01-26\",\"cabin\":\"Y\",\"over\":\"AT\",\"stop\":true},{\"to\":\"NYC\",\"carrier\":\"7Z\",\"day\":\"2025-02-09\",\"cabin\":\"Y\",\"over\":\"PA\",\"surface\":true},{\"to\":\"TYO\",\"carrier\":\"7Z\",\"day\":\"2025-02-11\",\"cabin\":\"Y\",\"over\":\"PA\"}],\"extra\":1}",
        ],
        sent: &[
            b"HTTP/1.1 422 Unprocessable Content\r\nContent-Type: text/plain\r\nContent-Length: 18\r\nConnection: close\r\n\r\nUNKNOWN PLACE TYO\n",
        ],
    },
];
