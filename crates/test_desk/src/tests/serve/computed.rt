//! Requests whose answers come from a separate plain program.

use super::Served;

/// Requests to the counter, some beside those to its desk.
pub static COMPUTED: [Served; 5] = [
    // No fare, behind a question mark, and a list of the desk's own.
    Served {
        bodies: &[
            "HEAD,2,35,2025-01-01\n\
                 FARE,OSA,TYO,EH,YY,Y,HR,,01-01,12-31,116.50\n\
                 RULE,A,0,1,0,0,365,N,-,GHOST\n\
                 CUR,AU,AUD,0.912345,2,10,U\n\
                 CITY,SYD,AU,3\n\
                 CITY,TYO,JP,3\n\
                 FARE,TYO,SYD,WH,YY,Y,HR,,01-01,12-31,282.72\n\
                 TPM,TYO,OSA,759\n\
                 TPM,TYO,SYD,2089\n\
                 CITY,OSA,JP,3\n\
                 FARE,OSA,TYO,EH,YY,Y,OW,,01-01,12-31,100.00\n\
                 FARE,TYO,OSA,EH,YY,Y,HR,,01-01,12-31,100.00\n\
                 CUR,JP,JPY,0.000001,2,1,U\n\
                 END\n",
        ],
        round: 2,
        connections: &[
            b"POST /best/3? HTTP/1.1\nX:\ta b\t\nContent-Length:342 \n\n{\"from\":\"TYO\",\"sale\":\"2025-01-06\",\"sectors\":[{\"cabin\":\"Y\",\"carrier\":\"Q2\",\"day\":\"2025-02-05\",\"over\":\"\",\"stop\":true,\"surface\":false,\"to\":\"SYD\"},{\"cabin\":\"Y\",\"carrier\":\"Q1\",\"day\":\"2025-02-05\",\"over\":\"PA\",\"stop\":false,\"surface\":false,\"to\":\"OSA\"},{\"cabin\":\"Y\",\"carrier\":\"Q1\",\"day\":\"2025-02-06\",\"over\":\"AT\",\"stop\":true,\"surface\":false,\"to\":\"TYO\"}]}",
            b"GET /editions?/quote HTTP/1.1\r\nAccept: */*\r\n\r\n",
            b"POST /best/3? HTTP/1.1\nX:\ta b\t\nContent-Length:342 \n\n{\"from\":\"TYO\",\"sale\":\"2025-01-06\",\"sectors\":[{\"cabin\":\"Y\",\"carrier\":\"Q2\",\"day\":\"2025-02-05\",\"over\":\"\",\"stop\":true,\"surface\":false,\"to\":\"SYD\"},{\"cabin\":\"Y\",\"carrier\":\"Q1\",\"day\":\"2025-02-05\",\"over\":\"PA\",\"stop\":false,\"surface\":false,\"to\":\"OSA\"},{\"cabin\":\"Y\",\"carrier\":\"Q1\",\"day\":\"2025-02-06\",\"over\":\"AT\",\"stop\":true,\"surface\":false,\"to\":\"TYO\"}]}",
            b"POST /best/3? HTTP/1.1\nX:\ta b\t\nContent-Length:342 \n\n{\"from\":\"TYO\",\"sale\":\"2025-01-06\",\"sectors\":[{\"cabin\":\"Y\",\"carrier\":\"Q2\",\"day\":\"2025-02-05\",\"over\":\"\",\"stop\":true,\"surface\":false,\"to\":\"SYD\"},{\"cabin\":\"Y\",\"carrier\":\"Q1\",\"day\":\"2025-02-05\",\"over\":\"PA\",\"stop\":false,\"surface\":false,\"to\":\"OSA\"},{\"cabin\":\"Y\",\"carrier\":\"Q1\",\"day\":\"2025-02-06\",\"over\":\"AT\",\"stop\":true,\"surface\":false,\"to\":\"TYO\"}]}",
        ],
        sent: &[
            b"HTTP/1.1 200 OK\r\nContent-Type: text/plain\r\nContent-Length: 30\r\nConnection: close\r\n\r\nEDITION 35 2025-01-01\nNO FARE\n",
            b"HTTP/1.1 200 OK\r\nContent-Type: text/plain\r\nContent-Length: 25\r\nConnection: close\r\n\r\nEDITION 35 2025-01-01 12\n",
            b"HTTP/1.1 200 OK\r\nContent-Type: text/plain\r\nContent-Length: 30\r\nConnection: close\r\n\r\nEDITION 35 2025-01-01\nNO FARE\n",
            b"HTTP/1.1 200 OK\r\nContent-Type: text/plain\r\nContent-Length: 30\r\nConnection: close\r\n\r\nEDITION 35 2025-01-01\nNO FARE\n",
        ],
    },
    // An audit without a line, beside a quotation.
    Served {
        bodies: &[
            "HEAD,2,68,2025-01-01\n\
                 FARE,FRA,ROM,EH,YY,F,HR,B2,12-11,07-13,664.07\n\
                 FARE,MIL,ROM,WH,YY,Y,OW,,01-01,12-31,250.00\n\
                 CUR,IT,EUR,0.912345,0,10,N\n\
                 RULE,B2,1,16,0,0,999,Y,*,*\n\
                 FARE,ROM,FRA,EH,YY,Y,OW,B2,10-30,03-20,250.00\n\
                 FARE,FRA,ROM,EH,YY,Y,HR,,01-01,12-31,211.65\n\
                 CITY,ROM,IT,2\n\
                 CITY,MIL,IT,2\n\
                 FARE,FRA,ROM,EH,YY,Y,HR,B2,01-03,07-24,250.00\n\
                 TPM,ROM,FRA,1459\n\
                 FARE,FRA,ROM,WH,YY,Y,OW,B2,01-01,12-31,200.00\n\
                 FARE,ROM,FRA,EH,YY,Y,HR,B2,11-06,05-06,250.00\n\
                 FARE,ROM,FRA,EH,YY,Y,HR,,08-08,12-20,200.00\n\
                 FARE,ROM,FRA,EH,YY,Y,HR,B2,05-07,11-05,250.00\n\
                 FARE,MIL,ROM,AT,YY,Y,HR,,01-01,12-31,200.00\n\
                 FARE,ROM,FRA,EH,YY,Y,HR,,12-21,08-07,262.96\n\
                 FARE,ROM,FRA,EH,YY,Y,OW,,01-01,12-31,272.90\n\
                 FARE,ROM,FRA,EH,YY,Y,OW,B2,03-21,10-29,300.00\n\
                 FARE,FRA,ROM,EH,YY,F,HR,B2,08-08,12-10,740.33\n\
                 CUR,DE,EUR,0.750000,1,1,U\n\
                 FARE,FRA,ROM,EH,YY,Y,HR,B2,07-25,01-02,300.00\n\
                 FARE,ROM,FRA,EH,YY,F,HR,B2,01-01,12-31,624.72\n\
                 FARE,ROM,FRA,EH,YY,F,OW,B2,01-01,12-31,677.69\n\
                 FARE,FRA,ROM,AT,YY,Y,OW,,01-01,12-31,276.54\n\
                 CITY,FRA,DE,2\n\
                 FARE,FRA,ROM,EH,YY,F,HR,B2,07-14,08-07,617.47\n\
                 END\n",
        ],
        round: 5,
        connections: &[
            b"POST /audit HTTP/1.1\r\nContent-Length:397 \r\n\r\n{\"trip\": {\"from\": \"LYS\", \"sale\": \"2025-10-12\", \"sectors\": [{\"cabin\": \"Y\", \"carrier\": \"7Z\", \"day\": \"2025-11-11\", \"over\": \"PA\", \"stop\": true, \"surface\": false, \"to\": \"ROM\"}, {\"cabin\": \"Y\", \"carrier\": \"Q1\", \"day\": \"2025-11-18\", \"over\": \"AT\", \"stop\": true, \"surface\": false, \"to\": \"LAX\"}, {\"cabin\": \"Y\", \"carrier\": \"7Z\", \"day\": \"2025-11-18\", \"over\": \"\", \"stop\": true, \"surface\": false, \"to\": \"MAN\"}]}}",
            b"POST /quote HTTP/1.1\r\nCONTENT-LENGTH:00341 \r\nX:\ta b\t\r\n\r\n{\"from\":\"MIL\",\"sale\":\"2025-08-25\",\"sectors\":[{\"cabin\":\"Y\",\"carrier\":\"Q1\",\"day\":\"2025-09-14\",\"over\":\"AT\",\"stop\":true,\"surface\":false,\"to\":\"ROM\"},{\"cabin\":\"Y\",\"carrier\":\"7Z\",\"day\":\"2025-09-16\",\"over\":\"PA\",\"stop\":true,\"surface\":true,\"to\":\"PAR\"},{\"cabin\":\"Y\",\"carrier\":\"Q2\",\"day\":\"2025-09-30\",\"over\":\"\",\"stop\":false,\"surface\":false,\"to\":\"MIL\"}]}",
            b"POST /audit HTTP/1.1\r\nContent-Length:397 \r\n\r\n{\"trip\": {\"from\": \"LYS\", \"sale\": \"2025-10-12\", \"sectors\": [{\"cabin\": \"Y\", \"carrier\": \"7Z\", \"day\": \"2025-11-11\", \"over\": \"PA\", \"stop\": true, \"surface\": false, \"to\": \"ROM\"}, {\"cabin\": \"Y\", \"carrier\": \"Q1\", \"day\": \"2025-11-18\", \"over\": \"AT\", \"stop\": true, \"surface\": false, \"to\": \"LAX\"}, {\"cabin\": \"Y\", \"carrier\": \"7Z\", \"day\": \"2025-11-18\", \"over\": \"\", \"stop\": true, \"surface\": false, \"to\": \"MAN\"}]}}",
        ],
        sent: &[
            b"HTTP/1.1 400 Bad Request\r\nContent-Type: text/plain\r\nContent-Length: 13\r\nConnection: close\r\n\r\nLINE MISSING\n",
            b"HTTP/1.1 422 Unprocessable Content\r\nContent-Type: text/plain\r\nContent-Length: 18\r\nConnection: close\r\n\r\nUNKNOWN PLACE PAR\n",
            b"HTTP/1.1 400 Bad Request\r\nContent-Type: text/plain\r\nContent-Length: 13\r\nConnection: close\r\n\r\nLINE MISSING\n",
        ],
    },
    // A lawful line that is dearer than the least.
    Served {
        bodies: &[
            "HEAD,2,40,2025-01-01\n\
                 CUR,CA,CAD,0.000001,1,1,N\n\
                 CUR,US,USD,0.000001,2,1,U\n\
                 CITY,LAX,US,1\n\
                 CITY,NYC,US,1\n\
                 CITY,YYZ,CA,2\n\
                 RULE,FLEX,16,2,0,0,999,Y,GHOST -,*\n\
                 FARE,LAX,NYC,WH,YY,Y,OW,,01-01,12-31,100.00\n\
                 FARE,LAX,NYC,WH,YY,Y,HR,,01-01,12-31,50.00\n\
                 FARE,NYC,LAX,WH,YY,Y,HR,,04-21,12-04,50.00\n\
                 FARE,NYC,LAX,WH,YY,Y,HR,,12-05,04-20,91.07\n\
                 FARE,LAX,NYC,WH,Q2,C,OW,FLEX,01-01,12-31,172.03\n\
                 FARE,LAX,NYC,WH,Q2,C,HR,FLEX,01-01,12-31,150.00\n\
                 FARE,NYC,LAX,WH,Q2,C,HR,FLEX,03-07,11-29,150.00\n\
                 FARE,NYC,LAX,WH,Q2,C,HR,FLEX,11-30,03-06,100.00\n\
                 FARE,LAX,NYC,WH,YY,F,OW,FLEX,01-03,05-14,224.65\n\
                 FARE,LAX,NYC,WH,YY,F,OW,FLEX,05-15,01-02,200.00\n\
                 FARE,LAX,NYC,WH,YY,F,HR,FLEX,07-07,11-07,150.00\n\
                 FARE,LAX,NYC,WH,YY,F,HR,FLEX,11-08,07-06,100.00\n\
                 FARE,LAX,YYZ,AT,YY,Y,OW,,04-19,09-05,100.00\n\
                 FARE,LAX,YYZ,AT,YY,Y,OW,,09-06,10-08,100.00\n\
                 FARE,LAX,YYZ,AT,YY,Y,OW,,10-09,04-18,157.05\n\
                 FARE,LAX,YYZ,AT,Q2,C,OW,FLEX,07-28,12-23,400.00\n\
                 FARE,LAX,YYZ,AT,Q2,C,OW,FLEX,12-24,07-27,350.00\n\
                 FARE,LAX,YYZ,AT,Q2,C,HR,FLEX,01-01,12-31,223.91\n\
                 FARE,YYZ,LAX,AT,Q2,C,HR,FLEX,02-05,03-16,275.89\n\
                 FARE,YYZ,LAX,AT,Q2,C,HR,FLEX,03-17,07-19,200.00\n\
                 FARE,YYZ,LAX,AT,Q2,C,HR,FLEX,07-20,02-04,299.64\n\
                 FARE,YYZ,LAX,AT,YY,F,HR,FLEX,02-17,09-10,250.00\n\
                 FARE,NYC,YYZ,AT,YY,Y,OW,,05-20,03-28,150.00\n\
                 FARE,NYC,YYZ,AT,YY,Y,HR,,07-14,08-01,100.00\n\
                 FARE,NYC,YYZ,AT,YY,Y,HR,,08-02,07-13,50.00\n\
                 FARE,YYZ,NYC,AT,Q2,C,HR,FLEX,07-29,05-01,200.00\n\
                 FARE,NYC,YYZ,AT,YY,F,OW,FLEX,01-01,12-31,302.09\n\
                 FARE,YYZ,NYC,AT,YY,Y,OW,,01-27,02-13,106.30\n\
                 FARE,YYZ,NYC,AT,YY,Y,OW,,02-14,06-29,143.41\n\
                 FARE,YYZ,NYC,AT,YY,Y,OW,,06-30,01-26,158.66\n\
                 FARE,NYC,YYZ,AT,Q2,C,HR,FLEX,02-16,11-03,250.00\n\
                 FARE,NYC,YYZ,AT,Q2,C,HR,FLEX,11-04,02-15,180.58\n\
                 FARE,YYZ,NYC,AT,YY,F,OW,FLEX,01-15,03-05,250.00\n\
                 FARE,YYZ,NYC,AT,YY,F,OW,FLEX,03-06,01-14,300.00\n\
                 FARE,NYC,YYZ,AT,YY,F,HR,FLEX,01-01,09-12,450.00\n\
                 FARE,NYC,YYZ,AT,YY,F,HR,FLEX,09-13,12-31,400.00\n\
                 FARE,LAX,NYC,AT,YY,Y,OW,,01-01,12-31,105.26\n\
                 FARE,YYZ,NYC,EH,YY,F,OW,FLEX,01-01,12-31,296.43\n\
                 FARE,NYC,YYZ,PA,YY,F,OW,FLEX,01-01,12-31,423.52\n\
                 FARE,NYC,LAX,WH,YY,F,OW,FLEX,05-12,08-09,279.45\n\
                 FARE,NYC,LAX,WH,YY,F,OW,FLEX,08-10,05-11,250.00\n\
                 FARE,NYC,YYZ,PA,Q2,C,OW,FLEX,04-21,05-17,324.66\n\
                 FARE,NYC,YYZ,PA,Q2,C,OW,FLEX,05-18,05-27,250.00\n\
                 FARE,NYC,YYZ,PA,Q2,C,OW,FLEX,05-28,04-20,320.20\n\
                 MPM,LAX,YYZ,AT,878\n\
                 TPM,LAX,NYC,209\n\
                 TPM,NYC,YYZ,653\n\
                 END\n",
        ],
        round: 1,
        connections: &[
            b"POST /audit HTTP/1.1\r\nX: \r\nContent-Length: 505\r\nX:\ta b\t\r\n\r\n{\"line\": \"LAX Q1 NYC 100.00 YYYOW/1 Q1 YYZ 50.00 YYYHR/2 Q1 NYC 450.00 YYFHRFLEX/2 NUC600.00END ROE0.000001\", \"trip\": {\"from\": \"LAX\", \"sale\": \"2025-05-05\", \"sectors\": [{\"cabin\": \"Y\", \"carrier\": \"Q1\", \"day\": \"2025-05-05\", \"over\": \"\", \"stop\": true, \"surface\": false, \"to\": \"NYC\"}, {\"cabin\": \"Y\", \"carrier\": \"Q1\", \"day\": \"2025-05-08\", \"over\": \"\", \"stop\": true, \"surface\": false, \"to\": \"YYZ\"}, {\"cabin\": \"Y\", \"carrier\": \"Q1\", \"day\": \"2025-05-15\", \"over\": \"AT\", \"stop\": false, \"surface\": false, \"to\": \"NYC\"}]}}",
        ],
        sent: &[
            b"HTTP/1.1 200 OK\r\nContent-Type: text/plain\r\nContent-Length: 26\r\nConnection: close\r\n\r\nLAWFUL 600.00 OVER 400.00\n",
        ],
    },
    // A method that no route takes.
    Served {
        bodies: &[
            "HEAD,2,68,2025-01-01\n\
                 CUR,AU,AUD,0.750000,2,10000,U\n\
                 CUR,CA,CAD,1234567.654321,1,1,N\n\
                 CUR,FR,EUR,1234567.654321,1,1,N\n\
                 CUR,GB,GBP,0.000001,2,10,N\n\
                 CUR,JP,JPY,1234567.654321,2,1,U\n\
                 CITY,YYZ,CA,1\n\
                 CITY,TYO,JP,1\n\
                 CITY,SYD,AU,3\n\
                 CITY,LYS,FR,2\n\
                 CITY,PAR,FR,2\n\
                 CITY,MAN,GB,2\n\
                 RULE,B2,1,0,0,0,7,Y,*,*\n\
                 RULE,FLEX,2,5,0,3,999,Y,*,*\n\
                 RULE,SAVER21,0,16,21,1,999,Y,SAVER21 B2,*\n\
                 FARE,YYZ,TYO,WH,YY,Y,OW,,01-01,12-31,179.82\n\
                 FARE,YYZ,TYO,WH,YY,Y,HR,,01-01,12-31,148.24\n\
                 FARE,TYO,YYZ,WH,YY,Y,HR,,01-01,12-31,173.60\n\
                 FARE,YYZ,TYO,WH,Q2,Y,OW,B2,01-01,12-31,150.00\n\
                 FARE,YYZ,TYO,WH,Q2,Y,HR,B2,04-29,05-16,100.00\n\
                 FARE,YYZ,TYO,WH,Q2,Y,HR,B2,05-17,04-28,150.00\n\
                 FARE,TYO,YYZ,WH,Q2,Y,HR,B2,01-01,12-31,120.26\n\
                 FARE,SYD,PAR,WH,YY,Y,OW,,01-01,12-31,250.00\n\
                 FARE,LYS,TYO,WH,Q2,Y,HR,B2,01-01,12-31,150.00\n\
                 TPM,YYZ,TYO,1153\n\
                 TPM,YYZ,SYD,884\n\
                 TPM,YYZ,LYS,2249\n\
                 TPM,YYZ,PAR,2391\n\
                 TPM,TYO,PAR,2259\n\
                 TPM,SYD,LYS,2098\n\
                 TPM,SYD,PAR,2444\n\
                 TPM,SYD,MAN,3123\n\
                 TPM,LYS,MAN,2352\n\
                 TPM,PAR,MAN,1875\n\
                 END\n",
        ],
        round: 1,
        connections: &[
            b"XXXXXXXXXXXXXXXXXXXXXXXXXXXXXXXXXXXXXXXX /best/2 HTTP/1.0\r\nX: \r\ncontent-length:\t143\r\n\r\n{\"from\":\"YYZ\",\"sale\":\"2025-08-15\",\"sectors\":[{\"cabin\":\"Y\",\"carrier\":\"Q1\",\"day\":\"2025-08-15\",\"over\":\"\",\"stop\":true,\"surface\":false,\"to\":\"TYO\"}]}",
        ],
        sent: &[
            b"HTTP/1.1 405 Method Not Allowed\r\nContent-Type: text/plain\r\nContent-Length: 7\r\nAllow: POST\r\nConnection: close\r\n\r\nMETHOD\n",
        ],
    },
    // No edition.
    Served {
        bodies: &[],
        round: 1,
        connections: &[
            b"POST /best/1 HTTP/1.0\r\nX:\ta b\t\r\nContent-Length:  339\r\n\r\n{\"from\":\"NYC\",\"sale\":\"2025-08-22\",\"sectors\":[{\"cabin\":\"Y\",\"carrier\":\"Q1\",\"day\":\"2025-09-11\",\"over\":\"\",\"stop\":false,\"surface\":false,\"to\":\"TYO\"},{\"cabin\":\"Y\",\"carrier\":\"Q1\",\"day\":\"2025-09-25\",\"over\":\"\",\"stop\":false,\"surface\":false,\"to\":\"SYD\"},{\"cabin\":\"Y\",\"carrier\":\"Q1\",\"day\":\"2025-10-09\",\"over\":\"\",\"stop\":true,\"surface\":false,\"to\":\"NYC\"}]}",
        ],
        sent: &[
            b"HTTP/1.1 422 Unprocessable Content\r\nContent-Type: text/plain\r\nContent-Length: 22\r\nConnection: close\r\n\r\nNO EDITION 2025-08-22\n",
        ],
    },
];
