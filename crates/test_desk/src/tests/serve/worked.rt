//! Worked trips and lines.

use super::Served;

/// Trips and lines from London by Paris to Rome, and from London to Rome.
pub static WORKED: [Served; 5] = [
    // The first ten, and what their route refuses.
    Served {
        bodies: &[
            "HEAD,1,1,2025-01-01\n\
                 CUR,GB,GBP,0.750000,0,1,U\n\
                 CUR,FR,EUR,0.900000,2,1,N\n\
                 CUR,IT,EUR,0.900000,2,1,N\n\
                 CITY,LON,GB,2\n\
                 CITY,PAR,FR,2\n\
                 CITY,ROM,IT,2\n\
                 FARE,LON,ROM,EH,YY,Y,OW,,400.00\n\
                 TPM,LON,PAR,300\n\
                 TPM,PAR,ROM,700\n\
                 MPM,LON,ROM,EH,1000\n\
                 FARE,LON,PAR,EH,YY,Y,OW,,150.00\n\
                 FARE,PAR,ROM,EH,YY,Y,OW,,250.00\n\
                 END\n",
        ],
        round: 2,
        connections: &[
            b"POST /best/3 HTTP/1.1\r\nContent-Length: 177\r\n\r\n{\"sale\":\"2025-03-01\",\"from\":\"LON\",\"sectors\":[{\"to\":\"PAR\",\"carrier\":\"Q1\",\"day\":\"2025-04-10\",\"cabin\":\"Y\",\"stop\":false},{\"to\":\"ROM\",\"carrier\":\"Q1\",\"day\":\"2025-04-12\",\"cabin\":\"Y\"}]}",
            b"POST /best/0 HTTP/1.1\r\nContent-Length: 177\r\n\r\n{\"sale\":\"2025-03-01\",\"from\":\"LON\",\"sectors\":[{\"to\":\"PAR\",\"carrier\":\"Q1\",\"day\":\"2025-04-10\",\"cabin\":\"Y\",\"stop\":false},{\"to\":\"ROM\",\"carrier\":\"Q1\",\"day\":\"2025-04-12\",\"cabin\":\"Y\"}]}",
            b"POST /best/11 HTTP/1.1\r\nContent-Length: 177\r\n\r\n{\"sale\":\"2025-03-01\",\"from\":\"LON\",\"sectors\":[{\"to\":\"PAR\",\"carrier\":\"Q1\",\"day\":\"2025-04-10\",\"cabin\":\"Y\",\"stop\":false},{\"to\":\"ROM\",\"carrier\":\"Q1\",\"day\":\"2025-04-12\",\"cabin\":\"Y\"}]}",
            b"POST /best/ HTTP/1.1\r\nContent-Length: 177\r\n\r\n{\"sale\":\"2025-03-01\",\"from\":\"LON\",\"sectors\":[{\"to\":\"PAR\",\"carrier\":\"Q1\",\"day\":\"2025-04-10\",\"cabin\":\"Y\",\"stop\":false},{\"to\":\"ROM\",\"carrier\":\"Q1\",\"day\":\"2025-04-12\",\"cabin\":\"Y\"}]}",
            b"GET /best/99 HTTP/1.1\r\n\r\n",
            b"PUT /best/3 HTTP/1.1\r\nContent-Length: 177\r\n\r\n{\"sale\":\"2025-03-01\",\"from\":\"LON\",\"sectors\":[{\"to\":\"PAR\",\"carrier\":\"Q1\",\"day\":\"2025-04-10\",\"cabin\":\"Y\",\"stop\":false},{\"to\":\"ROM\",\"carrier\":\"Q1\",\"day\":\"2025-04-12\",\"cabin\":\"Y\"}]}",
        ],
        sent: &[
            b"HTTP/1.1 200 OK\r\nContent-Type: text/plain\r\nContent-Length: 185\r\nConnection: close\r\n\r\nEDITION 1 2025-01-01\nBEST 1 400.00\nLON Q1 X/PAR Q1 ROM M400.00 YYYOW/1 NUC400.00END ROE0.750000\nBEST 2 400.00\nLON Q1 X/PAR 150.00 YYYOW/1 Q1 ROM 250.00 YYYOW/2 NUC400.00END ROE0.750000\n",
            b"HTTP/1.1 404 Not Found\r\nContent-Type: text/plain\r\nContent-Length: 9\r\nConnection: close\r\n\r\nNO ROUTE\n",
            b"HTTP/1.1 404 Not Found\r\nContent-Type: text/plain\r\nContent-Length: 9\r\nConnection: close\r\n\r\nNO ROUTE\n",
            b"HTTP/1.1 404 Not Found\r\nContent-Type: text/plain\r\nContent-Length: 9\r\nConnection: close\r\n\r\nNO ROUTE\n",
            b"HTTP/1.1 405 Method Not Allowed\r\nContent-Type: text/plain\r\nContent-Length: 7\r\nAllow: POST\r\nConnection: close\r\n\r\nMETHOD\n",
            b"HTTP/1.1 405 Method Not Allowed\r\nContent-Type: text/plain\r\nContent-Length: 7\r\nAllow: POST\r\nConnection: close\r\n\r\nMETHOD\n",
        ],
    },
    // One, where rules that don't combine leave no other.
    Served {
        bodies: &[
            "HEAD,1,1,2025-01-01\n\
                 CUR,GB,GBP,0.750000,0,1,U\n\
                 CUR,FR,EUR,0.900000,2,1,N\n\
                 CUR,IT,EUR,0.900000,2,1,N\n\
                 CITY,LON,GB,2\n\
                 CITY,PAR,FR,2\n\
                 CITY,ROM,IT,2\n\
                 RULE,RA,9,9,0,0,365,Y,*,RA\n\
                 RULE,RB,9,9,0,0,365,Y,*,*\n\
                 FARE,LON,PAR,EH,YY,Y,OW,RA,150.00\n\
                 FARE,LON,PAR,EH,YY,Y,OW,,200.00\n\
                 FARE,PAR,ROM,EH,YY,Y,OW,RB,100.00\n\
                 END\n",
        ],
        round: 8,
        connections: &[
            b"POST /best/10 HTTP/1.1\r\nContent-Length: 164\r\n\r\n{\"sale\":\"2025-03-01\",\"from\":\"LON\",\"sectors\":[{\"to\":\"PAR\",\"carrier\":\"Q1\",\"day\":\"2025-04-10\",\"cabin\":\"Y\"},{\"to\":\"ROM\",\"carrier\":\"Q1\",\"day\":\"2025-04-12\",\"cabin\":\"Y\"}]}",
        ],
        sent: &[
            b"HTTP/1.1 200 OK\r\nContent-Type: text/plain\r\nContent-Length: 110\r\nConnection: close\r\n\r\nEDITION 1 2025-01-01\nBEST 1 300.00\nLON Q1 PAR 200.00 YYYOW/1 Q1 ROM 100.00 YYYOWRB/2 NUC300.00END ROE0.750000\n",
        ],
    },
    // A lawful line, a dearer one, that of another trip, and another method.
    Served {
        bodies: &[
            "HEAD,1,1,2025-01-01\n\
                 CUR,GB,GBP,0.750000,0,1,U\n\
                 CUR,FR,EUR,0.900000,2,1,N\n\
                 CUR,IT,EUR,0.900000,2,1,N\n\
                 CITY,LON,GB,2\n\
                 CITY,PAR,FR,2\n\
                 CITY,ROM,IT,2\n\
                 FARE,LON,ROM,EH,YY,Y,OW,,400.00\n\
                 FARE,LON,PAR,EH,YY,Y,OW,,450.00\n\
                 FARE,PAR,ROM,EH,YY,Y,OW,,200.00\n\
                 TPM,LON,PAR,300\n\
                 TPM,PAR,ROM,700\n\
                 MPM,LON,ROM,EH,1000\n\
                 END\n",
        ],
        round: 3,
        connections: &[
            b"POST /audit HTTP/1.1\r\nContent-Length: 257\r\n\r\n{\"line\":\"LON Q1 PAR Q1 ROM MLONPAR450.00 YYYOW/1 P/1 50.00 NUC500.00END ROE0.750000\",\"trip\":{\"sale\":\"2025-03-01\",\"from\":\"LON\",\"sectors\":[{\"to\":\"PAR\",\"carrier\":\"Q1\",\"day\":\"2025-04-10\",\"cabin\":\"Y\"},{\"to\":\"ROM\",\"carrier\":\"Q1\",\"day\":\"2025-04-12\",\"cabin\":\"Y\"}]}}",
            b"POST /audit HTTP/1.1\r\nContent-Length: 255\r\n\r\n{\"line\":\"LON Q1 PAR 450.00 YYYOW/1 Q1 ROM 200.00 YYYOW/2 NUC650.00END ROE0.750000\",\"trip\":{\"sale\":\"2025-03-01\",\"from\":\"LON\",\"sectors\":[{\"to\":\"PAR\",\"carrier\":\"Q1\",\"day\":\"2025-04-10\",\"cabin\":\"Y\"},{\"to\":\"ROM\",\"carrier\":\"Q1\",\"day\":\"2025-04-12\",\"cabin\":\"Y\"}]}}",
            b"POST /audit HTTP/1.1\r\nContent-Length: 243\r\n\r\n{\"line\":\"LON Q1 X/PAR Q1 ROM M400.00 YYYOW/1 NUC400.00END ROE0.750000\",\"trip\":{\"sale\":\"2025-03-01\",\"from\":\"LON\",\"sectors\":[{\"to\":\"PAR\",\"carrier\":\"Q1\",\"day\":\"2025-04-10\",\"cabin\":\"Y\"},{\"to\":\"ROM\",\"carrier\":\"Q1\",\"day\":\"2025-04-12\",\"cabin\":\"Y\"}]}}",
            b"GET /audit HTTP/1.1\r\n\r\n",
        ],
        sent: &[
            b"HTTP/1.1 200 OK\r\nContent-Type: text/plain\r\nContent-Length: 24\r\nConnection: close\r\n\r\nLAWFUL 500.00 OVER 0.00\n",
            b"HTTP/1.1 200 OK\r\nContent-Type: text/plain\r\nContent-Length: 26\r\nConnection: close\r\n\r\nLAWFUL 650.00 OVER 150.00\n",
            b"HTTP/1.1 200 OK\r\nContent-Type: text/plain\r\nContent-Length: 13\r\nConnection: close\r\n\r\nOTHER TRIP 1\n",
            b"HTTP/1.1 405 Method Not Allowed\r\nContent-Type: text/plain\r\nContent-Length: 7\r\nAllow: POST\r\nConnection: close\r\n\r\nMETHOD\n",
        ],
    },
    // Units that cross.
    Served {
        bodies: &[
            "HEAD,1,1,2025-01-01\n\
                 CUR,GB,GBP,0.750000,0,1,U\n\
                 CUR,FR,EUR,0.900000,2,1,N\n\
                 CUR,IT,EUR,0.900000,2,1,N\n\
                 CITY,LON,GB,2\n\
                 CITY,PAR,FR,2\n\
                 CITY,ROM,IT,2\n\
                 FARE,LON,PAR,EH,YY,Y,HR,,100.00\n\
                 FARE,PAR,ROM,EH,YY,Y,HR,,80.00\n\
                 END\n",
        ],
        round: 1,
        connections: &[
            b"POST /audit HTTP/1.1\r\nContent-Length: 415\r\n\r\n{\"line\":\"LON Q1 PAR 100.00 YYYHR/1 Q1 ROM 80.00 YYYHR/2 Q1 PAR 80.00 YYYHR/1 Q1 LON 100.00 YYYHR/2 NUC360.00END ROE0.750000\",\"trip\":{\"sale\":\"2025-03-01\",\"from\":\"LON\",\"sectors\":[{\"to\":\"PAR\",\"carrier\":\"Q1\",\"day\":\"2025-04-10\",\"cabin\":\"Y\"},{\"to\":\"ROM\",\"carrier\":\"Q1\",\"day\":\"2025-04-12\",\"cabin\":\"Y\"},{\"to\":\"PAR\",\"carrier\":\"Q1\",\"day\":\"2025-04-14\",\"cabin\":\"Y\"},{\"to\":\"LON\",\"carrier\":\"Q1\",\"day\":\"2025-04-16\",\"cabin\":\"Y\"}]}}",
        ],
        sent: &[
            b"HTTP/1.1 200 OK\r\nContent-Type: text/plain\r\nContent-Length: 11\r\nConnection: close\r\n\r\nBROKEN 4 4\n",
        ],
    },
    // Another total, and a fare that isn't filed.
    Served {
        bodies: &[
            "HEAD,1,1,2025-01-01\n\
                 CUR,GB,GBP,0.750000,0,1,U\n\
                 CUR,IT,EUR,0.900000,2,1,N\n\
                 CITY,LON,GB,2\n\
                 CITY,ROM,IT,2\n\
                 FARE,LON,ROM,EH,YY,Y,OW,,400.00\n\
                 END\n",
        ],
        round: 2,
        connections: &[
            b"POST /audit HTTP/1.1\r\nContent-Length: 174\r\n\r\n{\"line\":\"LON Q1 ROM 400.00 YYYOW/1 NUC399.00END ROE0.750000\",\"trip\":{\"sale\":\"2025-03-01\",\"from\":\"LON\",\"sectors\":[{\"to\":\"ROM\",\"carrier\":\"Q1\",\"day\":\"2025-04-10\",\"cabin\":\"Y\"}]}}",
            b"POST /audit HTTP/1.1\r\nContent-Length: 176\r\n\r\n{\"line\":\"LON Q1 ROM 400.00 YYYOWRA/1 NUC400.00END ROE0.750000\",\"trip\":{\"sale\":\"2025-03-01\",\"from\":\"LON\",\"sectors\":[{\"to\":\"ROM\",\"carrier\":\"Q1\",\"day\":\"2025-04-10\",\"cabin\":\"Y\"}]}}",
        ],
        sent: &[
            b"HTTP/1.1 200 OK\r\nContent-Type: text/plain\r\nContent-Length: 10\r\nConnection: close\r\n\r\nFIGURES 2\n",
            b"HTTP/1.1 200 OK\r\nContent-Type: text/plain\r\nContent-Length: 12\r\nConnection: close\r\n\r\nNO RECORD 1\n",
        ],
    },
];
