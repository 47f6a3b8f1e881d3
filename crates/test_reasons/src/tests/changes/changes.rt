//! The worked editions, and some of a separate program, with what changed between them.

use super::diffs::Change;

/// What changed from one edition to another.
pub static CHANGES: [Change; 4] = [
    // The miles of London to Paris and the fare from Paris are others, a city and its fare are new, a TPM has moved.
    Change {
        old: "HEAD,1,1,2025-01-01\n\
              CUR,GB,GBP,0.750000,0,1,U\n\
              CUR,FR,EUR,0.900000,2,1,N\n\
              CUR,IT,EUR,0.900000,2,1,N\n\
              CITY,LON,GB,2\n\
              CITY,PAR,FR,2\n\
              CITY,ROM,IT,2\n\
              FARE,LON,ROM,EH,YY,Y,OW,,400.00\n\
              TPM,LON,PAR,300\n\
              TPM,PAR,ROM,700\n\
              MPM,LON,ROM,EH,1000\n\
              FARE,LON,PAR,EH,YY,Y,OW,,150.00\n\
              FARE,PAR,ROM,EH,YY,Y,OW,,250.00\n\
              END\n",
        new: "HEAD,1,2,2025-02-01\n\
              CUR,GB,GBP,0.750000,0,1,U\n\
              CUR,FR,EUR,0.900000,2,1,N\n\
              CUR,IT,EUR,0.900000,2,1,N\n\
              CITY,LON,GB,2\n\
              CITY,PAR,FR,2\n\
              CITY,ROM,IT,2\n\
              FARE,LON,ROM,EH,YY,Y,OW,,400.00\n\
              TPM,LON,PAR,310\n\
              MPM,LON,ROM,EH,1000\n\
              FARE,LON,PAR,EH,YY,Y,OW,,150.00\n\
              FARE,PAR,ROM,EH,YY,Y,OW,,240.00\n\
              CITY,MIL,IT,2\n\
              FARE,LON,MIL,EH,YY,Y,OW,,380.00\n\
              TPM,PAR,ROM,700\n\
              END\n",
        text: "DIFF 1 2 removed 2 added 4 same 10\n\
               - TPM,LON,PAR,300\n\
               - FARE,PAR,ROM,EH,YY,Y,OW,,01-01,12-31,250.00\n\
               + TPM,LON,PAR,310\n\
               + FARE,PAR,ROM,EH,YY,Y,OW,,01-01,12-31,240.00\n\
               + CITY,MIL,IT,2\n\
               + FARE,LON,MIL,EH,YY,Y,OW,,01-01,12-31,380.00\n",
    },
    // An edition and itself.
    Change {
        old: "HEAD,1,1,2025-01-01\n\
              CUR,GB,GBP,0.750000,0,1,U\n\
              CUR,FR,EUR,0.900000,2,1,N\n\
              CUR,IT,EUR,0.900000,2,1,N\n\
              CITY,LON,GB,2\n\
              CITY,PAR,FR,2\n\
              CITY,ROM,IT,2\n\
              FARE,LON,ROM,EH,YY,Y,OW,,400.00\n\
              TPM,LON,PAR,300\n\
              TPM,PAR,ROM,700\n\
              MPM,LON,ROM,EH,1000\n\
              FARE,LON,PAR,EH,YY,Y,OW,,150.00\n\
              FARE,PAR,ROM,EH,YY,Y,OW,,250.00\n\
              END\n",
        new: "HEAD,1,1,2025-01-01\n\
              CUR,GB,GBP,0.750000,0,1,U\n\
              CUR,FR,EUR,0.900000,2,1,N\n\
              CUR,IT,EUR,0.900000,2,1,N\n\
              CITY,LON,GB,2\n\
              CITY,PAR,FR,2\n\
              CITY,ROM,IT,2\n\
              FARE,LON,ROM,EH,YY,Y,OW,,400.00\n\
              TPM,LON,PAR,300\n\
              TPM,PAR,ROM,700\n\
              MPM,LON,ROM,EH,1000\n\
              FARE,LON,PAR,EH,YY,Y,OW,,150.00\n\
              FARE,PAR,ROM,EH,YY,Y,OW,,250.00\n\
              END\n",
        text: "DIFF 1 1 removed 0 added 0 same 12\n",
    },
    // A fare is filed for a carrier too.
    Change {
        old: "HEAD,2,73,2025-01-01\n\
              CUR,FR,EUR,0.000001,1,5,N\n\
              CUR,IT,EUR,110.000000,2,100,U\n\
              CITY,ROM,IT,2\n\
              CITY,PAR,FR,2\n\
              FARE,ROM,PAR,EH,YY,Y,OW,,02-14,10-06,364.00\n\
              FARE,ROM,PAR,EH,YY,Y,OW,,10-07,02-13,413.93\n\
              FARE,ROM,PAR,AT,YY,Y,HR,,01-01,12-31,300.00\n\
              TPM,ROM,PAR,1871\n\
              END\n",
        new: "HEAD,2,2,2025-02-01\n\
              FARE,ROM,PAR,EH,7Z,Y,OW,,02-14,10-06,353.08\n\
              CUR,FR,EUR,0.000001,1,5,N\n\
              CUR,IT,EUR,110.000000,2,100,U\n\
              CITY,ROM,IT,2\n\
              CITY,PAR,FR,2\n\
              FARE,ROM,PAR,EH,YY,Y,OW,,02-14,10-06,353.08\n\
              FARE,ROM,PAR,EH,YY,Y,OW,,10-07,02-13,413.93\n\
              TPM,ROM,PAR,1871\n\
              END\n",
        text: "DIFF 73 2 removed 2 added 2 same 6\n\
               - FARE,ROM,PAR,EH,YY,Y,OW,,02-14,10-06,364.00\n\
               - FARE,ROM,PAR,AT,YY,Y,HR,,01-01,12-31,300.00\n\
               + FARE,ROM,PAR,EH,7Z,Y,OW,,02-14,10-06,353.08\n\
               + FARE,ROM,PAR,EH,YY,Y,OW,,02-14,10-06,353.08\n",
    },
    // No record is in both.
    Change {
        old: "HEAD,2,1,2025-01-01\n\
              CUR,DE,EUR,1.000000,0,10000,U\n\
              CUR,FR,EUR,0.750000,1,100,N\n\
              CUR,GB,GBP,1.000000,1,5,U\n\
              CITY,FRA,DE,2\n\
              CITY,PAR,FR,2\n\
              RULE,A,16,16,0,0,15,N,- GHOST,GHOST A SAVER21 FLEX\n\
              RULE,FLEX,16,5,0,3,30,N,SAVER21 FLEX,FLEX SAVER21 - A GHOST\n\
              RULE,SAVER21,16,0,0,0,30,Y,*,*\n\
              FARE,PAR,FRA,EH,YY,F,HR,A,04-04,06-26,251.93\n\
              FARE,PAR,FRA,EH,YY,F,HR,A,06-27,04-03,226.30\n\
              FARE,FRA,PAR,EH,YY,F,HR,A,01-01,12-31,463.50\n\
              MPM,FRA,PAR,EH,1510\n\
              END\n",
        new: "HEAD,2,69,2025-01-01\n\
              FARE,NYC,LAX,WH,Q2,Y,OW,,01-01,12-31,217.91\n\
              CITY,YYZ,CA,1\n\
              FARE,NYC,LAX,WH,Q2,Y,HR,,07-25,05-28,300.00\n\
              CUR,US,USD,0.912345,2,5,U\n\
              TPM,NYC,YYZ,1567\n\
              FARE,LAX,YYZ,AT,Q2,Y,OW,,03-15,07-27,250.00\n\
              FARE,LAX,NYC,WH,Q2,Y,OW,,03-14,01-14,200.00\n\
              FARE,LAX,NYC,WH,Q2,Y,HR,,01-01,12-31,150.00\n\
              CITY,LAX,US,1\n\
              FARE,YYZ,LAX,AT,Q2,Y,HR,,01-01,12-31,150.00\n\
              CUR,CA,CAD,0.912345,0,5,N\n\
              FARE,LAX,YYZ,AT,Q2,Y,OW,,07-28,03-14,200.00\n\
              TPM,NYC,LAX,1063\n\
              FARE,LAX,NYC,WH,Q2,Y,OW,,01-15,03-13,200.00\n\
              CITY,NYC,US,1\n\
              END\n",
        text: "DIFF 1 69 removed 12 added 15 same 0\n\
               - CUR,DE,EUR,1.000000,0,10000,U\n\
               - CUR,FR,EUR,0.750000,1,100,N\n\
               - CUR,GB,GBP,1.000000,1,5,U\n\
               - CITY,FRA,DE,2\n\
               - CITY,PAR,FR,2\n\
               - RULE,A,16,16,0,0,15,N,- GHOST,GHOST A SAVER21 FLEX\n\
               - RULE,FLEX,16,5,0,3,30,N,SAVER21 FLEX,FLEX SAVER21 - A GHOST\n\
               - RULE,SAVER21,16,0,0,0,30,Y,*,*\n\
               - FARE,PAR,FRA,EH,YY,F,HR,A,04-04,06-26,251.93\n\
               - FARE,PAR,FRA,EH,YY,F,HR,A,06-27,04-03,226.30\n\
               - FARE,FRA,PAR,EH,YY,F,HR,A,01-01,12-31,463.50\n\
               - MPM,FRA,PAR,EH,1510\n\
               + FARE,NYC,LAX,WH,Q2,Y,OW,,01-01,12-31,217.91\n\
               + CITY,YYZ,CA,1\n\
               + FARE,NYC,LAX,WH,Q2,Y,HR,,07-25,05-28,300.00\n\
               + CUR,US,USD,0.912345,2,5,U\n\
               + TPM,NYC,YYZ,1567\n\
               + FARE,LAX,YYZ,AT,Q2,Y,OW,,03-15,07-27,250.00\n\
               + FARE,LAX,NYC,WH,Q2,Y,OW,,03-14,01-14,200.00\n\
               + FARE,LAX,NYC,WH,Q2,Y,HR,,01-01,12-31,150.00\n\
               + CITY,LAX,US,1\n\
               + FARE,YYZ,LAX,AT,Q2,Y,HR,,01-01,12-31,150.00\n\
               + CUR,CA,CAD,0.912345,0,5,N\n\
               + FARE,LAX,YYZ,AT,Q2,Y,OW,,07-28,03-14,200.00\n\
               + TPM,NYC,LAX,1063\n\
               + FARE,LAX,NYC,WH,Q2,Y,OW,,01-15,03-13,200.00\n\
               + CITY,NYC,US,1\n",
    },
];
