//! Batches over the worked editions, and some of a separate program, with what their items cost.

use super::compares::Cost;

/// What the items of a batch cost in two editions.
pub static COSTS: [Cost; 5] = [
    // Two trips to Rome, one to Milan, one to Rome and back, an object without members, and a trip from nowhere.
    Cost {
        old: "HEAD,1,1,2025-01-01\n\
              CUR,GB,GBP,0.750000,0,1,U\n\
              CUR,FR,EUR,0.900000,2,1,N\n\
              CUR,IT,EUR,0.900000,2,1,N\n\
              CITY,LON,GB,2\n\
              CITY,PAR,FR,2\n\
              CITY,ROM,IT,2\n\
              FARE,LON,ROM,EH,YY,Y,OW,,400.00\n\
              TPM,LON,PAR,300\n\
              TPM,PAR,ROM,700\n\
              MPM,LON,ROM,EH,1000\n\
              FARE,LON,PAR,EH,YY,Y,OW,,150.00\n\
              FARE,PAR,ROM,EH,YY,Y,OW,,250.00\n\
              END\n",
        new: "HEAD,1,2,2025-02-01\n\
              CUR,GB,GBP,0.750000,0,1,U\n\
              CUR,FR,EUR,0.900000,2,1,N\n\
              CUR,IT,EUR,0.900000,2,1,N\n\
              CITY,LON,GB,2\n\
              CITY,PAR,FR,2\n\
              CITY,ROM,IT,2\n\
              FARE,LON,ROM,EH,YY,Y,OW,,400.00\n\
              TPM,LON,PAR,310\n\
              MPM,LON,ROM,EH,1000\n\
              FARE,LON,PAR,EH,YY,Y,OW,,150.00\n\
              FARE,PAR,ROM,EH,YY,Y,OW,,240.00\n\
              CITY,MIL,IT,2\n\
              FARE,LON,MIL,EH,YY,Y,OW,,380.00\n\
              TPM,PAR,ROM,700\n\
              END\n",
        items: "[{\"sale\":\"2025-03-01\",\"from\":\"LON\",\"sectors\":[{\"to\":\"PAR\",\"carrier\":\"Q1\",\"day\":\"2025-04-10\",\"cabin\":\"Y\"},{\"to\":\"ROM\",\"carrier\":\"Q1\",\"day\":\"2025-04-12\",\"cabin\":\"Y\"}]},{\"sale\":\"2025-03-01\",\"from\":\"LON\",\"sectors\":[{\"to\":\"PAR\",\"carrier\":\"Q1\",\"day\":\"2025-04-10\",\"cabin\":\"Y\",\"stop\":false},{\"to\":\"ROM\",\"carrier\":\"Q1\",\"day\":\"2025-04-12\",\"cabin\":\"Y\"}]},{\"sale\":\"2025-03-01\",\"from\":\"LON\",\"sectors\":[{\"to\":\"MIL\",\"carrier\":\"Q1\",\"day\":\"2025-04-10\",\"cabin\":\"Y\"}]},{\"sale\":\"2025-03-01\",\"from\":\"LON\",\"sectors\":[{\"to\":\"PAR\",\"carrier\":\"Q1\",\"day\":\"2025-04-10\",\"cabin\":\"Y\"},{\"to\":\"ROM\",\"carrier\":\"Q1\",\"day\":\"2025-04-12\",\"cabin\":\"Y\"},{\"to\":\"PAR\",\"carrier\":\"Q1\",\"day\":\"2025-04-14\",\"cabin\":\"Y\"},{\"to\":\"LON\",\"carrier\":\"Q1\",\"day\":\"2025-04-16\",\"cabin\":\"Y\"}]},{},{\"sale\":\"2025-03-01\",\"from\":\"XXX\",\"sectors\":[{\"to\":\"PAR\",\"carrier\":\"Q1\",\"day\":\"2025-04-10\",\"cabin\":\"Y\"},{\"to\":\"ROM\",\"carrier\":\"Q1\",\"day\":\"2025-04-12\",\"cabin\":\"Y\"}]}]",
        text: "ITEM 1 400.00 390.00 -10.00\n\
               ITEM 2 400.00 390.00 -10.00\n\
               ITEM 3 - 380.00 -\n\
               ITEM 4 - - -\n\
               ITEM 5 FAULT TRIP Missing sale 0\n\
               ITEM 6 FAULT UNKNOWN PLACE XXX\n\
               COMPARE 1 2 items 6 same 0 dearer 0 cheaper 2 opened 1 closed 0 none 1 faults 2 old 800.00 new 780.00 change -20.00\n",
    },
    // No items.
    Cost {
        old: "HEAD,1,1,2025-01-01\n\
              CUR,GB,GBP,0.750000,0,1,U\n\
              CUR,FR,EUR,0.900000,2,1,N\n\
              CUR,IT,EUR,0.900000,2,1,N\n\
              CITY,LON,GB,2\n\
              CITY,PAR,FR,2\n\
              CITY,ROM,IT,2\n\
              FARE,LON,ROM,EH,YY,Y,OW,,400.00\n\
              TPM,LON,PAR,300\n\
              TPM,PAR,ROM,700\n\
              MPM,LON,ROM,EH,1000\n\
              FARE,LON,PAR,EH,YY,Y,OW,,150.00\n\
              FARE,PAR,ROM,EH,YY,Y,OW,,250.00\n\
              END\n",
        new: "HEAD,1,2,2025-02-01\n\
              CUR,GB,GBP,0.750000,0,1,U\n\
              CUR,FR,EUR,0.900000,2,1,N\n\
              CUR,IT,EUR,0.900000,2,1,N\n\
              CITY,LON,GB,2\n\
              CITY,PAR,FR,2\n\
              CITY,ROM,IT,2\n\
              FARE,LON,ROM,EH,YY,Y,OW,,400.00\n\
              TPM,LON,PAR,310\n\
              MPM,LON,ROM,EH,1000\n\
              FARE,LON,PAR,EH,YY,Y,OW,,150.00\n\
              FARE,PAR,ROM,EH,YY,Y,OW,,240.00\n\
              CITY,MIL,IT,2\n\
              FARE,LON,MIL,EH,YY,Y,OW,,380.00\n\
              TPM,PAR,ROM,700\n\
              END\n",
        items: "[]",
        text: "COMPARE 1 2 items 0 same 0 dearer 0 cheaper 0 opened 0 closed 0 none 0 faults 0 old 0.00 new 0.00 change 0.00\n",
    },
    // Both items cost a tenth less.
    Cost {
        old: "HEAD,2,91,2025-01-01\n\
              CUR,AU,AUD,1.000000,0,10,U\n\
              CUR,JP,JPY,0.750000,0,5,U\n\
              CITY,SYD,AU,3\n\
              CITY,OSA,JP,3\n\
              CITY,TYO,JP,3\n\
              FARE,SYD,OSA,EH,YY,Y,OW,,03-16,05-30,450.00\n\
              FARE,SYD,OSA,EH,YY,Y,OW,,05-31,03-15,450.00\n\
              FARE,SYD,OSA,EH,YY,Y,HR,,01-23,09-23,350.00\n\
              FARE,SYD,OSA,EH,YY,Y,HR,,09-24,01-22,448.50\n\
              FARE,OSA,SYD,EH,YY,Y,HR,,02-01,08-06,499.60\n\
              FARE,OSA,SYD,EH,YY,Y,HR,,08-07,01-31,500.00\n\
              TPM,SYD,OSA,2628\n\
              END\n",
        new: "HEAD,2,99999,2025-02-01\n\
              CUR,AU,AUD,1.000000,0,10,U\n\
              CUR,JP,JPY,0.750000,0,5,U\n\
              CITY,SYD,AU,3\n\
              CITY,OSA,JP,3\n\
              CITY,TYO,JP,3\n\
              FARE,SYD,OSA,EH,YY,Y,OW,,03-16,05-30,405.00\n\
              FARE,SYD,OSA,EH,YY,Y,OW,,05-31,03-15,405.00\n\
              FARE,SYD,OSA,EH,YY,Y,HR,,01-23,09-23,315.00\n\
              FARE,SYD,OSA,EH,7Z,Y,HR,,01-23,09-23,315.00\n\
              FARE,SYD,OSA,EH,YY,Y,HR,,09-24,01-22,448.50\n\
              FARE,OSA,SYD,EH,YY,Y,HR,,02-01,08-06,474.64\n\
              FARE,OSA,SYD,EH,YY,Y,HR,,08-07,01-31,450.01\n\
              TPM,SYD,OSA,2628\n\
              END\n",
        items: "[{\"from\": \"SYD\", \"sale\": \"2025-05-09\", \"sectors\": [{\"cabin\": \"Y\", \"carrier\": \"Q1\", \"day\": \"2025-07-27\", \"over\": \"\", \"stop\": true, \"surface\": false, \"to\": \"OSA\"}]}, {\"from\": \"SYD\", \"sale\": \"2025-03-28\", \"sectors\": [{\"cabin\": \"Y\", \"carrier\": \"Q1\", \"day\": \"2025-07-27\", \"over\": \"\", \"stop\": true, \"surface\": false, \"to\": \"OSA\"}]}]",
        text: "ITEM 1 450.00 405.00 -45.00\n\
               ITEM 2 450.00 405.00 -45.00\n\
               COMPARE 91 99999 items 2 same 0 dearer 0 cheaper 2 opened 0 closed 0 none 0 faults 0 old 900.00 new 810.00 change -90.00\n",
    },
    // Neither edition knows the first point.
    Cost {
        old: "HEAD,2,1,2025-02-01\n\
              CUR,AU,AUD,1234567.654321,2,10,N\n\
              CUR,JP,JPY,1.000000,1,10000,N\n\
              CITY,SYD,AU,2\n\
              CITY,OSA,JP,3\n\
              RULE,SAVER21,16,1,0,0,365,Y,*,FLEX B2 SAVER21 - GHOST\n\
              RULE,FLEX,16,16,21,1,365,Y,GHOST B2,GHOST FLEX\n\
              RULE,B2,5,1,0,1,30,Y,*,*\n\
              END\n",
        new: "HEAD,2,72,2025-01-01\n\
              CUR,AU,AUD,1234567.654321,2,10,N\n\
              CUR,JP,JPY,1.000000,1,10000,N\n\
              CITY,TYO,JP,3\n\
              CITY,SYD,AU,2\n\
              CITY,OSA,JP,3\n\
              RULE,SAVER21,16,1,0,0,365,Y,*,FLEX B2 SAVER21 - GHOST\n\
              RULE,FLEX,16,16,21,1,365,Y,GHOST B2,GHOST FLEX\n\
              RULE,B2,5,1,0,1,30,Y,*,*\n\
              FARE,TYO,OSA,EH,YY,Y,OW,,05-14,05-24,259.51\n\
              FARE,TYO,OSA,EH,YY,Y,OW,,05-25,10-17,183.30\n\
              FARE,TYO,OSA,EH,YY,Y,OW,,10-18,05-13,150.00\n\
              FARE,TYO,OSA,EH,YY,Y,HR,,05-05,10-21,152.53\n\
              FARE,TYO,OSA,EH,YY,Y,HR,,10-22,05-04,200.00\n\
              FARE,OSA,TYO,EH,YY,Y,HR,,05-21,11-22,202.66\n\
              FARE,OSA,TYO,EH,YY,Y,HR,,11-23,05-20,238.85\n\
              FARE,TYO,OSA,EH,Q1,Y,OW,B2,02-01,02-19,250.00\n\
              FARE,TYO,OSA,EH,Q1,Y,OW,B2,02-20,01-31,285.29\n\
              FARE,TYO,OSA,EH,Q1,Y,HR,B2,01-01,12-31,266.70\n\
              FARE,OSA,TYO,EH,Q1,Y,HR,B2,01-10,04-19,292.45\n\
              FARE,OSA,TYO,EH,Q1,Y,HR,B2,04-20,12-16,273.17\n\
              FARE,OSA,TYO,EH,Q1,Y,HR,B2,12-17,01-09,200.08\n\
              FARE,TYO,OSA,EH,YY,Y,OW,B2,01-01,12-31,289.62\n\
              FARE,TYO,OSA,EH,YY,Y,HR,B2,05-26,07-08,197.94\n\
              FARE,TYO,OSA,EH,YY,Y,HR,B2,07-09,05-25,308.91\n\
              FARE,OSA,TYO,EH,YY,Y,HR,B2,01-01,12-31,175.93\n\
              FARE,TYO,OSA,EH,Q2,C,OW,FLEX,01-04,04-15,544.46\n\
              FARE,TYO,OSA,EH,Q2,C,OW,FLEX,04-16,01-03,400.00\n\
              FARE,TYO,OSA,EH,Q2,C,HR,FLEX,04-27,08-17,288.52\n\
              FARE,TYO,OSA,EH,Q2,C,HR,FLEX,08-18,04-26,400.00\n\
              FARE,OSA,TYO,EH,Q2,C,HR,FLEX,09-14,12-11,400.00\n\
              TPM,TYO,SYD,575\n\
              TPM,TYO,OSA,1416\n\
              END\n",
        items: "[{\"from\": \"TYO\", \"sale\": \"2025-08-24\", \"sectors\": [{\"cabin\": \"Y\", \"carrier\": \"Q2\", \"day\": \"2025-08-25\", \"over\": \"PA\", \"stop\": true, \"surface\": false, \"to\": \"LON\"}]}]",
        text: "ITEM 1 FAULT UNKNOWN PLACE LON\n\
               COMPARE 1 72 items 1 same 0 dearer 0 cheaper 0 opened 0 closed 0 none 0 faults 1 old 0.00 new 0.00 change 0.00\n",
    },
    // The other edition has no construction.
    Cost {
        old: "HEAD,2,58,2025-01-01\n\
              CITY,PAR,FR,2\n\
              CUR,IT,EUR,1.000000,1,10,N\n\
              CITY,MAN,GB,2\n\
              FARE,ROM,MAN,EH,YY,Y,HR,,01-01,12-31,100.00\n\
              CITY,FRA,DE,2\n\
              FARE,MAN,ROM,EH,YY,Y,HR,,01-01,12-31,100.00\n\
              TPM,LON,PAR,1615\n\
              TPM,FRA,MAN,962\n\
              TPM,LON,ROM,1861\n\
              TPM,LON,MAN,2291\n\
              CITY,LON,GB,1\n\
              TPM,LYS,PAR,1895\n\
              CUR,FR,EUR,1.000000,2,5,U\n\
              CITY,MIL,IT,2\n\
              TPM,MIL,LYS,71\n\
              TPM,LYS,MAN,2292\n\
              FARE,MAN,ROM,EH,YY,Y,OW,,01-01,12-31,179.92\n\
              CUR,GB,GBP,0.750000,2,10000,N\n\
              CUR,DE,EUR,1234567.654321,0,10000,U\n\
              FARE,FRA,MAN,AT,YY,Y,HR,,01-10,12-03,150.00\n\
              FARE,FRA,MAN,AT,YY,Y,HR,,12-04,01-09,131.44\n\
              CITY,LYS,FR,2\n\
              TPM,MAN,ROM,603\n\
              CITY,ROM,IT,2\n\
              END\n",
        new: "HEAD,2,99999,2025-01-01\n\
              CUR,AU,AUD,1234567.654321,2,5,U\n\
              CUR,FR,EUR,0.912345,0,1,N\n\
              CUR,GB,GBP,0.750000,2,10,U\n\
              CUR,IT,EUR,1.000000,0,5,N\n\
              CUR,US,USD,1.000000,1,5,N\n\
              CITY,MIL,IT,2\n\
              CITY,LYS,FR,2\n\
              CITY,SYD,AU,3\n\
              CITY,MAN,GB,2\n\
              CITY,PAR,FR,2\n\
              CITY,NYC,US,1\n\
              FARE,MIL,NYC,AT,YY,Y,OW,,07-01,07-02,495.00\n\
              FARE,MIL,NYC,AT,YY,Y,OW,,08-06,06-30,358.49\n\
              FARE,MIL,NYC,AT,YY,Y,HR,,10-17,10-29,275.00\n\
              FARE,MIL,NYC,AT,YY,Y,HR,,10-30,11-30,220.00\n\
              FARE,NYC,MIL,AT,YY,Y,HR,,04-17,12-04,495.00\n\
              FARE,MIL,NYC,AT,YY,C,OW,,04-12,12-27,529.79\n\
              FARE,MIL,NYC,AT,YY,C,HR,,01-01,12-31,450.13\n\
              FARE,NYC,MIL,AT,YY,C,HR,,01-31,07-07,275.00\n\
              FARE,NYC,MIL,AT,YY,C,HR,,07-08,08-16,440.00\n\
              FARE,NYC,MIL,AT,YY,C,HR,,08-17,01-30,275.00\n\
              FARE,NYC,MIL,AT,YY,Y,OW,,06-15,09-23,314.77\n\
              FARE,NYC,MIL,AT,Q2,Y,OW,,06-05,10-28,385.00\n\
              FARE,NYC,MIL,AT,Q2,Y,OW,,10-29,05-30,330.00\n\
              FARE,MIL,NYC,AT,Q2,Y,OW,,04-16,06-25,383.74\n\
              FARE,PAR,SYD,AP,YY,C,OW,,01-01,12-31,200.78\n\
              TPM,MIL,SYD,2138\n\
              TPM,MIL,MAN,1309\n\
              TPM,MIL,PAR,2674\n\
              TPM,MIL,NYC,2061\n\
              TPM,LYS,MAN,1384\n\
              TPM,SYD,PAR,764\n\
              TPM,MAN,PAR,1922\n\
              END\n",
        items: "[{\"from\": \"MAN\", \"sale\": \"2025-04-08\", \"sectors\": [{\"cabin\": \"Y\", \"carrier\": \"Q1\", \"day\": \"2025-07-07\", \"over\": \"\", \"stop\": true, \"surface\": false, \"to\": \"ROM\"}]}]",
        text: "ITEM 1 179.92 - -\n\
               COMPARE 58 99999 items 1 same 0 dearer 0 cheaper 0 opened 0 closed 1 none 0 faults 0 old 0.00 new 0.00 change 0.00\n",
    },
];
