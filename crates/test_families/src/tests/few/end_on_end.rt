//! Trips whose rules don't all combine.

use crate::tests::sources::Source;

pub static SOURCES: [Source; 4] = [
    Source {
        name: "two camps of rules that don't combine",
        tariff: "HEAD,1,1,2025-01-01\nCUR,AA,XAA,1.000000,2,1,U\nCUR,AB,XAB,1.000000,2,1,U\n\
                 CUR,AC,XAC,1.000000,2,1,U\nCUR,AD,XAD,1.000000,2,1,U\nCUR,AE,XAE,1.000000,2,1,U\n\
                 CUR,AF,XAF,1.000000,2,1,U\nCITY,CAA,AA,2\nCITY,CAB,AB,2\nCITY,CAC,AC,2\nCITY,CAD,AD,2\n\
                 CITY,CAE,AE,2\nCITY,CAF,AF,2\nRULE,A,16,16,0,0,999,Y,*,A N0 N1 D0 D1\n\
                 RULE,B,16,16,0,0,999,Y,*,B N0 N1 D0 D1\nRULE,N0,16,16,0,0,999,Y,*,A B N0 N1 D1\n\
                 RULE,D0,16,16,0,0,999,Y,*,A B D0 D1 N1\nRULE,N1,16,16,0,0,999,Y,*,A B N0 N1 D0\n\
                 RULE,D1,16,16,0,0,999,Y,*,A B D0 D1 N0\nFARE,CAA,CAB,EH,YY,Y,OW,A,50.08\n\
                 FARE,CAA,CAB,EH,YY,Y,OW,B,200.36\nFARE,CAA,CAB,EH,YY,Y,OW,N0,90.48\n\
                 FARE,CAA,CAB,EH,YY,Y,OW,N1,90.04\nFARE,CAB,CAC,EH,YY,Y,OW,A,50.16\n\
                 FARE,CAB,CAC,EH,YY,Y,OW,B,200.07\nFARE,CAB,CAC,EH,YY,Y,OW,N0,90.31\n\
                 FARE,CAB,CAC,EH,YY,Y,OW,N1,90.48\nFARE,CAC,CAD,EH,YY,Y,OW,A,200.28\n\
                 FARE,CAC,CAD,EH,YY,Y,OW,B,50.30\nFARE,CAC,CAD,EH,YY,Y,OW,D0,150.41\n\
                 FARE,CAC,CAD,EH,YY,Y,OW,D1,150.24\nFARE,CAD,CAE,EH,YY,Y,OW,A,200.13\n\
                 FARE,CAD,CAE,EH,YY,Y,OW,B,50.06\nFARE,CAD,CAE,EH,YY,Y,OW,D0,150.31\n\
                 FARE,CAD,CAE,EH,YY,Y,OW,D1,150.01\nFARE,CAE,CAF,EH,YY,Y,OW,A,200.24\n\
                 FARE,CAE,CAF,EH,YY,Y,OW,B,50.27\nFARE,CAE,CAF,EH,YY,Y,OW,D0,150.38\n\
                 FARE,CAE,CAF,EH,YY,Y,OW,D1,150.48\nEND\n",
        itinerary: "{\"sale\":\"2025-03-01\",\"from\":\"CAA\",\"sectors\":[\
                    {\"to\":\"CAB\",\"carrier\":\"Q1\",\"day\":\"2025-04-01\",\"cabin\":\"Y\",\"stop\":true},\
                    {\"to\":\"CAC\",\"carrier\":\"Q1\",\"day\":\"2025-04-02\",\"cabin\":\"Y\",\"stop\":true},\
                    {\"to\":\"CAD\",\"carrier\":\"Q1\",\"day\":\"2025-04-03\",\"cabin\":\"Y\",\"stop\":true},\
                    {\"to\":\"CAE\",\"carrier\":\"Q1\",\"day\":\"2025-04-04\",\"cabin\":\"Y\",\"stop\":true},\
                    {\"to\":\"CAF\",\"carrier\":\"Q1\",\"day\":\"2025-04-05\",\"cabin\":\"Y\",\"stop\":true}]}",
    },
    Source {
        name: "rules that combine end on end by chance",
        tariff: "HEAD,1,1,2025-01-01\nCUR,AA,XAA,1.000000,2,1,U\nCUR,AB,XAB,1.000000,2,1,U\n\
                 CUR,AC,XAC,1.000000,2,1,U\nCUR,AD,XAD,1.000000,2,1,U\nCUR,AE,XAE,1.000000,2,1,U\n\
                 CUR,AF,XAF,1.000000,2,1,U\nCITY,CAA,AA,2\nCITY,CAB,AB,2\nCITY,CAC,AC,2\nCITY,CAD,AD,2\n\
                 CITY,CAE,AE,2\nCITY,CAF,AF,2\nRULE,S0R0,16,16,0,0,999,Y,*,S0R0 S1R0 S2R0 S2R1 S3R1 S4R0 S4R1\n\
                 RULE,S0R1,16,16,0,0,999,Y,*,S0R1 S1R1 S2R0 S3R0 S4R0 S4R1\n\
                 RULE,S1R0,16,16,0,0,999,Y,*,S0R0 S1R0 S2R0 S3R0 S4R0 S4R1\n\
                 RULE,S1R1,16,16,0,0,999,Y,*,S0R1 S1R1 S2R0 S2R1 S3R1 S4R0 S4R1\n\
                 RULE,S2R0,16,16,0,0,999,Y,*,S0R0 S0R1 S1R0 S1R1 S2R0 S3R0 S4R0 S4R1\n\
                 RULE,S2R1,16,16,0,0,999,Y,*,S0R0 S1R1 S2R1 S3R0 S3R1 S4R0 S4R1\n\
                 RULE,S3R0,16,16,0,0,999,Y,*,S0R1 S1R0 S2R0 S2R1 S3R0 S4R1\n\
                 RULE,S3R1,16,16,0,0,999,Y,*,S0R0 S1R1 S2R1 S3R1 S4R0 S4R1\n\
                 RULE,S4R0,16,16,0,0,999,Y,*,S0R0 S0R1 S1R0 S1R1 S2R0 S2R1 S3R1 S4R0\n\
                 RULE,S4R1,16,16,0,0,999,Y,*,S0R0 S0R1 S1R0 S1R1 S2R0 S2R1 S3R0 S3R1 S4R1\n\
                 FARE,CAA,CAB,EH,YY,Y,OW,S0R0,100.90\nFARE,CAA,CAB,EH,YY,Y,OW,S0R1,102.81\n\
                 FARE,CAB,CAC,EH,YY,Y,OW,S1R0,102.99\nFARE,CAB,CAC,EH,YY,Y,OW,S1R1,100.92\n\
                 FARE,CAC,CAD,EH,YY,Y,OW,S2R0,100.46\nFARE,CAC,CAD,EH,YY,Y,OW,S2R1,102.82\n\
                 FARE,CAD,CAE,EH,YY,Y,OW,S3R0,101.30\nFARE,CAD,CAE,EH,YY,Y,OW,S3R1,100.16\n\
                 FARE,CAE,CAF,EH,YY,Y,OW,S4R0,100.36\nFARE,CAE,CAF,EH,YY,Y,OW,S4R1,100.42\nEND\n",
        itinerary: "{\"sale\":\"2025-03-01\",\"from\":\"CAA\",\"sectors\":[\
                    {\"to\":\"CAB\",\"carrier\":\"Q1\",\"day\":\"2025-04-01\",\"cabin\":\"Y\",\"stop\":true},\
                    {\"to\":\"CAC\",\"carrier\":\"Q1\",\"day\":\"2025-04-02\",\"cabin\":\"Y\",\"stop\":true},\
                    {\"to\":\"CAD\",\"carrier\":\"Q1\",\"day\":\"2025-04-03\",\"cabin\":\"Y\",\"stop\":true},\
                    {\"to\":\"CAE\",\"carrier\":\"Q1\",\"day\":\"2025-04-04\",\"cabin\":\"Y\",\"stop\":true},\
                    {\"to\":\"CAF\",\"carrier\":\"Q1\",\"day\":\"2025-04-05\",\"cabin\":\"Y\",\"stop\":true}]}",
    },
    Source {
        name: "rules that combine in a unit by chance",
        tariff: "HEAD,1,1,2025-01-01\nCUR,AA,XAA,1.000000,2,1,U\nCUR,AB,XAB,1.000000,2,1,U\n\
                 CUR,AC,XAC,1.000000,2,1,U\nCUR,AD,XAD,1.000000,2,1,U\nCUR,AE,XAE,1.000000,2,1,U\n\
                 CUR,AF,XAF,1.000000,2,1,U\nCITY,CAA,AA,2\nCITY,CAB,AB,2\nCITY,CAC,AC,2\nCITY,CAD,AD,2\n\
                 CITY,CAE,AE,2\nCITY,CAF,AF,2\nRULE,S0R0,16,16,0,0,999,Y,S0R0 S1R0 S2R0 S2R1 S3R1 S4R0 S4R1,*\n\
                 RULE,S0R1,16,16,0,0,999,Y,S0R1 S1R1 S2R0 S3R0 S4R0 S4R1,*\n\
                 RULE,S1R0,16,16,0,0,999,Y,S0R0 S1R0 S2R0 S3R0 S4R0 S4R1,*\n\
                 RULE,S1R1,16,16,0,0,999,Y,S0R1 S1R1 S2R0 S2R1 S3R1 S4R0 S4R1,*\n\
                 RULE,S2R0,16,16,0,0,999,Y,S0R0 S0R1 S1R0 S1R1 S2R0 S3R0 S4R0 S4R1,*\n\
                 RULE,S2R1,16,16,0,0,999,Y,S0R0 S1R1 S2R1 S3R0 S3R1 S4R0 S4R1,*\n\
                 RULE,S3R0,16,16,0,0,999,Y,S0R1 S1R0 S2R0 S2R1 S3R0 S4R1,*\n\
                 RULE,S3R1,16,16,0,0,999,Y,S0R0 S1R1 S2R1 S3R1 S4R0 S4R1,*\n\
                 RULE,S4R0,16,16,0,0,999,Y,S0R0 S0R1 S1R0 S1R1 S2R0 S2R1 S3R1 S4R0,*\n\
                 RULE,S4R1,16,16,0,0,999,Y,S0R0 S0R1 S1R0 S1R1 S2R0 S2R1 S3R0 S3R1 S4R1,*\n\
                 FARE,CAA,CAB,EH,YY,Y,HR,S0R0,100.90\nFARE,CAA,CAB,EH,YY,Y,HR,S0R1,102.81\n\
                 FARE,CAB,CAC,EH,YY,Y,HR,S1R0,102.99\nFARE,CAB,CAC,EH,YY,Y,HR,S1R1,100.92\n\
                 FARE,CAC,CAD,EH,YY,Y,HR,S2R0,100.46\nFARE,CAC,CAD,EH,YY,Y,HR,S2R1,102.82\n\
                 FARE,CAD,CAE,EH,YY,Y,HR,S3R0,101.30\nFARE,CAD,CAE,EH,YY,Y,HR,S3R1,100.16\n\
                 FARE,CAA,CAE,EH,YY,Y,HR,S4R0,100.36\nFARE,CAA,CAE,EH,YY,Y,HR,S4R1,100.42\nEND\n",
        itinerary: "{\"sale\":\"2025-03-01\",\"from\":\"CAA\",\"sectors\":[\
                    {\"to\":\"CAB\",\"carrier\":\"Q1\",\"day\":\"2025-04-01\",\"cabin\":\"Y\",\"stop\":true},\
                    {\"to\":\"CAC\",\"carrier\":\"Q1\",\"day\":\"2025-04-02\",\"cabin\":\"Y\",\"stop\":true},\
                    {\"to\":\"CAD\",\"carrier\":\"Q1\",\"day\":\"2025-04-03\",\"cabin\":\"Y\",\"stop\":true},\
                    {\"to\":\"CAE\",\"carrier\":\"Q1\",\"day\":\"2025-04-04\",\"cabin\":\"Y\",\"stop\":true},\
                    {\"to\":\"CAA\",\"carrier\":\"Q1\",\"day\":\"2025-04-05\",\"cabin\":\"Y\",\"stop\":true}]}",
    },
    Source {
        name: "a rule less than sectors",
        tariff: "HEAD,1,1,2025-01-01\nCUR,AA,XAA,1.000000,2,1,U\nCUR,AB,XAB,1.000000,2,1,U\nCITY,CAA,AA,2\n\
                 CITY,CAB,AB,2\nRULE,R0,16,16,0,0,999,Y,*,R1 R2 R3\nRULE,R1,16,16,0,0,999,Y,*,R0 R2 R3\n\
                 RULE,R2,16,16,0,0,999,Y,*,R0 R1 R3\nRULE,R3,16,16,0,0,999,Y,*,R0 R1 R2\n\
                 FARE,CAA,CAB,EH,YY,Y,OW,R0,100.17\nFARE,CAA,CAB,EH,YY,Y,OW,R1,100.72\n\
                 FARE,CAA,CAB,EH,YY,Y,OW,R2,100.97\nFARE,CAA,CAB,EH,YY,Y,OW,R3,100.08\n\
                 FARE,CAB,CAA,EH,YY,Y,OW,R0,100.32\nFARE,CAB,CAA,EH,YY,Y,OW,R1,100.15\n\
                 FARE,CAB,CAA,EH,YY,Y,OW,R2,100.63\nFARE,CAB,CAA,EH,YY,Y,OW,R3,100.97\nEND\n",
        itinerary: "{\"sale\":\"2025-03-01\",\"from\":\"CAA\",\"sectors\":[\
                    {\"to\":\"CAB\",\"carrier\":\"Q1\",\"day\":\"2025-04-01\",\"cabin\":\"Y\",\"stop\":true},\
                    {\"to\":\"CAA\",\"carrier\":\"Q1\",\"day\":\"2025-04-02\",\"cabin\":\"Y\",\"stop\":true},\
                    {\"to\":\"CAB\",\"carrier\":\"Q1\",\"day\":\"2025-04-03\",\"cabin\":\"Y\",\"stop\":true},\
                    {\"to\":\"CAA\",\"carrier\":\"Q1\",\"day\":\"2025-04-04\",\"cabin\":\"Y\",\"stop\":true},\
                    {\"to\":\"CAB\",\"carrier\":\"Q1\",\"day\":\"2025-04-05\",\"cabin\":\"Y\",\"stop\":true}]}",
    },
];
