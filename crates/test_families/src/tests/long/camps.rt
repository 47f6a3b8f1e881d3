//! A trip by two camps of rules that don't combine.

use crate::tests::sources::LongSource;

pub static SOURCES: [LongSource; 1] = [LongSource {
    name: "two camps of rules that don't combine",
    tariff: "HEAD,1,1,2025-01-01\nCUR,AA,XAA,1.000000,2,1,U\nCUR,AB,XAB,1.000000,2,1,U\n\
                 CUR,AC,XAC,1.000000,2,1,U\nCUR,AD,XAD,1.000000,2,1,U\nCUR,AE,XAE,1.000000,2,1,U\n\
                 CUR,AF,XAF,1.000000,2,1,U\nCUR,AG,XAG,1.000000,2,1,U\nCUR,AH,XAH,1.000000,2,1,U\n\
                 CUR,AI,XAI,1.000000,2,1,U\nCUR,AJ,XAJ,1.000000,2,1,U\nCUR,AK,XAK,1.000000,2,1,U\n\
                 CUR,AL,XAL,1.000000,2,1,U\nCUR,AM,XAM,1.000000,2,1,U\nCUR,AN,XAN,1.000000,2,1,U\n\
                 CUR,AO,XAO,1.000000,2,1,U\nCUR,AP,XAP,1.000000,2,1,U\nCUR,AQ,XAQ,1.000000,2,1,U\nCITY,CAA,AA,2\n\
                 CITY,CAB,AB,2\nCITY,CAC,AC,2\nCITY,CAD,AD,2\nCITY,CAE,AE,2\nCITY,CAF,AF,2\nCITY,CAG,AG,2\n\
                 CITY,CAH,AH,2\nCITY,CAI,AI,2\nCITY,CAJ,AJ,2\nCITY,CAK,AK,2\nCITY,CAL,AL,2\nCITY,CAM,AM,2\n\
                 CITY,CAN,AN,2\nCITY,CAO,AO,2\nCITY,CAP,AP,2\nCITY,CAQ,AQ,2\n\
                 RULE,A,16,16,0,0,999,Y,*,A N0 N1 D0 D1\nRULE,B,16,16,0,0,999,Y,*,B N0 N1 D0 D1\n\
                 RULE,N0,16,16,0,0,999,Y,*,A B N0 N1 D1\nRULE,D0,16,16,0,0,999,Y,*,A B D0 D1 N1\n\
                 RULE,N1,16,16,0,0,999,Y,*,A B N0 N1 D0\nRULE,D1,16,16,0,0,999,Y,*,A B D0 D1 N0\n\
                 FARE,CAA,CAB,EH,YY,Y,OW,A,50.08\nFARE,CAA,CAB,EH,YY,Y,OW,B,200.36\n\
                 FARE,CAA,CAB,EH,YY,Y,OW,N0,90.48\nFARE,CAA,CAB,EH,YY,Y,OW,N1,90.04\n\
                 FARE,CAB,CAC,EH,YY,Y,OW,A,50.16\nFARE,CAB,CAC,EH,YY,Y,OW,B,200.07\n\
                 FARE,CAB,CAC,EH,YY,Y,OW,N0,90.31\nFARE,CAB,CAC,EH,YY,Y,OW,N1,90.48\n\
                 FARE,CAC,CAD,EH,YY,Y,OW,A,50.28\nFARE,CAC,CAD,EH,YY,Y,OW,B,200.30\n\
                 FARE,CAC,CAD,EH,YY,Y,OW,N0,90.41\nFARE,CAC,CAD,EH,YY,Y,OW,N1,90.24\n\
                 FARE,CAD,CAE,EH,YY,Y,OW,A,50.13\nFARE,CAD,CAE,EH,YY,Y,OW,B,200.06\n\
                 FARE,CAD,CAE,EH,YY,Y,OW,N0,90.31\nFARE,CAD,CAE,EH,YY,Y,OW,N1,90.01\n\
                 FARE,CAE,CAF,EH,YY,Y,OW,A,50.24\nFARE,CAE,CAF,EH,YY,Y,OW,B,200.27\n\
                 FARE,CAE,CAF,EH,YY,Y,OW,N0,90.38\nFARE,CAE,CAF,EH,YY,Y,OW,N1,90.48\n\
                 FARE,CAF,CAG,EH,YY,Y,OW,A,50.49\nFARE,CAF,CAG,EH,YY,Y,OW,B,200.00\n\
                 FARE,CAF,CAG,EH,YY,Y,OW,N0,90.44\nFARE,CAF,CAG,EH,YY,Y,OW,N1,90.28\n\
                 FARE,CAG,CAH,EH,YY,Y,OW,A,50.17\nFARE,CAG,CAH,EH,YY,Y,OW,B,200.46\n\
                 FARE,CAG,CAH,EH,YY,Y,OW,N0,90.14\nFARE,CAG,CAH,EH,YY,Y,OW,N1,90.37\n\
                 FARE,CAH,CAI,EH,YY,Y,OW,A,50.06\nFARE,CAH,CAI,EH,YY,Y,OW,B,200.20\n\
                 FARE,CAH,CAI,EH,YY,Y,OW,N0,90.01\nFARE,CAH,CAI,EH,YY,Y,OW,N1,90.01\n\
                 FARE,CAI,CAJ,EH,YY,Y,OW,A,200.01\nFARE,CAI,CAJ,EH,YY,Y,OW,B,50.41\n\
                 FARE,CAI,CAJ,EH,YY,Y,OW,D0,150.34\nFARE,CAI,CAJ,EH,YY,Y,OW,D1,150.00\n\
                 FARE,CAJ,CAK,EH,YY,Y,OW,A,200.24\nFARE,CAJ,CAK,EH,YY,Y,OW,B,50.43\n\
                 FARE,CAJ,CAK,EH,YY,Y,OW,D0,150.13\nFARE,CAJ,CAK,EH,YY,Y,OW,D1,150.27\n\
                 FARE,CAK,CAL,EH,YY,Y,OW,A,200.46\nFARE,CAK,CAL,EH,YY,Y,OW,B,50.01\n\
                 FARE,CAK,CAL,EH,YY,Y,OW,D0,150.33\nFARE,CAK,CAL,EH,YY,Y,OW,D1,150.14\n\
                 FARE,CAL,CAM,EH,YY,Y,OW,A,200.48\nFARE,CAL,CAM,EH,YY,Y,OW,B,50.28\n\
                 FARE,CAL,CAM,EH,YY,Y,OW,D0,150.31\nFARE,CAL,CAM,EH,YY,Y,OW,D1,150.35\n\
                 FARE,CAM,CAN,EH,YY,Y,OW,A,200.14\nFARE,CAM,CAN,EH,YY,Y,OW,B,50.22\n\
                 FARE,CAM,CAN,EH,YY,Y,OW,D0,150.14\nFARE,CAM,CAN,EH,YY,Y,OW,D1,150.43\n\
                 FARE,CAN,CAO,EH,YY,Y,OW,A,200.14\nFARE,CAN,CAO,EH,YY,Y,OW,B,50.48\n\
                 FARE,CAN,CAO,EH,YY,Y,OW,D0,150.29\nFARE,CAN,CAO,EH,YY,Y,OW,D1,150.18\n\
                 FARE,CAO,CAP,EH,YY,Y,OW,A,200.01\nFARE,CAO,CAP,EH,YY,Y,OW,B,50.26\n\
                 FARE,CAO,CAP,EH,YY,Y,OW,D0,150.35\nFARE,CAO,CAP,EH,YY,Y,OW,D1,150.41\n\
                 FARE,CAP,CAQ,EH,YY,Y,OW,A,200.06\nFARE,CAP,CAQ,EH,YY,Y,OW,B,50.11\n\
                 FARE,CAP,CAQ,EH,YY,Y,OW,D0,150.40\nFARE,CAP,CAQ,EH,YY,Y,OW,D1,150.46\nEND\n",
    itinerary: "{\"sale\":\"2025-03-01\",\"from\":\"CAA\",\"sectors\":[\
                    {\"to\":\"CAB\",\"carrier\":\"Q1\",\"day\":\"2025-04-01\",\"cabin\":\"Y\",\"stop\":true},\
                    {\"to\":\"CAC\",\"carrier\":\"Q1\",\"day\":\"2025-04-02\",\"cabin\":\"Y\",\"stop\":true},\
                    {\"to\":\"CAD\",\"carrier\":\"Q1\",\"day\":\"2025-04-03\",\"cabin\":\"Y\",\"stop\":true},\
                    {\"to\":\"CAE\",\"carrier\":\"Q1\",\"day\":\"2025-04-04\",\"cabin\":\"Y\",\"stop\":true},\
                    {\"to\":\"CAF\",\"carrier\":\"Q1\",\"day\":\"2025-04-05\",\"cabin\":\"Y\",\"stop\":true},\
                    {\"to\":\"CAG\",\"carrier\":\"Q1\",\"day\":\"2025-04-06\",\"cabin\":\"Y\",\"stop\":true},\
                    {\"to\":\"CAH\",\"carrier\":\"Q1\",\"day\":\"2025-04-07\",\"cabin\":\"Y\",\"stop\":true},\
                    {\"to\":\"CAI\",\"carrier\":\"Q1\",\"day\":\"2025-04-08\",\"cabin\":\"Y\",\"stop\":true},\
                    {\"to\":\"CAJ\",\"carrier\":\"Q1\",\"day\":\"2025-04-09\",\"cabin\":\"Y\",\"stop\":true},\
                    {\"to\":\"CAK\",\"carrier\":\"Q1\",\"day\":\"2025-04-10\",\"cabin\":\"Y\",\"stop\":true},\
                    {\"to\":\"CAL\",\"carrier\":\"Q1\",\"day\":\"2025-04-11\",\"cabin\":\"Y\",\"stop\":true},\
                    {\"to\":\"CAM\",\"carrier\":\"Q1\",\"day\":\"2025-04-12\",\"cabin\":\"Y\",\"stop\":true},\
                    {\"to\":\"CAN\",\"carrier\":\"Q1\",\"day\":\"2025-04-13\",\"cabin\":\"Y\",\"stop\":true},\
                    {\"to\":\"CAO\",\"carrier\":\"Q1\",\"day\":\"2025-04-14\",\"cabin\":\"Y\",\"stop\":true},\
                    {\"to\":\"CAP\",\"carrier\":\"Q1\",\"day\":\"2025-04-15\",\"cabin\":\"Y\",\"stop\":true},\
                    {\"to\":\"CAQ\",\"carrier\":\"Q1\",\"day\":\"2025-04-16\",\"cabin\":\"Y\",\"stop\":true}]}",
    price: Some(112_361),
}];
