//! A circle one sector of which has one way fares alone.

use crate::tests::sources::LongSource;

pub static SOURCES: [LongSource; 1] = [LongSource {
    name: "a circle one sector of which has one way fares alone",
    tariff: "HEAD,1,1,2025-01-01\nCUR,AA,XAA,1.000000,2,1,U\nCUR,AB,XAB,1.000000,2,1,U\n\
                 CUR,AC,XAC,1.000000,2,1,U\nCUR,AD,XAD,1.000000,2,1,U\nCUR,AE,XAE,1.000000,2,1,U\n\
                 CUR,AF,XAF,1.000000,2,1,U\nCUR,AG,XAG,1.000000,2,1,U\nCUR,AH,XAH,1.000000,2,1,U\n\
                 CUR,AI,XAI,1.000000,2,1,U\nCUR,AJ,XAJ,1.000000,2,1,U\nCUR,AK,XAK,1.000000,2,1,U\n\
                 CUR,AL,XAL,1.000000,2,1,U\nCUR,AM,XAM,1.000000,2,1,U\nCUR,AN,XAN,1.000000,2,1,U\n\
                 CUR,AO,XAO,1.000000,2,1,U\nCUR,AP,XAP,1.000000,2,1,U\nCITY,CAA,AA,2\nCITY,CAB,AB,2\nCITY,CAC,AC,2\n\
                 CITY,CAD,AD,2\nCITY,CAE,AE,2\nCITY,CAF,AF,2\nCITY,CAG,AG,2\nCITY,CAH,AH,2\nCITY,CAI,AI,2\n\
                 CITY,CAJ,AJ,2\nCITY,CAK,AK,2\nCITY,CAL,AL,2\nCITY,CAM,AM,2\nCITY,CAN,AN,2\nCITY,CAO,AO,2\n\
                 CITY,CAP,AP,2\nFARE,CAA,CAB,EH,YY,Y,OW,,100.08\nFARE,CAA,CAB,EH,Q1,Y,OW,,100.36\n\
                 FARE,CAA,CAB,EH,YY,Y,HR,,10.48\nFARE,CAA,CAB,EH,Q1,Y,HR,,10.04\nFARE,CAB,CAC,EH,YY,Y,OW,,100.16\n\
                 FARE,CAB,CAC,EH,Q1,Y,OW,,100.07\nFARE,CAB,CAC,EH,YY,Y,HR,,10.31\nFARE,CAB,CAC,EH,Q1,Y,HR,,10.48\n\
                 FARE,CAC,CAD,EH,YY,Y,OW,,100.28\nFARE,CAC,CAD,EH,Q1,Y,OW,,100.30\n\
                 FARE,CAC,CAD,EH,YY,Y,HR,,10.41\nFARE,CAC,CAD,EH,Q1,Y,HR,,10.24\nFARE,CAD,CAE,EH,YY,Y,OW,,100.13\n\
                 FARE,CAD,CAE,EH,Q1,Y,OW,,100.06\nFARE,CAD,CAE,EH,YY,Y,HR,,10.31\nFARE,CAD,CAE,EH,Q1,Y,HR,,10.01\n\
                 FARE,CAE,CAF,EH,YY,Y,OW,,100.24\nFARE,CAE,CAF,EH,Q1,Y,OW,,100.27\n\
                 FARE,CAE,CAF,EH,YY,Y,HR,,10.38\nFARE,CAE,CAF,EH,Q1,Y,HR,,10.48\nFARE,CAF,CAG,EH,YY,Y,OW,,100.49\n\
                 FARE,CAF,CAG,EH,Q1,Y,OW,,100.00\nFARE,CAF,CAG,EH,YY,Y,HR,,10.44\nFARE,CAF,CAG,EH,Q1,Y,HR,,10.28\n\
                 FARE,CAG,CAH,EH,YY,Y,OW,,100.17\nFARE,CAG,CAH,EH,Q1,Y,OW,,100.46\n\
                 FARE,CAG,CAH,EH,YY,Y,HR,,10.14\nFARE,CAG,CAH,EH,Q1,Y,HR,,10.37\nFARE,CAH,CAI,EH,YY,Y,OW,,100.06\n\
                 FARE,CAH,CAI,EH,Q1,Y,OW,,100.20\nFARE,CAH,CAI,EH,YY,Y,HR,,10.01\nFARE,CAH,CAI,EH,Q1,Y,HR,,10.01\n\
                 FARE,CAI,CAJ,EH,YY,Y,OW,,100.01\nFARE,CAI,CAJ,EH,Q1,Y,OW,,100.41\n\
                 FARE,CAJ,CAK,EH,YY,Y,OW,,100.34\nFARE,CAJ,CAK,EH,Q1,Y,OW,,100.00\n\
                 FARE,CAJ,CAK,EH,YY,Y,HR,,10.24\nFARE,CAJ,CAK,EH,Q1,Y,HR,,10.43\nFARE,CAK,CAL,EH,YY,Y,OW,,100.13\n\
                 FARE,CAK,CAL,EH,Q1,Y,OW,,100.27\nFARE,CAK,CAL,EH,YY,Y,HR,,10.46\nFARE,CAK,CAL,EH,Q1,Y,HR,,10.01\n\
                 FARE,CAL,CAM,EH,YY,Y,OW,,100.33\nFARE,CAL,CAM,EH,Q1,Y,OW,,100.14\n\
                 FARE,CAL,CAM,EH,YY,Y,HR,,10.48\nFARE,CAL,CAM,EH,Q1,Y,HR,,10.28\nFARE,CAM,CAN,EH,YY,Y,OW,,100.31\n\
                 FARE,CAM,CAN,EH,Q1,Y,OW,,100.35\nFARE,CAM,CAN,EH,YY,Y,HR,,10.14\nFARE,CAM,CAN,EH,Q1,Y,HR,,10.22\n\
                 FARE,CAN,CAO,EH,YY,Y,OW,,100.14\nFARE,CAN,CAO,EH,Q1,Y,OW,,100.43\n\
                 FARE,CAN,CAO,EH,YY,Y,HR,,10.14\nFARE,CAN,CAO,EH,Q1,Y,HR,,10.48\nFARE,CAO,CAP,EH,YY,Y,OW,,100.29\n\
                 FARE,CAO,CAP,EH,Q1,Y,OW,,100.18\nFARE,CAO,CAP,EH,YY,Y,HR,,10.01\nFARE,CAO,CAP,EH,Q1,Y,HR,,10.26\n\
                 FARE,CAP,CAA,EH,YY,Y,OW,,100.35\nFARE,CAP,CAA,EH,Q1,Y,OW,,100.41\n\
                 FARE,CAA,CAP,EH,YY,Y,HR,,10.06\nFARE,CAA,CAP,EH,Q1,Y,HR,,10.11\nEND\n",
    itinerary: "{\"sale\":\"2025-03-01\",\"from\":\"CAA\",\"sectors\":[\
                    {\"to\":\"CAB\",\"carrier\":\"Q1\",\"day\":\"2025-04-01\",\"cabin\":\"Y\",\"stop\":true},\
                    {\"to\":\"CAC\",\"carrier\":\"Q1\",\"day\":\"2025-04-02\",\"cabin\":\"Y\",\"stop\":true},\
                    {\"to\":\"CAD\",\"carrier\":\"Q1\",\"day\":\"2025-04-03\",\"cabin\":\"Y\",\"stop\":true},\
                    {\"to\":\"CAE\",\"carrier\":\"Q1\",\"day\":\"2025-04-04\",\"cabin\":\"Y\",\"stop\":true},\
                    {\"to\":\"CAF\",\"carrier\":\"Q1\",\"day\":\"2025-04-05\",\"cabin\":\"Y\",\"stop\":true},\
                    {\"to\":\"CAG\",\"carrier\":\"Q1\",\"day\":\"2025-04-06\",\"cabin\":\"Y\",\"stop\":true},\
                    {\"to\":\"CAH\",\"carrier\":\"Q1\",\"day\":\"2025-04-07\",\"cabin\":\"Y\",\"stop\":true},\
                    {\"to\":\"CAI\",\"carrier\":\"Q1\",\"day\":\"2025-04-08\",\"cabin\":\"Y\",\"stop\":true},\
                    {\"to\":\"CAJ\",\"carrier\":\"Q1\",\"day\":\"2025-04-09\",\"cabin\":\"Y\",\"stop\":true},\
                    {\"to\":\"CAK\",\"carrier\":\"Q1\",\"day\":\"2025-04-10\",\"cabin\":\"Y\",\"stop\":true},\
                    {\"to\":\"CAL\",\"carrier\":\"Q1\",\"day\":\"2025-04-11\",\"cabin\":\"Y\",\"stop\":true},\
                    {\"to\":\"CAM\",\"carrier\":\"Q1\",\"day\":\"2025-04-12\",\"cabin\":\"Y\",\"stop\":true},\
                    {\"to\":\"CAN\",\"carrier\":\"Q1\",\"day\":\"2025-04-13\",\"cabin\":\"Y\",\"stop\":true},\
                    {\"to\":\"CAO\",\"carrier\":\"Q1\",\"day\":\"2025-04-14\",\"cabin\":\"Y\",\"stop\":true},\
                    {\"to\":\"CAP\",\"carrier\":\"Q1\",\"day\":\"2025-04-15\",\"cabin\":\"Y\",\"stop\":true},\
                    {\"to\":\"CAA\",\"carrier\":\"Q1\",\"day\":\"2025-04-16\",\"cabin\":\"Y\",\"stop\":true}]}",
    price: Some(160_222),
}];
