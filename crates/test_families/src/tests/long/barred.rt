//! Trips at whose end a cheap half round trip is barred.

use crate::tests::sources::LongSource;

pub static SOURCES: [LongSource; 2] = [
    LongSource {
        name: "a cheap half round trip that its stay refuses",
        tariff: "HEAD,1,1,2025-01-01\nCUR,AA,XAA,1.000000,2,1,U\nCUR,AB,XAB,1.000000,2,1,U\n\
                 CUR,AC,XAC,1.000000,2,1,U\nCUR,AD,XAD,1.000000,2,1,U\nCUR,AE,XAE,1.000000,2,1,U\n\
                 CUR,AF,XAF,1.000000,2,1,U\nCUR,AG,XAG,1.000000,2,1,U\nCUR,AH,XAH,1.000000,2,1,U\n\
                 CUR,AI,XAI,1.000000,2,1,U\nCUR,AJ,XAJ,1.000000,2,1,U\nCUR,AK,XAK,1.000000,2,1,U\n\
                 CUR,AL,XAL,1.000000,2,1,U\nCUR,AM,XAM,1.000000,2,1,U\nCUR,AN,XAN,1.000000,2,1,U\n\
                 CUR,AO,XAO,1.000000,2,1,U\nCUR,AP,XAP,1.000000,2,1,U\nCITY,CAA,AA,2\nCITY,CAB,AB,2\nCITY,CAC,AC,2\n\
                 CITY,CAD,AD,2\nCITY,CAE,AE,2\nCITY,CAF,AF,2\nCITY,CAG,AG,2\nCITY,CAH,AH,2\nCITY,CAI,AI,2\n\
                 CITY,CAJ,AJ,2\nCITY,CAK,AK,2\nCITY,CAL,AL,2\nCITY,CAM,AM,2\nCITY,CAN,AN,2\nCITY,CAO,AO,2\n\
                 CITY,CAP,AP,2\nRULE,LONG,16,16,0,900,999,Y,*,*\nFARE,CAA,CAB,EH,YY,Y,OW,,100.04\n\
                 FARE,CAA,CAB,EH,Q1,Y,OW,,100.18\nFARE,CAA,CAB,EH,YY,C,OW,,100.02\n\
                 FARE,CAB,CAC,EH,YY,Y,OW,,100.08\nFARE,CAB,CAC,EH,Q1,Y,OW,,100.03\n\
                 FARE,CAB,CAC,EH,YY,C,OW,,100.15\nFARE,CAC,CAD,EH,YY,Y,OW,,100.14\n\
                 FARE,CAC,CAD,EH,Q1,Y,OW,,100.15\nFARE,CAC,CAD,EH,YY,C,OW,,100.12\n\
                 FARE,CAD,CAE,EH,YY,Y,OW,,100.06\nFARE,CAD,CAE,EH,Q1,Y,OW,,100.03\n\
                 FARE,CAD,CAE,EH,YY,C,OW,,100.15\nFARE,CAE,CAF,EH,YY,Y,OW,,100.00\n\
                 FARE,CAE,CAF,EH,Q1,Y,OW,,100.12\nFARE,CAE,CAF,EH,YY,C,OW,,100.13\n\
                 FARE,CAF,CAG,EH,YY,Y,OW,,100.19\nFARE,CAF,CAG,EH,Q1,Y,OW,,100.00\n\
                 FARE,CAF,CAG,EH,YY,C,OW,,100.14\nFARE,CAG,CAH,EH,YY,Y,OW,,100.08\n\
                 FARE,CAG,CAH,EH,Q1,Y,OW,,100.07\nFARE,CAG,CAH,EH,YY,C,OW,,100.18\n\
                 FARE,CAH,CAI,EH,YY,Y,OW,,100.03\nFARE,CAH,CAI,EH,Q1,Y,OW,,100.10\n\
                 FARE,CAH,CAI,EH,YY,C,OW,,100.00\nFARE,CAI,CAJ,EH,YY,Y,OW,,100.00\n\
                 FARE,CAI,CAJ,EH,Q1,Y,OW,,100.00\nFARE,CAI,CAJ,EH,YY,C,OW,,100.17\n\
                 FARE,CAJ,CAK,EH,YY,Y,OW,,100.00\nFARE,CAJ,CAK,EH,Q1,Y,OW,,100.12\n\
                 FARE,CAJ,CAK,EH,YY,C,OW,,100.06\nFARE,CAK,CAL,EH,YY,Y,OW,,100.13\n\
                 FARE,CAK,CAL,EH,Q1,Y,OW,,100.00\nFARE,CAK,CAL,EH,YY,C,OW,,100.16\n\
                 FARE,CAL,CAM,EH,YY,Y,OW,,100.07\nFARE,CAL,CAM,EH,Q1,Y,OW,,100.14\n\
                 FARE,CAL,CAM,EH,YY,C,OW,,100.15\nFARE,CAM,CAN,EH,YY,Y,OW,,100.17\n\
                 FARE,CAM,CAN,EH,Q1,Y,OW,,100.07\nFARE,CAM,CAN,EH,YY,C,OW,,100.11\n\
                 FARE,CAN,CAO,EH,YY,Y,OW,,100.07\nFARE,CAN,CAO,EH,Q1,Y,OW,,100.07\n\
                 FARE,CAN,CAO,EH,YY,C,OW,,100.14\nFARE,CAO,CAP,EH,YY,Y,HR,LONG,50.00\n\
                 FARE,CAO,CAP,EH,YY,Y,OW,,100.00\nFARE,CAP,CAO,EH,YY,Y,OW,,100.00\nEND\n",
        itinerary: "{\"sale\":\"2025-03-01\",\"from\":\"CAA\",\"sectors\":[\
                    {\"to\":\"CAB\",\"carrier\":\"Q1\",\"day\":\"2025-04-01\",\"cabin\":\"Y\",\"stop\":true},\
                    {\"to\":\"CAC\",\"carrier\":\"Q1\",\"day\":\"2025-04-02\",\"cabin\":\"Y\",\"stop\":true},\
                    {\"to\":\"CAD\",\"carrier\":\"Q1\",\"day\":\"2025-04-03\",\"cabin\":\"Y\",\"stop\":true},\
                    {\"to\":\"CAE\",\"carrier\":\"Q1\",\"day\":\"2025-04-04\",\"cabin\":\"Y\",\"stop\":true},\
                    {\"to\":\"CAF\",\"carrier\":\"Q1\",\"day\":\"2025-04-05\",\"cabin\":\"Y\",\"stop\":true},\
                    {\"to\":\"CAG\",\"carrier\":\"Q1\",\"day\":\"2025-04-06\",\"cabin\":\"Y\",\"stop\":true},\
                    {\"to\":\"CAH\",\"carrier\":\"Q1\",\"day\":\"2025-04-07\",\"cabin\":\"Y\",\"stop\":true},\
                    {\"to\":\"CAI\",\"carrier\":\"Q1\",\"day\":\"2025-04-08\",\"cabin\":\"Y\",\"stop\":true},\
                    {\"to\":\"CAJ\",\"carrier\":\"Q1\",\"day\":\"2025-04-09\",\"cabin\":\"Y\",\"stop\":true},\
                    {\"to\":\"CAK\",\"carrier\":\"Q1\",\"day\":\"2025-04-10\",\"cabin\":\"Y\",\"stop\":true},\
                    {\"to\":\"CAL\",\"carrier\":\"Q1\",\"day\":\"2025-04-11\",\"cabin\":\"Y\",\"stop\":true},\
                    {\"to\":\"CAM\",\"carrier\":\"Q1\",\"day\":\"2025-04-12\",\"cabin\":\"Y\",\"stop\":true},\
                    {\"to\":\"CAN\",\"carrier\":\"Q1\",\"day\":\"2025-04-13\",\"cabin\":\"Y\",\"stop\":true},\
                    {\"to\":\"CAO\",\"carrier\":\"Q1\",\"day\":\"2025-04-14\",\"cabin\":\"Y\",\"stop\":true},\
                    {\"to\":\"CAP\",\"carrier\":\"Q1\",\"day\":\"2025-04-15\",\"cabin\":\"Y\",\"stop\":true},\
                    {\"to\":\"CAO\",\"carrier\":\"Q1\",\"day\":\"2025-04-16\",\"cabin\":\"Y\",\"stop\":true}]}",
        price: Some(160_048),
    },
    LongSource {
        name: "the same with nothing in its place",
        tariff: "HEAD,1,1,2025-01-01\nCUR,AA,XAA,1.000000,2,1,U\nCUR,AB,XAB,1.000000,2,1,U\n\
                 CUR,AC,XAC,1.000000,2,1,U\nCUR,AD,XAD,1.000000,2,1,U\nCUR,AE,XAE,1.000000,2,1,U\n\
                 CUR,AF,XAF,1.000000,2,1,U\nCUR,AG,XAG,1.000000,2,1,U\nCUR,AH,XAH,1.000000,2,1,U\n\
                 CUR,AI,XAI,1.000000,2,1,U\nCUR,AJ,XAJ,1.000000,2,1,U\nCUR,AK,XAK,1.000000,2,1,U\n\
                 CUR,AL,XAL,1.000000,2,1,U\nCUR,AM,XAM,1.000000,2,1,U\nCUR,AN,XAN,1.000000,2,1,U\n\
                 CUR,AO,XAO,1.000000,2,1,U\nCUR,AP,XAP,1.000000,2,1,U\nCITY,CAA,AA,2\nCITY,CAB,AB,2\nCITY,CAC,AC,2\n\
                 CITY,CAD,AD,2\nCITY,CAE,AE,2\nCITY,CAF,AF,2\nCITY,CAG,AG,2\nCITY,CAH,AH,2\nCITY,CAI,AI,2\n\
                 CITY,CAJ,AJ,2\nCITY,CAK,AK,2\nCITY,CAL,AL,2\nCITY,CAM,AM,2\nCITY,CAN,AN,2\nCITY,CAO,AO,2\n\
                 CITY,CAP,AP,2\nRULE,LONG,16,16,0,900,999,Y,*,*\nFARE,CAA,CAB,EH,YY,Y,OW,,100.04\n\
                 FARE,CAA,CAB,EH,Q1,Y,OW,,100.18\nFARE,CAA,CAB,EH,YY,C,OW,,100.02\n\
                 FARE,CAB,CAC,EH,YY,Y,OW,,100.08\nFARE,CAB,CAC,EH,Q1,Y,OW,,100.03\n\
                 FARE,CAB,CAC,EH,YY,C,OW,,100.15\nFARE,CAC,CAD,EH,YY,Y,OW,,100.14\n\
                 FARE,CAC,CAD,EH,Q1,Y,OW,,100.15\nFARE,CAC,CAD,EH,YY,C,OW,,100.12\n\
                 FARE,CAD,CAE,EH,YY,Y,OW,,100.06\nFARE,CAD,CAE,EH,Q1,Y,OW,,100.03\n\
                 FARE,CAD,CAE,EH,YY,C,OW,,100.15\nFARE,CAE,CAF,EH,YY,Y,OW,,100.00\n\
                 FARE,CAE,CAF,EH,Q1,Y,OW,,100.12\nFARE,CAE,CAF,EH,YY,C,OW,,100.13\n\
                 FARE,CAF,CAG,EH,YY,Y,OW,,100.19\nFARE,CAF,CAG,EH,Q1,Y,OW,,100.00\n\
                 FARE,CAF,CAG,EH,YY,C,OW,,100.14\nFARE,CAG,CAH,EH,YY,Y,OW,,100.08\n\
                 FARE,CAG,CAH,EH,Q1,Y,OW,,100.07\nFARE,CAG,CAH,EH,YY,C,OW,,100.18\n\
                 FARE,CAH,CAI,EH,YY,Y,OW,,100.03\nFARE,CAH,CAI,EH,Q1,Y,OW,,100.10\n\
                 FARE,CAH,CAI,EH,YY,C,OW,,100.00\nFARE,CAI,CAJ,EH,YY,Y,OW,,100.00\n\
                 FARE,CAI,CAJ,EH,Q1,Y,OW,,100.00\nFARE,CAI,CAJ,EH,YY,C,OW,,100.17\n\
                 FARE,CAJ,CAK,EH,YY,Y,OW,,100.00\nFARE,CAJ,CAK,EH,Q1,Y,OW,,100.12\n\
                 FARE,CAJ,CAK,EH,YY,C,OW,,100.06\nFARE,CAK,CAL,EH,YY,Y,OW,,100.13\n\
                 FARE,CAK,CAL,EH,Q1,Y,OW,,100.00\nFARE,CAK,CAL,EH,YY,C,OW,,100.16\n\
                 FARE,CAL,CAM,EH,YY,Y,OW,,100.07\nFARE,CAL,CAM,EH,Q1,Y,OW,,100.14\n\
                 FARE,CAL,CAM,EH,YY,C,OW,,100.15\nFARE,CAM,CAN,EH,YY,Y,OW,,100.17\n\
                 FARE,CAM,CAN,EH,Q1,Y,OW,,100.07\nFARE,CAM,CAN,EH,YY,C,OW,,100.11\n\
                 FARE,CAN,CAO,EH,YY,Y,OW,,100.07\nFARE,CAN,CAO,EH,Q1,Y,OW,,100.07\n\
                 FARE,CAN,CAO,EH,YY,C,OW,,100.14\nFARE,CAO,CAP,EH,YY,Y,HR,LONG,50.00\nEND\n",
        itinerary: "{\"sale\":\"2025-03-01\",\"from\":\"CAA\",\"sectors\":[\
                    {\"to\":\"CAB\",\"carrier\":\"Q1\",\"day\":\"2025-04-01\",\"cabin\":\"Y\",\"stop\":true},\
                    {\"to\":\"CAC\",\"carrier\":\"Q1\",\"day\":\"2025-04-02\",\"cabin\":\"Y\",\"stop\":true},\
                    {\"to\":\"CAD\",\"carrier\":\"Q1\",\"day\":\"2025-04-03\",\"cabin\":\"Y\",\"stop\":true},\
                    {\"to\":\"CAE\",\"carrier\":\"Q1\",\"day\":\"2025-04-04\",\"cabin\":\"Y\",\"stop\":true},\
                    {\"to\":\"CAF\",\"carrier\":\"Q1\",\"day\":\"2025-04-05\",\"cabin\":\"Y\",\"stop\":true},\
                    {\"to\":\"CAG\",\"carrier\":\"Q1\",\"day\":\"2025-04-06\",\"cabin\":\"Y\",\"stop\":true},\
                    {\"to\":\"CAH\",\"carrier\":\"Q1\",\"day\":\"2025-04-07\",\"cabin\":\"Y\",\"stop\":true},\
                    {\"to\":\"CAI\",\"carrier\":\"Q1\",\"day\":\"2025-04-08\",\"cabin\":\"Y\",\"stop\":true},\
                    {\"to\":\"CAJ\",\"carrier\":\"Q1\",\"day\":\"2025-04-09\",\"cabin\":\"Y\",\"stop\":true},\
                    {\"to\":\"CAK\",\"carrier\":\"Q1\",\"day\":\"2025-04-10\",\"cabin\":\"Y\",\"stop\":true},\
                    {\"to\":\"CAL\",\"carrier\":\"Q1\",\"day\":\"2025-04-11\",\"cabin\":\"Y\",\"stop\":true},\
                    {\"to\":\"CAM\",\"carrier\":\"Q1\",\"day\":\"2025-04-12\",\"cabin\":\"Y\",\"stop\":true},\
                    {\"to\":\"CAN\",\"carrier\":\"Q1\",\"day\":\"2025-04-13\",\"cabin\":\"Y\",\"stop\":true},\
                    {\"to\":\"CAO\",\"carrier\":\"Q1\",\"day\":\"2025-04-14\",\"cabin\":\"Y\",\"stop\":true},\
                    {\"to\":\"CAP\",\"carrier\":\"Q1\",\"day\":\"2025-04-15\",\"cabin\":\"Y\",\"stop\":true},\
                    {\"to\":\"CAO\",\"carrier\":\"Q1\",\"day\":\"2025-04-16\",\"cabin\":\"Y\",\"stop\":true}]}",
        price: None,
    },
];
