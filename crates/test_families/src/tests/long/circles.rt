//! Trips whose circle minima rule, and circles.

use crate::tests::sources::LongSource;

pub static SOURCES: [LongSource; 4] = [
    LongSource {
        name: "half round trips whose circle minima rule",
        tariff: "HEAD,1,1,2025-01-01\nCUR,AA,XAA,1.000000,2,1,U\nCUR,AB,XAB,1.000000,2,1,U\nCITY,CAA,AA,2\n\
                 CITY,CAB,AB,2\nFARE,CAA,CAB,EH,Q2,Y,HR,,100.04\nFARE,CAA,CAB,EH,Q1,Y,HR,,60.18\n\
                 FARE,CAA,CAB,EH,Q2,C,HR,,100.02\nFARE,CAA,CAB,EH,Q1,C,HR,,60.08\n\
                 FARE,CAB,CAA,EH,Q1,Y,HR,,100.03\nFARE,CAB,CAA,EH,Q2,Y,HR,,60.15\n\
                 FARE,CAB,CAA,EH,Q1,C,HR,,100.14\nFARE,CAB,CAA,EH,Q2,C,HR,,60.15\nEND\n",
        itinerary: "{\"sale\":\"2025-03-01\",\"from\":\"CAA\",\"sectors\":[\
                    {\"to\":\"CAB\",\"carrier\":\"Q2\",\"day\":\"2025-04-01\",\"cabin\":\"Y\",\"stop\":true},\
                    {\"to\":\"CAA\",\"carrier\":\"Q1\",\"day\":\"2025-04-02\",\"cabin\":\"Y\",\"stop\":true},\
                    {\"to\":\"CAB\",\"carrier\":\"Q2\",\"day\":\"2025-04-03\",\"cabin\":\"Y\",\"stop\":true},\
                    {\"to\":\"CAA\",\"carrier\":\"Q1\",\"day\":\"2025-04-04\",\"cabin\":\"Y\",\"stop\":true},\
                    {\"to\":\"CAB\",\"carrier\":\"Q2\",\"day\":\"2025-04-05\",\"cabin\":\"Y\",\"stop\":true},\
                    {\"to\":\"CAA\",\"carrier\":\"Q1\",\"day\":\"2025-04-06\",\"cabin\":\"Y\",\"stop\":true},\
                    {\"to\":\"CAB\",\"carrier\":\"Q2\",\"day\":\"2025-04-07\",\"cabin\":\"Y\",\"stop\":true},\
                    {\"to\":\"CAA\",\"carrier\":\"Q1\",\"day\":\"2025-04-08\",\"cabin\":\"Y\",\"stop\":true},\
                    {\"to\":\"CAB\",\"carrier\":\"Q2\",\"day\":\"2025-04-09\",\"cabin\":\"Y\",\"stop\":true},\
                    {\"to\":\"CAA\",\"carrier\":\"Q1\",\"day\":\"2025-04-10\",\"cabin\":\"Y\",\"stop\":true},\
                    {\"to\":\"CAB\",\"carrier\":\"Q2\",\"day\":\"2025-04-11\",\"cabin\":\"Y\",\"stop\":true},\
                    {\"to\":\"CAA\",\"carrier\":\"Q1\",\"day\":\"2025-04-12\",\"cabin\":\"Y\",\"stop\":true},\
                    {\"to\":\"CAB\",\"carrier\":\"Q2\",\"day\":\"2025-04-13\",\"cabin\":\"Y\",\"stop\":true},\
                    {\"to\":\"CAA\",\"carrier\":\"Q1\",\"day\":\"2025-04-14\",\"cabin\":\"Y\",\"stop\":true},\
                    {\"to\":\"CAB\",\"carrier\":\"Q2\",\"day\":\"2025-04-15\",\"cabin\":\"Y\",\"stop\":true},\
                    {\"to\":\"CAA\",\"carrier\":\"Q1\",\"day\":\"2025-04-16\",\"cabin\":\"Y\",\"stop\":true}]}",
        price: Some(160_032),
    },
    LongSource {
        name: "a circle dearer than two one way fares",
        tariff: "HEAD,1,1,2025-01-01\nCUR,AA,XAA,1.000000,2,1,U\nCUR,AB,XAB,1.000000,2,1,U\n\
                 CUR,AC,XAC,1.000000,2,1,U\nCUR,AD,XAD,1.000000,2,1,U\nCUR,AE,XAE,1.000000,2,1,U\n\
                 CUR,AF,XAF,1.000000,2,1,U\nCUR,AG,XAG,1.000000,2,1,U\nCUR,AH,XAH,1.000000,2,1,U\n\
                 CUR,AI,XAI,1.000000,2,1,U\nCUR,AJ,XAJ,1.000000,2,1,U\nCUR,AK,XAK,1.000000,2,1,U\n\
                 CUR,AL,XAL,1.000000,2,1,U\nCUR,AM,XAM,1.000000,2,1,U\nCUR,AN,XAN,1.000000,2,1,U\n\
                 CUR,AO,XAO,1.000000,2,1,U\nCUR,AP,XAP,1.000000,2,1,U\nCITY,CAA,AA,2\nCITY,CAB,AB,2\nCITY,CAC,AC,2\n\
                 CITY,CAD,AD,2\nCITY,CAE,AE,2\nCITY,CAF,AF,2\nCITY,CAG,AG,2\nCITY,CAH,AH,2\nCITY,CAI,AI,2\n\
                 CITY,CAJ,AJ,2\nCITY,CAK,AK,2\nCITY,CAL,AL,2\nCITY,CAM,AM,2\nCITY,CAN,AN,2\nCITY,CAO,AO,2\n\
                 CITY,CAP,AP,2\nFARE,CAA,CAB,EH,YY,Y,HR,,10.08\nFARE,CAA,CAB,EH,Q1,Y,HR,,10.36\nTPM,CAA,CAB,100\n\
                 FARE,CAB,CAC,EH,YY,Y,HR,,10.48\nFARE,CAB,CAC,EH,Q1,Y,HR,,10.04\nTPM,CAB,CAC,100\n\
                 FARE,CAC,CAD,EH,YY,Y,HR,,10.16\nFARE,CAC,CAD,EH,Q1,Y,HR,,10.07\nTPM,CAC,CAD,100\n\
                 FARE,CAD,CAE,EH,YY,Y,HR,,10.31\nFARE,CAD,CAE,EH,Q1,Y,HR,,10.48\nTPM,CAD,CAE,100\n\
                 FARE,CAE,CAF,EH,YY,Y,HR,,10.28\nFARE,CAE,CAF,EH,Q1,Y,HR,,10.30\nTPM,CAE,CAF,100\n\
                 FARE,CAF,CAG,EH,YY,Y,HR,,10.41\nFARE,CAF,CAG,EH,Q1,Y,HR,,10.24\nTPM,CAF,CAG,100\n\
                 FARE,CAG,CAH,EH,YY,Y,HR,,10.13\nFARE,CAG,CAH,EH,Q1,Y,HR,,10.06\nTPM,CAG,CAH,100\n\
                 FARE,CAH,CAI,EH,YY,Y,HR,,10.31\nFARE,CAH,CAI,EH,Q1,Y,HR,,10.01\nTPM,CAH,CAI,100\n\
                 FARE,CAI,CAJ,EH,YY,Y,HR,,10.24\nFARE,CAI,CAJ,EH,Q1,Y,HR,,10.27\nTPM,CAI,CAJ,100\n\
                 FARE,CAJ,CAK,EH,YY,Y,HR,,10.38\nFARE,CAJ,CAK,EH,Q1,Y,HR,,10.48\nTPM,CAJ,CAK,100\n\
                 FARE,CAK,CAL,EH,YY,Y,HR,,10.49\nFARE,CAK,CAL,EH,Q1,Y,HR,,10.00\nTPM,CAK,CAL,100\n\
                 FARE,CAL,CAM,EH,YY,Y,HR,,10.44\nFARE,CAL,CAM,EH,Q1,Y,HR,,10.28\nTPM,CAL,CAM,100\n\
                 FARE,CAM,CAN,EH,YY,Y,HR,,10.17\nFARE,CAM,CAN,EH,Q1,Y,HR,,10.46\nTPM,CAM,CAN,100\n\
                 FARE,CAN,CAO,EH,YY,Y,HR,,10.14\nFARE,CAN,CAO,EH,Q1,Y,HR,,10.37\nTPM,CAN,CAO,100\n\
                 FARE,CAO,CAP,EH,YY,Y,HR,,10.06\nFARE,CAO,CAP,EH,Q1,Y,HR,,10.20\nTPM,CAO,CAP,100\n\
                 FARE,CAA,CAP,EH,YY,Y,HR,,10.01\nFARE,CAA,CAP,EH,Q1,Y,HR,,10.01\nTPM,CAP,CAA,100\n\
                 FARE,CAA,CAO,EH,YY,Y,HR,,960.00\nFARE,CAA,CAO,EH,Q1,Y,HR,,960.00\n\
                 FARE,CAA,CAI,EH,YY,Y,OW,,440.00\nFARE,CAI,CAA,EH,YY,Y,OW,,440.00\nMPM,CAA,CAI,EH,9999\nEND\n",
        itinerary: "{\"sale\":\"2025-03-01\",\"from\":\"CAA\",\"sectors\":[\
                    {\"to\":\"CAB\",\"carrier\":\"Q1\",\"day\":\"2025-04-01\",\"cabin\":\"Y\",\"stop\":true},\
                    {\"to\":\"CAC\",\"carrier\":\"Q1\",\"day\":\"2025-04-02\",\"cabin\":\"Y\",\"stop\":true},\
                    {\"to\":\"CAD\",\"carrier\":\"Q1\",\"day\":\"2025-04-03\",\"cabin\":\"Y\",\"stop\":true},\
                    {\"to\":\"CAE\",\"carrier\":\"Q1\",\"day\":\"2025-04-04\",\"cabin\":\"Y\",\"stop\":true},\
                    {\"to\":\"CAF\",\"carrier\":\"Q1\",\"day\":\"2025-04-05\",\"cabin\":\"Y\",\"stop\":true},\
                    {\"to\":\"CAG\",\"carrier\":\"Q1\",\"day\":\"2025-04-06\",\"cabin\":\"Y\",\"stop\":true},\
                    {\"to\":\"CAH\",\"carrier\":\"Q1\",\"day\":\"2025-04-07\",\"cabin\":\"Y\",\"stop\":true},\
                    {\"to\":\"CAI\",\"carrier\":\"Q1\",\"day\":\"2025-04-08\",\"cabin\":\"Y\",\"stop\":true},\
                    {\"to\":\"CAJ\",\"carrier\":\"Q1\",\"day\":\"2025-04-09\",\"cabin\":\"Y\",\"stop\":true},\
                    {\"to\":\"CAK\",\"carrier\":\"Q1\",\"day\":\"2025-04-10\",\"cabin\":\"Y\",\"stop\":true},\
                    {\"to\":\"CAL\",\"carrier\":\"Q1\",\"day\":\"2025-04-11\",\"cabin\":\"Y\",\"stop\":true},\
                    {\"to\":\"CAM\",\"carrier\":\"Q1\",\"day\":\"2025-04-12\",\"cabin\":\"Y\",\"stop\":true},\
                    {\"to\":\"CAN\",\"carrier\":\"Q1\",\"day\":\"2025-04-13\",\"cabin\":\"Y\",\"stop\":true},\
                    {\"to\":\"CAO\",\"carrier\":\"Q1\",\"day\":\"2025-04-14\",\"cabin\":\"Y\",\"stop\":true},\
                    {\"to\":\"CAP\",\"carrier\":\"Q1\",\"day\":\"2025-04-15\",\"cabin\":\"Y\",\"stop\":true},\
                    {\"to\":\"CAA\",\"carrier\":\"Q1\",\"day\":\"2025-04-16\",\"cabin\":\"Y\",\"stop\":true}]}",
        price: Some(88_000),
    },
    LongSource {
        name: "the same circle without them",
        tariff: "HEAD,1,1,2025-01-01\nCUR,AA,XAA,1.000000,2,1,U\nCUR,AB,XAB,1.000000,2,1,U\n\
                 CUR,AC,XAC,1.000000,2,1,U\nCUR,AD,XAD,1.000000,2,1,U\nCUR,AE,XAE,1.000000,2,1,U\n\
                 CUR,AF,XAF,1.000000,2,1,U\nCUR,AG,XAG,1.000000,2,1,U\nCUR,AH,XAH,1.000000,2,1,U\n\
                 CUR,AI,XAI,1.000000,2,1,U\nCUR,AJ,XAJ,1.000000,2,1,U\nCUR,AK,XAK,1.000000,2,1,U\n\
                 CUR,AL,XAL,1.000000,2,1,U\nCUR,AM,XAM,1.000000,2,1,U\nCUR,AN,XAN,1.000000,2,1,U\n\
                 CUR,AO,XAO,1.000000,2,1,U\nCUR,AP,XAP,1.000000,2,1,U\nCITY,CAA,AA,2\nCITY,CAB,AB,2\nCITY,CAC,AC,2\n\
                 CITY,CAD,AD,2\nCITY,CAE,AE,2\nCITY,CAF,AF,2\nCITY,CAG,AG,2\nCITY,CAH,AH,2\nCITY,CAI,AI,2\n\
                 CITY,CAJ,AJ,2\nCITY,CAK,AK,2\nCITY,CAL,AL,2\nCITY,CAM,AM,2\nCITY,CAN,AN,2\nCITY,CAO,AO,2\n\
                 CITY,CAP,AP,2\nFARE,CAA,CAB,EH,YY,Y,HR,,10.08\nFARE,CAA,CAB,EH,Q1,Y,HR,,10.36\nTPM,CAA,CAB,100\n\
                 FARE,CAB,CAC,EH,YY,Y,HR,,10.48\nFARE,CAB,CAC,EH,Q1,Y,HR,,10.04\nTPM,CAB,CAC,100\n\
                 FARE,CAC,CAD,EH,YY,Y,HR,,10.16\nFARE,CAC,CAD,EH,Q1,Y,HR,,10.07\nTPM,CAC,CAD,100\n\
                 FARE,CAD,CAE,EH,YY,Y,HR,,10.31\nFARE,CAD,CAE,EH,Q1,Y,HR,,10.48\nTPM,CAD,CAE,100\n\
                 FARE,CAE,CAF,EH,YY,Y,HR,,10.28\nFARE,CAE,CAF,EH,Q1,Y,HR,,10.30\nTPM,CAE,CAF,100\n\
                 FARE,CAF,CAG,EH,YY,Y,HR,,10.41\nFARE,CAF,CAG,EH,Q1,Y,HR,,10.24\nTPM,CAF,CAG,100\n\
                 FARE,CAG,CAH,EH,YY,Y,HR,,10.13\nFARE,CAG,CAH,EH,Q1,Y,HR,,10.06\nTPM,CAG,CAH,100\n\
                 FARE,CAH,CAI,EH,YY,Y,HR,,10.31\nFARE,CAH,CAI,EH,Q1,Y,HR,,10.01\nTPM,CAH,CAI,100\n\
                 FARE,CAI,CAJ,EH,YY,Y,HR,,10.24\nFARE,CAI,CAJ,EH,Q1,Y,HR,,10.27\nTPM,CAI,CAJ,100\n\
                 FARE,CAJ,CAK,EH,YY,Y,HR,,10.38\nFARE,CAJ,CAK,EH,Q1,Y,HR,,10.48\nTPM,CAJ,CAK,100\n\
                 FARE,CAK,CAL,EH,YY,Y,HR,,10.49\nFARE,CAK,CAL,EH,Q1,Y,HR,,10.00\nTPM,CAK,CAL,100\n\
                 FARE,CAL,CAM,EH,YY,Y,HR,,10.44\nFARE,CAL,CAM,EH,Q1,Y,HR,,10.28\nTPM,CAL,CAM,100\n\
                 FARE,CAM,CAN,EH,YY,Y,HR,,10.17\nFARE,CAM,CAN,EH,Q1,Y,HR,,10.46\nTPM,CAM,CAN,100\n\
                 FARE,CAN,CAO,EH,YY,Y,HR,,10.14\nFARE,CAN,CAO,EH,Q1,Y,HR,,10.37\nTPM,CAN,CAO,100\n\
                 FARE,CAO,CAP,EH,YY,Y,HR,,10.06\nFARE,CAO,CAP,EH,Q1,Y,HR,,10.20\nTPM,CAO,CAP,100\n\
                 FARE,CAA,CAP,EH,YY,Y,HR,,10.01\nFARE,CAA,CAP,EH,Q1,Y,HR,,10.01\nTPM,CAP,CAA,100\n\
                 FARE,CAA,CAO,EH,YY,Y,HR,,960.00\nFARE,CAA,CAO,EH,Q1,Y,HR,,960.00\nMPM,CAA,CAI,EH,9999\nEND\n",
        itinerary: "{\"sale\":\"2025-03-01\",\"from\":\"CAA\",\"sectors\":[\
                    {\"to\":\"CAB\",\"carrier\":\"Q1\",\"day\":\"2025-04-01\",\"cabin\":\"Y\",\"stop\":true},\
                    {\"to\":\"CAC\",\"carrier\":\"Q1\",\"day\":\"2025-04-02\",\"cabin\":\"Y\",\"stop\":true},\
                    {\"to\":\"CAD\",\"carrier\":\"Q1\",\"day\":\"2025-04-03\",\"cabin\":\"Y\",\"stop\":true},\
                    {\"to\":\"CAE\",\"carrier\":\"Q1\",\"day\":\"2025-04-04\",\"cabin\":\"Y\",\"stop\":true},\
                    {\"to\":\"CAF\",\"carrier\":\"Q1\",\"day\":\"2025-04-05\",\"cabin\":\"Y\",\"stop\":true},\
                    {\"to\":\"CAG\",\"carrier\":\"Q1\",\"day\":\"2025-04-06\",\"cabin\":\"Y\",\"stop\":true},\
                    {\"to\":\"CAH\",\"carrier\":\"Q1\",\"day\":\"2025-04-07\",\"cabin\":\"Y\",\"stop\":true},\
                    {\"to\":\"CAI\",\"carrier\":\"Q1\",\"day\":\"2025-04-08\",\"cabin\":\"Y\",\"stop\":true},\
                    {\"to\":\"CAJ\",\"carrier\":\"Q1\",\"day\":\"2025-04-09\",\"cabin\":\"Y\",\"stop\":true},\
                    {\"to\":\"CAK\",\"carrier\":\"Q1\",\"day\":\"2025-04-10\",\"cabin\":\"Y\",\"stop\":true},\
                    {\"to\":\"CAL\",\"carrier\":\"Q1\",\"day\":\"2025-04-11\",\"cabin\":\"Y\",\"stop\":true},\
                    {\"to\":\"CAM\",\"carrier\":\"Q1\",\"day\":\"2025-04-12\",\"cabin\":\"Y\",\"stop\":true},\
                    {\"to\":\"CAN\",\"carrier\":\"Q1\",\"day\":\"2025-04-13\",\"cabin\":\"Y\",\"stop\":true},\
                    {\"to\":\"CAO\",\"carrier\":\"Q1\",\"day\":\"2025-04-14\",\"cabin\":\"Y\",\"stop\":true},\
                    {\"to\":\"CAP\",\"carrier\":\"Q1\",\"day\":\"2025-04-15\",\"cabin\":\"Y\",\"stop\":true},\
                    {\"to\":\"CAA\",\"carrier\":\"Q1\",\"day\":\"2025-04-16\",\"cabin\":\"Y\",\"stop\":true}]}",
        price: Some(192_000),
    },
    LongSource {
        name: "two circles beside whose like fares a cheap one has a dear reference",
        tariff: "HEAD,1,1,2025-01-01\nCUR,AA,XAA,1.000000,2,1,U\nCUR,AB,XAB,1.000000,2,1,U\n\
                 CUR,AC,XAC,1.000000,2,1,U\nCUR,AD,XAD,1.000000,2,1,U\nCUR,AE,XAE,1.000000,2,1,U\n\
                 CUR,AF,XAF,1.000000,2,1,U\nCUR,AG,XAG,1.000000,2,1,U\nCUR,AH,XAH,1.000000,2,1,U\n\
                 CUR,AI,XAI,1.000000,2,1,U\nCUR,AJ,XAJ,1.000000,2,1,U\nCUR,AK,XAK,1.000000,2,1,U\n\
                 CUR,AL,XAL,1.000000,2,1,U\nCUR,AM,XAM,1.000000,2,1,U\nCUR,AN,XAN,1.000000,2,1,U\n\
                 CUR,AO,XAO,1.000000,2,1,U\nCITY,CAA,AA,2\nCITY,CAB,AB,2\nCITY,CAC,AC,2\n\
                 CITY,CAD,AD,2\nCITY,CAE,AE,2\nCITY,CAF,AF,2\nCITY,CAG,AG,2\nCITY,CAH,AH,2\n\
                 CITY,CAI,AI,2\nCITY,CAJ,AJ,2\nCITY,CAK,AK,2\nCITY,CAL,AL,2\nCITY,CAM,AM,2\n\
                 CITY,CAN,AN,2\nCITY,CAO,AO,2\nRULE,R0,16,16,0,0,999,Y,*,*\n\
                 RULE,R1,16,16,0,0,999,Y,*,*\nRULE,R2,16,16,0,0,999,Y,*,*\n\
                 FARE,CAA,CAB,EH,YY,Y,HR,R0,100.00\nFARE,CAA,CAB,EH,YY,Y,HR,R1,100.01\n\
                 FARE,CAA,CAB,EH,YY,Y,HR,R2,60.00\nFARE,CAB,CAC,EH,YY,Y,HR,R0,100.00\n\
                 FARE,CAB,CAC,EH,YY,Y,HR,R1,100.01\nFARE,CAB,CAC,EH,YY,Y,HR,R2,60.00\n\
                 FARE,CAC,CAD,EH,YY,Y,HR,R0,100.00\nFARE,CAC,CAD,EH,YY,Y,HR,R1,100.01\n\
                 FARE,CAC,CAD,EH,YY,Y,HR,R2,60.00\nFARE,CAD,CAE,EH,YY,Y,HR,R0,100.00\n\
                 FARE,CAD,CAE,EH,YY,Y,HR,R1,100.01\nFARE,CAD,CAE,EH,YY,Y,HR,R2,60.00\n\
                 FARE,CAE,CAF,EH,YY,Y,HR,R0,100.00\nFARE,CAE,CAF,EH,YY,Y,HR,R1,100.01\n\
                 FARE,CAE,CAF,EH,YY,Y,HR,R2,60.00\nFARE,CAF,CAG,EH,YY,Y,HR,R0,100.00\n\
                 FARE,CAF,CAG,EH,YY,Y,HR,R1,100.01\nFARE,CAF,CAG,EH,YY,Y,HR,R2,60.00\n\
                 FARE,CAG,CAH,EH,YY,Y,HR,R0,100.00\nFARE,CAG,CAH,EH,YY,Y,HR,R1,100.01\n\
                 FARE,CAG,CAH,EH,YY,Y,HR,R2,60.00\nFARE,CAA,CAH,EH,YY,Y,HR,R0,100.00\n\
                 FARE,CAA,CAH,EH,YY,Y,HR,R1,100.01\nFARE,CAA,CAH,EH,YY,Y,HR,R2,60.00\n\
                 FARE,CAA,CAC,EH,YY,Y,HR,R2,480.00\nFARE,CAA,CAD,EH,YY,Y,HR,R2,480.00\n\
                 FARE,CAA,CAE,EH,YY,Y,HR,R2,480.00\nFARE,CAA,CAF,EH,YY,Y,HR,R2,480.00\n\
                 FARE,CAA,CAG,EH,YY,Y,HR,R2,480.00\nFARE,CAA,CAI,EH,YY,Y,HR,R0,100.00\n\
                 FARE,CAA,CAI,EH,YY,Y,HR,R1,100.01\nFARE,CAA,CAI,EH,YY,Y,HR,R2,60.00\n\
                 FARE,CAI,CAJ,EH,YY,Y,HR,R0,100.00\nFARE,CAI,CAJ,EH,YY,Y,HR,R1,100.01\n\
                 FARE,CAI,CAJ,EH,YY,Y,HR,R2,60.00\nFARE,CAJ,CAK,EH,YY,Y,HR,R0,100.00\n\
                 FARE,CAJ,CAK,EH,YY,Y,HR,R1,100.01\nFARE,CAJ,CAK,EH,YY,Y,HR,R2,60.00\n\
                 FARE,CAK,CAL,EH,YY,Y,HR,R0,100.00\nFARE,CAK,CAL,EH,YY,Y,HR,R1,100.01\n\
                 FARE,CAK,CAL,EH,YY,Y,HR,R2,60.00\nFARE,CAL,CAM,EH,YY,Y,HR,R0,100.00\n\
                 FARE,CAL,CAM,EH,YY,Y,HR,R1,100.01\nFARE,CAL,CAM,EH,YY,Y,HR,R2,60.00\n\
                 FARE,CAM,CAN,EH,YY,Y,HR,R0,100.00\nFARE,CAM,CAN,EH,YY,Y,HR,R1,100.01\n\
                 FARE,CAM,CAN,EH,YY,Y,HR,R2,60.00\nFARE,CAN,CAO,EH,YY,Y,HR,R0,100.00\n\
                 FARE,CAN,CAO,EH,YY,Y,HR,R1,100.01\nFARE,CAN,CAO,EH,YY,Y,HR,R2,60.00\n\
                 FARE,CAA,CAO,EH,YY,Y,HR,R0,100.00\nFARE,CAA,CAO,EH,YY,Y,HR,R1,100.01\n\
                 FARE,CAA,CAO,EH,YY,Y,HR,R2,60.00\nFARE,CAA,CAJ,EH,YY,Y,HR,R2,480.00\n\
                 FARE,CAA,CAK,EH,YY,Y,HR,R2,480.00\nFARE,CAA,CAL,EH,YY,Y,HR,R2,480.00\n\
                 FARE,CAA,CAM,EH,YY,Y,HR,R2,480.00\nFARE,CAA,CAN,EH,YY,Y,HR,R2,480.00\nEND\n",
        itinerary: "{\"sale\":\"2025-03-01\",\"from\":\"CAA\",\"sectors\":[\
                    {\"to\":\"CAB\",\"carrier\":\"Q1\",\"day\":\"2025-04-01\",\"cabin\":\"Y\",\"stop\":true},\
                    {\"to\":\"CAC\",\"carrier\":\"Q1\",\"day\":\"2025-04-02\",\"cabin\":\"Y\",\"stop\":true},\
                    {\"to\":\"CAD\",\"carrier\":\"Q1\",\"day\":\"2025-04-03\",\"cabin\":\"Y\",\"stop\":true},\
                    {\"to\":\"CAE\",\"carrier\":\"Q1\",\"day\":\"2025-04-04\",\"cabin\":\"Y\",\"stop\":true},\
                    {\"to\":\"CAF\",\"carrier\":\"Q1\",\"day\":\"2025-04-05\",\"cabin\":\"Y\",\"stop\":true},\
                    {\"to\":\"CAG\",\"carrier\":\"Q1\",\"day\":\"2025-04-06\",\"cabin\":\"Y\",\"stop\":true},\
                    {\"to\":\"CAH\",\"carrier\":\"Q1\",\"day\":\"2025-04-07\",\"cabin\":\"Y\",\"stop\":true},\
                    {\"to\":\"CAA\",\"carrier\":\"Q1\",\"day\":\"2025-04-08\",\"cabin\":\"Y\",\"stop\":true},\
                    {\"to\":\"CAI\",\"carrier\":\"Q1\",\"day\":\"2025-04-09\",\"cabin\":\"Y\",\"stop\":true},\
                    {\"to\":\"CAJ\",\"carrier\":\"Q1\",\"day\":\"2025-04-10\",\"cabin\":\"Y\",\"stop\":true},\
                    {\"to\":\"CAK\",\"carrier\":\"Q1\",\"day\":\"2025-04-11\",\"cabin\":\"Y\",\"stop\":true},\
                    {\"to\":\"CAL\",\"carrier\":\"Q1\",\"day\":\"2025-04-12\",\"cabin\":\"Y\",\"stop\":true},\
                    {\"to\":\"CAM\",\"carrier\":\"Q1\",\"day\":\"2025-04-13\",\"cabin\":\"Y\",\"stop\":true},\
                    {\"to\":\"CAN\",\"carrier\":\"Q1\",\"day\":\"2025-04-14\",\"cabin\":\"Y\",\"stop\":true},\
                    {\"to\":\"CAO\",\"carrier\":\"Q1\",\"day\":\"2025-04-15\",\"cabin\":\"Y\",\"stop\":true},\
                    {\"to\":\"CAA\",\"carrier\":\"Q1\",\"day\":\"2025-04-16\",\"cabin\":\"Y\",\"stop\":true}]}",
        price: Some(136_000),
    },
];
