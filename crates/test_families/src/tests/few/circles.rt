//! Trips whose circle minima rule, and circles.

use crate::tests::sources::Source;

pub static SOURCES: [Source; 6] = [
    Source {
        name: "half round trips whose circle minima rule",
        tariff: "HEAD,1,1,2025-01-01\nCUR,AA,XAA,1.000000,2,1,U\nCUR,AB,XAB,1.000000,2,1,U\nCITY,CAA,AA,2\n\
                 CITY,CAB,AB,2\nFARE,CAA,CAB,EH,Q2,Y,HR,,100.04\nFARE,CAA,CAB,EH,Q1,Y,HR,,60.18\n\
                 FARE,CAA,CAB,EH,Q2,C,HR,,100.02\nFARE,CAA,CAB,EH,Q1,C,HR,,60.08\n\
                 FARE,CAB,CAA,EH,Q1,Y,HR,,100.03\nFARE,CAB,CAA,EH,Q2,Y,HR,,60.15\n\
                 FARE,CAB,CAA,EH,Q1,C,HR,,100.14\nFARE,CAB,CAA,EH,Q2,C,HR,,60.15\nEND\n",
        itinerary: "{\"sale\":\"2025-03-01\",\"from\":\"CAA\",\"sectors\":[\
                    {\"to\":\"CAB\",\"carrier\":\"Q2\",\"day\":\"2025-04-01\",\"cabin\":\"Y\",\"stop\":true},\
                    {\"to\":\"CAA\",\"carrier\":\"Q1\",\"day\":\"2025-04-02\",\"cabin\":\"Y\",\"stop\":true},\
                    {\"to\":\"CAB\",\"carrier\":\"Q2\",\"day\":\"2025-04-03\",\"cabin\":\"Y\",\"stop\":true},\
                    {\"to\":\"CAA\",\"carrier\":\"Q1\",\"day\":\"2025-04-04\",\"cabin\":\"Y\",\"stop\":true},\
                    {\"to\":\"CAB\",\"carrier\":\"Q2\",\"day\":\"2025-04-05\",\"cabin\":\"Y\",\"stop\":true}]}",
    },
    Source {
        name: "a circle dearer than two one way fares",
        tariff: "HEAD,1,1,2025-01-01\nCUR,AA,XAA,1.000000,2,1,U\nCUR,AB,XAB,1.000000,2,1,U\n\
                 CUR,AC,XAC,1.000000,2,1,U\nCUR,AD,XAD,1.000000,2,1,U\nCUR,AE,XAE,1.000000,2,1,U\nCITY,CAA,AA,2\n\
                 CITY,CAB,AB,2\nCITY,CAC,AC,2\nCITY,CAD,AD,2\nCITY,CAE,AE,2\nFARE,CAA,CAB,EH,YY,Y,HR,,10.08\n\
                 FARE,CAA,CAB,EH,Q1,Y,HR,,10.36\nTPM,CAA,CAB,100\nFARE,CAB,CAC,EH,YY,Y,HR,,10.48\n\
                 FARE,CAB,CAC,EH,Q1,Y,HR,,10.04\nTPM,CAB,CAC,100\nFARE,CAC,CAD,EH,YY,Y,HR,,10.16\n\
                 FARE,CAC,CAD,EH,Q1,Y,HR,,10.07\nTPM,CAC,CAD,100\nFARE,CAD,CAE,EH,YY,Y,HR,,10.31\n\
                 FARE,CAD,CAE,EH,Q1,Y,HR,,10.48\nTPM,CAD,CAE,100\nFARE,CAA,CAE,EH,YY,Y,HR,,10.28\n\
                 FARE,CAA,CAE,EH,Q1,Y,HR,,10.30\nTPM,CAE,CAA,100\nFARE,CAA,CAD,EH,YY,Y,HR,,300.00\n\
                 FARE,CAA,CAD,EH,Q1,Y,HR,,300.00\nFARE,CAA,CAC,EH,YY,Y,OW,,110.00\n\
                 FARE,CAC,CAA,EH,YY,Y,OW,,165.00\nMPM,CAA,CAC,EH,9999\nEND\n",
        itinerary: "{\"sale\":\"2025-03-01\",\"from\":\"CAA\",\"sectors\":[\
                    {\"to\":\"CAB\",\"carrier\":\"Q1\",\"day\":\"2025-04-01\",\"cabin\":\"Y\",\"stop\":true},\
                    {\"to\":\"CAC\",\"carrier\":\"Q1\",\"day\":\"2025-04-02\",\"cabin\":\"Y\",\"stop\":true},\
                    {\"to\":\"CAD\",\"carrier\":\"Q1\",\"day\":\"2025-04-03\",\"cabin\":\"Y\",\"stop\":true},\
                    {\"to\":\"CAE\",\"carrier\":\"Q1\",\"day\":\"2025-04-04\",\"cabin\":\"Y\",\"stop\":true},\
                    {\"to\":\"CAA\",\"carrier\":\"Q1\",\"day\":\"2025-04-05\",\"cabin\":\"Y\",\"stop\":true}]}",
    },
    Source {
        name: "the same circle without them",
        tariff: "HEAD,1,1,2025-01-01\nCUR,AA,XAA,1.000000,2,1,U\nCUR,AB,XAB,1.000000,2,1,U\n\
                 CUR,AC,XAC,1.000000,2,1,U\nCUR,AD,XAD,1.000000,2,1,U\nCUR,AE,XAE,1.000000,2,1,U\nCITY,CAA,AA,2\n\
                 CITY,CAB,AB,2\nCITY,CAC,AC,2\nCITY,CAD,AD,2\nCITY,CAE,AE,2\nFARE,CAA,CAB,EH,YY,Y,HR,,10.08\n\
                 FARE,CAA,CAB,EH,Q1,Y,HR,,10.36\nTPM,CAA,CAB,100\nFARE,CAB,CAC,EH,YY,Y,HR,,10.48\n\
                 FARE,CAB,CAC,EH,Q1,Y,HR,,10.04\nTPM,CAB,CAC,100\nFARE,CAC,CAD,EH,YY,Y,HR,,10.16\n\
                 FARE,CAC,CAD,EH,Q1,Y,HR,,10.07\nTPM,CAC,CAD,100\nFARE,CAD,CAE,EH,YY,Y,HR,,10.31\n\
                 FARE,CAD,CAE,EH,Q1,Y,HR,,10.48\nTPM,CAD,CAE,100\nFARE,CAA,CAE,EH,YY,Y,HR,,10.28\n\
                 FARE,CAA,CAE,EH,Q1,Y,HR,,10.30\nTPM,CAE,CAA,100\nFARE,CAA,CAD,EH,YY,Y,HR,,300.00\n\
                 FARE,CAA,CAD,EH,Q1,Y,HR,,300.00\nMPM,CAA,CAC,EH,9999\nEND\n",
        itinerary: "{\"sale\":\"2025-03-01\",\"from\":\"CAA\",\"sectors\":[\
                    {\"to\":\"CAB\",\"carrier\":\"Q1\",\"day\":\"2025-04-01\",\"cabin\":\"Y\",\"stop\":true},\
                    {\"to\":\"CAC\",\"carrier\":\"Q1\",\"day\":\"2025-04-02\",\"cabin\":\"Y\",\"stop\":true},\
                    {\"to\":\"CAD\",\"carrier\":\"Q1\",\"day\":\"2025-04-03\",\"cabin\":\"Y\",\"stop\":true},\
                    {\"to\":\"CAE\",\"carrier\":\"Q1\",\"day\":\"2025-04-04\",\"cabin\":\"Y\",\"stop\":true},\
                    {\"to\":\"CAA\",\"carrier\":\"Q1\",\"day\":\"2025-04-05\",\"cabin\":\"Y\",\"stop\":true}]}",
    },
    Source {
        name: "a circle one sector of which has one way fares alone",
        tariff: "HEAD,1,1,2025-01-01\nCUR,AA,XAA,1.000000,2,1,U\nCUR,AB,XAB,1.000000,2,1,U\n\
                 CUR,AC,XAC,1.000000,2,1,U\nCUR,AD,XAD,1.000000,2,1,U\nCUR,AE,XAE,1.000000,2,1,U\nCITY,CAA,AA,2\n\
                 CITY,CAB,AB,2\nCITY,CAC,AC,2\nCITY,CAD,AD,2\nCITY,CAE,AE,2\nFARE,CAA,CAB,EH,YY,Y,OW,,100.08\n\
                 FARE,CAA,CAB,EH,Q1,Y,OW,,100.36\nFARE,CAA,CAB,EH,YY,Y,HR,,10.48\nFARE,CAA,CAB,EH,Q1,Y,HR,,10.04\n\
                 FARE,CAB,CAC,EH,YY,Y,OW,,100.16\nFARE,CAB,CAC,EH,Q1,Y,OW,,100.07\n\
                 FARE,CAB,CAC,EH,YY,Y,HR,,10.31\nFARE,CAB,CAC,EH,Q1,Y,HR,,10.48\nFARE,CAC,CAD,EH,YY,Y,OW,,100.28\n\
                 FARE,CAC,CAD,EH,Q1,Y,OW,,100.30\nFARE,CAD,CAE,EH,YY,Y,OW,,100.41\n\
                 FARE,CAD,CAE,EH,Q1,Y,OW,,100.24\nFARE,CAD,CAE,EH,YY,Y,HR,,10.13\nFARE,CAD,CAE,EH,Q1,Y,HR,,10.06\n\
                 FARE,CAE,CAA,EH,YY,Y,OW,,100.31\nFARE,CAE,CAA,EH,Q1,Y,OW,,100.01\n\
                 FARE,CAA,CAE,EH,YY,Y,HR,,10.24\nFARE,CAA,CAE,EH,Q1,Y,HR,,10.27\nEND\n",
        itinerary: "{\"sale\":\"2025-03-01\",\"from\":\"CAA\",\"sectors\":[\
                    {\"to\":\"CAB\",\"carrier\":\"Q1\",\"day\":\"2025-04-01\",\"cabin\":\"Y\",\"stop\":true},\
                    {\"to\":\"CAC\",\"carrier\":\"Q1\",\"day\":\"2025-04-02\",\"cabin\":\"Y\",\"stop\":true},\
                    {\"to\":\"CAD\",\"carrier\":\"Q1\",\"day\":\"2025-04-03\",\"cabin\":\"Y\",\"stop\":true},\
                    {\"to\":\"CAE\",\"carrier\":\"Q1\",\"day\":\"2025-04-04\",\"cabin\":\"Y\",\"stop\":true},\
                    {\"to\":\"CAA\",\"carrier\":\"Q1\",\"day\":\"2025-04-05\",\"cabin\":\"Y\",\"stop\":true}]}",
    },
    Source {
        name: "a circle with cheap fares whose reference is dear",
        tariff: "HEAD,1,1,2025-01-01\nCUR,AA,XAA,1.000000,2,1,U\nCUR,AB,XAB,1.000000,2,1,U\n\
                 CUR,AC,XAC,1.000000,2,1,U\nCUR,AD,XAD,1.000000,2,1,U\nCUR,AE,XAE,1.000000,2,1,U\nCITY,CAA,AA,2\n\
                 CITY,CAB,AB,2\nCITY,CAC,AC,2\nCITY,CAD,AD,2\nCITY,CAE,AE,2\nRULE,R0,16,16,0,0,999,Y,*,*\n\
                 RULE,R1,16,16,0,0,999,Y,*,*\nRULE,R2,16,16,0,0,999,Y,*,*\nFARE,CAA,CAB,EH,YY,Y,HR,R0,100.34\n\
                 FARE,CAA,CAB,EH,YY,Y,HR,R1,101.45\nFARE,CAA,CAB,EH,YY,Y,HR,R2,61.95\n\
                 FARE,CAB,CAC,EH,YY,Y,HR,R0,100.16\nFARE,CAB,CAC,EH,YY,Y,HR,R1,100.65\n\
                 FARE,CAB,CAC,EH,YY,Y,HR,R2,60.30\nFARE,CAC,CAD,EH,YY,Y,HR,R0,101.26\n\
                 FARE,CAC,CAD,EH,YY,Y,HR,R1,101.94\nFARE,CAC,CAD,EH,YY,Y,HR,R2,61.15\n\
                 FARE,CAD,CAE,EH,YY,Y,HR,R0,101.20\nFARE,CAD,CAE,EH,YY,Y,HR,R1,101.66\n\
                 FARE,CAD,CAE,EH,YY,Y,HR,R2,60.97\nFARE,CAA,CAE,EH,YY,Y,HR,R0,100.53\n\
                 FARE,CAA,CAE,EH,YY,Y,HR,R1,100.24\nFARE,CAA,CAE,EH,YY,Y,HR,R2,61.24\n\
                 FARE,CAA,CAC,EH,YY,Y,HR,R2,300.00\nFARE,CAA,CAD,EH,YY,Y,HR,R2,300.00\nEND\n",
        itinerary: "{\"sale\":\"2025-03-01\",\"from\":\"CAA\",\"sectors\":[\
                    {\"to\":\"CAB\",\"carrier\":\"Q1\",\"day\":\"2025-04-01\",\"cabin\":\"Y\",\"stop\":true},\
                    {\"to\":\"CAC\",\"carrier\":\"Q1\",\"day\":\"2025-04-02\",\"cabin\":\"Y\",\"stop\":true},\
                    {\"to\":\"CAD\",\"carrier\":\"Q1\",\"day\":\"2025-04-03\",\"cabin\":\"Y\",\"stop\":true},\
                    {\"to\":\"CAE\",\"carrier\":\"Q1\",\"day\":\"2025-04-04\",\"cabin\":\"Y\",\"stop\":true},\
                    {\"to\":\"CAA\",\"carrier\":\"Q1\",\"day\":\"2025-04-05\",\"cabin\":\"Y\",\"stop\":true}]}",
    },
    Source {
        name: "two circles with such fares",
        tariff: "HEAD,1,1,2025-01-01\nCUR,AA,XAA,1.000000,2,1,U\nCUR,AB,XAB,1.000000,2,1,U\n\
                 CUR,AC,XAC,1.000000,2,1,U\nCUR,AD,XAD,1.000000,2,1,U\nCUR,AE,XAE,1.000000,2,1,U\nCITY,CAA,AA,2\n\
                 CITY,CAB,AB,2\nCITY,CAC,AC,2\nCITY,CAD,AD,2\nCITY,CAE,AE,2\nRULE,R0,16,16,0,0,999,Y,*,*\n\
                 RULE,R1,16,16,0,0,999,Y,*,*\nFARE,CAA,CAB,EH,YY,Y,HR,R0,100.34\n\
                 FARE,CAA,CAB,EH,YY,Y,HR,R1,61.45\nFARE,CAB,CAC,EH,YY,Y,HR,R0,101.95\n\
                 FARE,CAB,CAC,EH,YY,Y,HR,R1,60.16\nFARE,CAA,CAC,EH,YY,Y,HR,R0,100.65\n\
                 FARE,CAA,CAC,EH,YY,Y,HR,R1,60.30\nFARE,CAA,CAD,EH,YY,Y,HR,R0,101.26\n\
                 FARE,CAA,CAD,EH,YY,Y,HR,R1,61.94\nFARE,CAD,CAE,EH,YY,Y,HR,R0,101.15\n\
                 FARE,CAD,CAE,EH,YY,Y,HR,R1,61.20\nFARE,CAA,CAE,EH,YY,Y,HR,R0,101.66\n\
                 FARE,CAA,CAE,EH,YY,Y,HR,R1,60.97\nEND\n",
        itinerary: "{\"sale\":\"2025-03-01\",\"from\":\"CAA\",\"sectors\":[\
                    {\"to\":\"CAB\",\"carrier\":\"Q1\",\"day\":\"2025-04-01\",\"cabin\":\"Y\",\"stop\":true},\
                    {\"to\":\"CAC\",\"carrier\":\"Q1\",\"day\":\"2025-04-02\",\"cabin\":\"Y\",\"stop\":true},\
                    {\"to\":\"CAA\",\"carrier\":\"Q1\",\"day\":\"2025-04-03\",\"cabin\":\"Y\",\"stop\":true},\
                    {\"to\":\"CAD\",\"carrier\":\"Q1\",\"day\":\"2025-04-04\",\"cabin\":\"Y\",\"stop\":true},\
                    {\"to\":\"CAE\",\"carrier\":\"Q1\",\"day\":\"2025-04-05\",\"cabin\":\"Y\",\"stop\":true},\
                    {\"to\":\"CAA\",\"carrier\":\"Q1\",\"day\":\"2025-04-06\",\"cabin\":\"Y\",\"stop\":true}]}",
    },
];
