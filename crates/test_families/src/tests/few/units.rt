//! Trips whose rules bar what would be the cheapest units.

use crate::tests::sources::Source;

pub static SOURCES: [Source; 7] = [
    Source {
        name: "rules that combine in a unit by two and never by three",
        tariff: "HEAD,1,1,2025-01-01\nCUR,AA,XAA,1.000000,2,1,U\nCUR,AB,XAB,1.000000,2,1,U\n\
                 CUR,AC,XAC,1.000000,2,1,U\nCITY,CAA,AA,2\nCITY,CAB,AB,2\nCITY,CAC,AC,2\n\
                 RULE,A0,16,16,0,0,999,Y,B0 B1,*\nRULE,A1,16,16,0,0,999,Y,B0 B1,*\n\
                 RULE,B0,16,16,0,0,999,Y,A0 A1,*\nRULE,B1,16,16,0,0,999,Y,A0 A1,*\n\
                 FARE,CAA,CAB,EH,YY,Y,HR,A0,50.08\nFARE,CAA,CAB,EH,YY,Y,HR,A1,50.36\n\
                 FARE,CAA,CAB,EH,YY,Y,HR,B0,50.48\nFARE,CAA,CAB,EH,YY,Y,HR,B1,50.04\n\
                 FARE,CAA,CAB,EH,YY,Y,OW,,100.16\nFARE,CAA,CAB,EH,Q1,Y,OW,,100.07\n\
                 FARE,CAB,CAC,EH,YY,Y,HR,A0,50.31\nFARE,CAB,CAC,EH,YY,Y,HR,A1,50.48\n\
                 FARE,CAB,CAC,EH,YY,Y,HR,B0,50.28\nFARE,CAB,CAC,EH,YY,Y,HR,B1,50.30\n\
                 FARE,CAB,CAC,EH,YY,Y,OW,,100.41\nFARE,CAB,CAC,EH,Q1,Y,OW,,100.24\n\
                 FARE,CAA,CAC,EH,YY,Y,HR,A0,50.13\nFARE,CAA,CAC,EH,YY,Y,HR,A1,50.06\n\
                 FARE,CAA,CAC,EH,YY,Y,HR,B0,50.31\nFARE,CAA,CAC,EH,YY,Y,HR,B1,50.01\n\
                 FARE,CAA,CAC,EH,YY,Y,OW,,100.24\nFARE,CAA,CAC,EH,Q1,Y,OW,,100.27\n\
                 FARE,CAB,CAA,EH,YY,Y,HR,A0,50.38\nFARE,CAB,CAA,EH,YY,Y,HR,A1,50.48\n\
                 FARE,CAB,CAA,EH,YY,Y,HR,B0,50.49\nFARE,CAB,CAA,EH,YY,Y,HR,B1,50.00\n\
                 FARE,CAB,CAA,EH,YY,Y,OW,,100.44\nFARE,CAB,CAA,EH,Q1,Y,OW,,100.28\n\
                 FARE,CAC,CAB,EH,YY,Y,HR,A0,50.17\nFARE,CAC,CAB,EH,YY,Y,HR,A1,50.46\n\
                 FARE,CAC,CAB,EH,YY,Y,HR,B0,50.14\nFARE,CAC,CAB,EH,YY,Y,HR,B1,50.37\n\
                 FARE,CAC,CAB,EH,YY,Y,OW,,100.06\nFARE,CAC,CAB,EH,Q1,Y,OW,,100.20\n\
                 FARE,CAC,CAA,EH,YY,Y,HR,A0,50.01\nFARE,CAC,CAA,EH,YY,Y,HR,A1,50.01\n\
                 FARE,CAC,CAA,EH,YY,Y,HR,B0,50.01\nFARE,CAC,CAA,EH,YY,Y,HR,B1,50.41\n\
                 FARE,CAC,CAA,EH,YY,Y,OW,,100.34\nFARE,CAC,CAA,EH,Q1,Y,OW,,100.00\nEND\n",
        itinerary: "{\"sale\":\"2025-03-01\",\"from\":\"CAA\",\"sectors\":[\
                    {\"to\":\"CAB\",\"carrier\":\"Q1\",\"day\":\"2025-04-01\",\"cabin\":\"Y\",\"stop\":true},\
                    {\"to\":\"CAC\",\"carrier\":\"Q1\",\"day\":\"2025-04-02\",\"cabin\":\"Y\",\"stop\":true},\
                    {\"to\":\"CAA\",\"carrier\":\"Q1\",\"day\":\"2025-04-03\",\"cabin\":\"Y\",\"stop\":true}]}",
    },
    Source {
        name: "the same without one way fares",
        tariff: "HEAD,1,1,2025-01-01\nCUR,AA,XAA,1.000000,2,1,U\nCUR,AB,XAB,1.000000,2,1,U\n\
                 CUR,AC,XAC,1.000000,2,1,U\nCITY,CAA,AA,2\nCITY,CAB,AB,2\nCITY,CAC,AC,2\n\
                 RULE,A0,16,16,0,0,999,Y,B0 B1,*\nRULE,A1,16,16,0,0,999,Y,B0 B1,*\n\
                 RULE,B0,16,16,0,0,999,Y,A0 A1,*\nRULE,B1,16,16,0,0,999,Y,A0 A1,*\n\
                 FARE,CAA,CAB,EH,YY,Y,HR,A0,50.08\nFARE,CAA,CAB,EH,YY,Y,HR,A1,50.36\n\
                 FARE,CAA,CAB,EH,YY,Y,HR,B0,50.48\nFARE,CAA,CAB,EH,YY,Y,HR,B1,50.04\n\
                 FARE,CAB,CAC,EH,YY,Y,HR,A0,50.16\nFARE,CAB,CAC,EH,YY,Y,HR,A1,50.07\n\
                 FARE,CAB,CAC,EH,YY,Y,HR,B0,50.31\nFARE,CAB,CAC,EH,YY,Y,HR,B1,50.48\n\
                 FARE,CAA,CAC,EH,YY,Y,HR,A0,50.28\nFARE,CAA,CAC,EH,YY,Y,HR,A1,50.30\n\
                 FARE,CAA,CAC,EH,YY,Y,HR,B0,50.41\nFARE,CAA,CAC,EH,YY,Y,HR,B1,50.24\n\
                 FARE,CAB,CAA,EH,YY,Y,HR,A0,50.13\nFARE,CAB,CAA,EH,YY,Y,HR,A1,50.06\n\
                 FARE,CAB,CAA,EH,YY,Y,HR,B0,50.31\nFARE,CAB,CAA,EH,YY,Y,HR,B1,50.01\n\
                 FARE,CAC,CAB,EH,YY,Y,HR,A0,50.24\nFARE,CAC,CAB,EH,YY,Y,HR,A1,50.27\n\
                 FARE,CAC,CAB,EH,YY,Y,HR,B0,50.38\nFARE,CAC,CAB,EH,YY,Y,HR,B1,50.48\n\
                 FARE,CAC,CAA,EH,YY,Y,HR,A0,50.49\nFARE,CAC,CAA,EH,YY,Y,HR,A1,50.00\n\
                 FARE,CAC,CAA,EH,YY,Y,HR,B0,50.44\nFARE,CAC,CAA,EH,YY,Y,HR,B1,50.28\nEND\n",
        itinerary: "{\"sale\":\"2025-03-01\",\"from\":\"CAA\",\"sectors\":[\
                    {\"to\":\"CAB\",\"carrier\":\"Q1\",\"day\":\"2025-04-01\",\"cabin\":\"Y\",\"stop\":true},\
                    {\"to\":\"CAC\",\"carrier\":\"Q1\",\"day\":\"2025-04-02\",\"cabin\":\"Y\",\"stop\":true},\
                    {\"to\":\"CAA\",\"carrier\":\"Q1\",\"day\":\"2025-04-03\",\"cabin\":\"Y\",\"stop\":true}]}",
    },
    Source {
        name: "half round trips whose least stay no close pair meets",
        tariff: "HEAD,1,1,2025-01-01\nCUR,AA,XAA,1.000000,2,1,U\nCUR,AB,XAB,1.000000,2,1,U\nCITY,CAA,AA,2\n\
                 CITY,CAB,AB,2\nRULE,S0,16,16,0,5,999,Y,*,*\nRULE,S1,16,16,0,5,999,Y,*,*\n\
                 FARE,CAA,CAB,EH,YY,Y,HR,S0,100.08\nFARE,CAA,CAB,EH,YY,Y,HR,S1,100.36\n\
                 FARE,CAA,CAB,EH,YY,Y,OW,,150.00\nFARE,CAB,CAA,EH,YY,Y,HR,S0,100.48\n\
                 FARE,CAB,CAA,EH,YY,Y,HR,S1,100.04\nFARE,CAB,CAA,EH,YY,Y,OW,,150.00\nEND\n",
        itinerary: "{\"sale\":\"2025-03-01\",\"from\":\"CAA\",\"sectors\":[\
                    {\"to\":\"CAB\",\"carrier\":\"Q1\",\"day\":\"2025-04-01\",\"cabin\":\"Y\",\"stop\":true},\
                    {\"to\":\"CAA\",\"carrier\":\"Q1\",\"day\":\"2025-04-02\",\"cabin\":\"Y\",\"stop\":true},\
                    {\"to\":\"CAB\",\"carrier\":\"Q1\",\"day\":\"2025-04-03\",\"cabin\":\"Y\",\"stop\":true},\
                    {\"to\":\"CAA\",\"carrier\":\"Q1\",\"day\":\"2025-04-04\",\"cabin\":\"Y\",\"stop\":true},\
                    {\"to\":\"CAB\",\"carrier\":\"Q1\",\"day\":\"2025-04-05\",\"cabin\":\"Y\",\"stop\":true}]}",
    },
    Source {
        name: "rules that combine with nothing in a unit",
        tariff: "HEAD,1,1,2025-01-01\nCUR,AA,XAA,1.000000,2,1,U\nCUR,AB,XAB,1.000000,2,1,U\nCITY,CAA,AA,2\n\
                 CITY,CAB,AB,2\nRULE,N0,16,16,0,0,999,Y,,*\nRULE,N1,16,16,0,0,999,Y,,*\n\
                 FARE,CAA,CAB,EH,YY,Y,HR,N0,100.08\nFARE,CAA,CAB,EH,YY,Y,HR,N1,100.36\n\
                 FARE,CAB,CAA,EH,YY,Y,HR,N0,100.48\nFARE,CAB,CAA,EH,YY,Y,HR,N1,100.04\nEND\n",
        itinerary: "{\"sale\":\"2025-03-01\",\"from\":\"CAA\",\"sectors\":[\
                    {\"to\":\"CAB\",\"carrier\":\"Q1\",\"day\":\"2025-04-01\",\"cabin\":\"Y\",\"stop\":true},\
                    {\"to\":\"CAA\",\"carrier\":\"Q1\",\"day\":\"2025-04-02\",\"cabin\":\"Y\",\"stop\":true},\
                    {\"to\":\"CAB\",\"carrier\":\"Q1\",\"day\":\"2025-04-03\",\"cabin\":\"Y\",\"stop\":true},\
                    {\"to\":\"CAA\",\"carrier\":\"Q1\",\"day\":\"2025-04-04\",\"cabin\":\"Y\",\"stop\":true},\
                    {\"to\":\"CAB\",\"carrier\":\"Q1\",\"day\":\"2025-04-05\",\"cabin\":\"Y\",\"stop\":true}]}",
    },
    Source {
        name: "a cheap half round trip that its stay refuses",
        tariff: "HEAD,1,1,2025-01-01\nCUR,AA,XAA,1.000000,2,1,U\nCUR,AB,XAB,1.000000,2,1,U\n\
                 CUR,AC,XAC,1.000000,2,1,U\nCUR,AD,XAD,1.000000,2,1,U\nCUR,AE,XAE,1.000000,2,1,U\nCITY,CAA,AA,2\n\
                 CITY,CAB,AB,2\nCITY,CAC,AC,2\nCITY,CAD,AD,2\nCITY,CAE,AE,2\nRULE,LONG,16,16,0,900,999,Y,*,*\n\
                 FARE,CAA,CAB,EH,YY,Y,OW,,100.04\nFARE,CAA,CAB,EH,Q1,Y,OW,,100.18\n\
                 FARE,CAB,CAC,EH,YY,Y,OW,,100.02\nFARE,CAB,CAC,EH,Q1,Y,OW,,100.08\n\
                 FARE,CAC,CAD,EH,YY,Y,OW,,100.03\nFARE,CAC,CAD,EH,Q1,Y,OW,,100.15\n\
                 FARE,CAD,CAE,EH,YY,Y,HR,LONG,50.00\nFARE,CAD,CAE,EH,YY,Y,OW,,100.00\n\
                 FARE,CAE,CAD,EH,YY,Y,OW,,100.00\nEND\n",
        itinerary: "{\"sale\":\"2025-03-01\",\"from\":\"CAA\",\"sectors\":[\
                    {\"to\":\"CAB\",\"carrier\":\"Q1\",\"day\":\"2025-04-01\",\"cabin\":\"Y\",\"stop\":true},\
                    {\"to\":\"CAC\",\"carrier\":\"Q1\",\"day\":\"2025-04-02\",\"cabin\":\"Y\",\"stop\":true},\
                    {\"to\":\"CAD\",\"carrier\":\"Q1\",\"day\":\"2025-04-03\",\"cabin\":\"Y\",\"stop\":true},\
                    {\"to\":\"CAE\",\"carrier\":\"Q1\",\"day\":\"2025-04-04\",\"cabin\":\"Y\",\"stop\":true},\
                    {\"to\":\"CAD\",\"carrier\":\"Q1\",\"day\":\"2025-04-05\",\"cabin\":\"Y\",\"stop\":true}]}",
    },
    Source {
        name: "one that its rule refuses",
        tariff: "HEAD,1,1,2025-01-01\nCUR,AA,XAA,1.000000,2,1,U\nCUR,AB,XAB,1.000000,2,1,U\n\
                 CUR,AC,XAC,1.000000,2,1,U\nCUR,AD,XAD,1.000000,2,1,U\nCUR,AE,XAE,1.000000,2,1,U\nCITY,CAA,AA,2\n\
                 CITY,CAB,AB,2\nCITY,CAC,AC,2\nCITY,CAD,AD,2\nCITY,CAE,AE,2\nRULE,LONG,16,16,0,0,999,Y,-,*\n\
                 FARE,CAA,CAB,EH,YY,Y,OW,,100.04\nFARE,CAA,CAB,EH,Q1,Y,OW,,100.18\n\
                 FARE,CAB,CAC,EH,YY,Y,OW,,100.02\nFARE,CAB,CAC,EH,Q1,Y,OW,,100.08\n\
                 FARE,CAC,CAD,EH,YY,Y,OW,,100.03\nFARE,CAC,CAD,EH,Q1,Y,OW,,100.15\n\
                 FARE,CAD,CAE,EH,YY,Y,HR,LONG,50.00\nFARE,CAD,CAE,EH,YY,Y,OW,,100.00\n\
                 FARE,CAE,CAD,EH,YY,Y,OW,,100.00\nEND\n",
        itinerary: "{\"sale\":\"2025-03-01\",\"from\":\"CAA\",\"sectors\":[\
                    {\"to\":\"CAB\",\"carrier\":\"Q1\",\"day\":\"2025-04-01\",\"cabin\":\"Y\",\"stop\":true},\
                    {\"to\":\"CAC\",\"carrier\":\"Q1\",\"day\":\"2025-04-02\",\"cabin\":\"Y\",\"stop\":true},\
                    {\"to\":\"CAD\",\"carrier\":\"Q1\",\"day\":\"2025-04-03\",\"cabin\":\"Y\",\"stop\":true},\
                    {\"to\":\"CAE\",\"carrier\":\"Q1\",\"day\":\"2025-04-04\",\"cabin\":\"Y\",\"stop\":true},\
                    {\"to\":\"CAD\",\"carrier\":\"Q1\",\"day\":\"2025-04-05\",\"cabin\":\"Y\",\"stop\":true}]}",
    },
    Source {
        name: "the same with nothing in its place",
        tariff: "HEAD,1,1,2025-01-01\nCUR,AA,XAA,1.000000,2,1,U\nCUR,AB,XAB,1.000000,2,1,U\n\
                 CUR,AC,XAC,1.000000,2,1,U\nCUR,AD,XAD,1.000000,2,1,U\nCUR,AE,XAE,1.000000,2,1,U\nCITY,CAA,AA,2\n\
                 CITY,CAB,AB,2\nCITY,CAC,AC,2\nCITY,CAD,AD,2\nCITY,CAE,AE,2\nRULE,LONG,16,16,0,900,999,Y,*,*\n\
                 FARE,CAA,CAB,EH,YY,Y,OW,,100.04\nFARE,CAA,CAB,EH,Q1,Y,OW,,100.18\n\
                 FARE,CAB,CAC,EH,YY,Y,OW,,100.02\nFARE,CAB,CAC,EH,Q1,Y,OW,,100.08\n\
                 FARE,CAC,CAD,EH,YY,Y,OW,,100.03\nFARE,CAC,CAD,EH,Q1,Y,OW,,100.15\n\
                 FARE,CAD,CAE,EH,YY,Y,HR,LONG,50.00\nEND\n",
        itinerary: "{\"sale\":\"2025-03-01\",\"from\":\"CAA\",\"sectors\":[\
                    {\"to\":\"CAB\",\"carrier\":\"Q1\",\"day\":\"2025-04-01\",\"cabin\":\"Y\",\"stop\":true},\
                    {\"to\":\"CAC\",\"carrier\":\"Q1\",\"day\":\"2025-04-02\",\"cabin\":\"Y\",\"stop\":true},\
                    {\"to\":\"CAD\",\"carrier\":\"Q1\",\"day\":\"2025-04-03\",\"cabin\":\"Y\",\"stop\":true},\
                    {\"to\":\"CAE\",\"carrier\":\"Q1\",\"day\":\"2025-04-04\",\"cabin\":\"Y\",\"stop\":true},\
                    {\"to\":\"CAD\",\"carrier\":\"Q1\",\"day\":\"2025-04-05\",\"cabin\":\"Y\",\"stop\":true}]}",
    },
];
