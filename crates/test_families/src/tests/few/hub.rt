//! A trip out from a hub, back to it and out again.

use crate::tests::sources::Source;

pub static SOURCES: [Source; 1] = [Source {
    name: "a hub and its spokes",
    tariff: "HEAD,1,1,2025-01-01\nCUR,AA,XAA,1.000000,2,1,U\nCITY,CAA,AA,2\nCITY,CAB,AA,2\nCITY,CAC,AA,2\n\
                 RULE,A,16,16,0,0,999,Y,*,*\nFARE,CAA,CAB,EH,YY,Y,OW,,232.75\nFARE,CAA,CAB,EH,YY,Y,OW,A,241.65\n\
                 FARE,CAA,CAB,EH,Q1,Y,OW,,247.35\nFARE,CAA,CAB,EH,Q1,Y,OW,A,246.43\n\
                 FARE,CAA,CAB,EH,YY,Y,HR,,185.64\nFARE,CAA,CAB,EH,YY,Y,HR,A,171.29\n\
                 FARE,CAA,CAB,EH,Q1,Y,HR,,175.22\nFARE,CAA,CAB,EH,Q1,Y,HR,A,172.41\n\
                 FARE,CAA,CAC,EH,YY,Y,OW,,270.14\nFARE,CAA,CAC,EH,YY,Y,OW,A,275.58\n\
                 FARE,CAA,CAC,EH,Q1,Y,OW,,269.20\nFARE,CAA,CAC,EH,Q1,Y,OW,A,269.67\n\
                 FARE,CAA,CAC,EH,YY,Y,HR,,213.34\nFARE,CAA,CAC,EH,YY,Y,HR,A,207.77\n\
                 FARE,CAA,CAC,EH,Q1,Y,HR,,216.15\nFARE,CAA,CAC,EH,Q1,Y,HR,A,204.29\n\
                 FARE,CAB,CAA,EH,YY,Y,OW,,231.92\nFARE,CAB,CAA,EH,YY,Y,OW,A,239.99\n\
                 FARE,CAB,CAA,EH,Q1,Y,OW,,230.58\nFARE,CAB,CAA,EH,Q1,Y,OW,A,248.29\n\
                 FARE,CAB,CAA,EH,YY,Y,HR,,187.11\nFARE,CAB,CAA,EH,YY,Y,HR,A,177.98\n\
                 FARE,CAB,CAA,EH,Q1,Y,HR,,178.86\nFARE,CAB,CAA,EH,Q1,Y,HR,A,182.44\n\
                 FARE,CAB,CAC,EH,YY,Y,OW,,245.61\nFARE,CAB,CAC,EH,YY,Y,OW,A,245.71\n\
                 FARE,CAB,CAC,EH,Q1,Y,OW,,230.04\nFARE,CAB,CAC,EH,Q1,Y,OW,A,244.25\n\
                 FARE,CAB,CAC,EH,YY,Y,HR,,179.12\nFARE,CAB,CAC,EH,YY,Y,HR,A,175.45\n\
                 FARE,CAB,CAC,EH,Q1,Y,HR,,184.77\nFARE,CAB,CAC,EH,Q1,Y,HR,A,186.42\n\
                 FARE,CAC,CAA,EH,YY,Y,OW,,264.68\nFARE,CAC,CAA,EH,YY,Y,OW,A,272.10\n\
                 FARE,CAC,CAA,EH,Q1,Y,OW,,279.35\nFARE,CAC,CAA,EH,Q1,Y,OW,A,262.09\n\
                 FARE,CAC,CAA,EH,YY,Y,HR,,218.46\nFARE,CAC,CAA,EH,YY,Y,HR,A,206.50\n\
                 FARE,CAC,CAA,EH,Q1,Y,HR,,200.62\nFARE,CAC,CAA,EH,Q1,Y,HR,A,200.45\n\
                 FARE,CAC,CAB,EH,YY,Y,OW,,230.52\nFARE,CAC,CAB,EH,YY,Y,OW,A,243.30\n\
                 FARE,CAC,CAB,EH,Q1,Y,OW,,241.08\nFARE,CAC,CAB,EH,Q1,Y,OW,A,230.18\n\
                 FARE,CAC,CAB,EH,YY,Y,HR,,189.23\nFARE,CAC,CAB,EH,YY,Y,HR,A,188.04\n\
                 FARE,CAC,CAB,EH,Q1,Y,HR,,177.80\nFARE,CAC,CAB,EH,Q1,Y,HR,A,184.05\nEND\n",
    itinerary: "{\"sale\":\"2025-03-01\",\"from\":\"CAA\",\"sectors\":[\
                    {\"to\":\"CAB\",\"carrier\":\"Q1\",\"day\":\"2025-04-01\",\"cabin\":\"Y\",\"stop\":true},\
                    {\"to\":\"CAA\",\"carrier\":\"Q1\",\"day\":\"2025-04-01\",\"cabin\":\"Y\",\"stop\":true},\
                    {\"to\":\"CAC\",\"carrier\":\"Q1\",\"day\":\"2025-04-01\",\"cabin\":\"Y\",\"stop\":true}]}",
}];
