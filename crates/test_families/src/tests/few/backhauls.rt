//! A trip by one way fares whose backhaul minima rule.

use crate::tests::sources::Source;

pub static SOURCES: [Source; 1] = [Source {
    name: "one way fares whose backhaul minima rule",
    tariff: "HEAD,1,1,2025-01-01\nCUR,AA,XAA,1.000000,2,1,U\nCUR,AB,XAB,1.000000,2,1,U\nCITY,CAA,AA,2\n\
                 CITY,CAB,AB,2\nCITY,CAC,AA,2\nCITY,CAD,AB,2\nRULE,A,16,16,0,0,999,Y,*,*\n\
                 FARE,CAA,CAB,EH,YY,Y,OW,,207.75\nFARE,CAA,CAB,EH,YY,Y,OW,A,216.65\n\
                 FARE,CAA,CAB,EH,Q1,Y,OW,,222.35\nFARE,CAA,CAB,EH,Q1,Y,OW,A,221.43\n\
                 FARE,CAA,CAB,EH,YY,Y,HR,,170.64\nFARE,CAA,CAB,EH,YY,Y,HR,A,156.29\n\
                 FARE,CAA,CAB,EH,Q1,Y,HR,,160.22\nFARE,CAA,CAB,EH,Q1,Y,HR,A,157.41\nMPM,CAA,CAB,EH,9999\n\
                 TPM,CAA,CAB,100\nFARE,CAA,CAC,EH,YY,Y,OW,,620.14\nFARE,CAA,CAC,EH,YY,Y,OW,A,625.58\n\
                 FARE,CAA,CAC,EH,Q1,Y,OW,,619.20\nFARE,CAA,CAC,EH,Q1,Y,OW,A,619.67\n\
                 FARE,CAA,CAC,EH,YY,Y,HR,,173.34\nFARE,CAA,CAC,EH,YY,Y,HR,A,167.77\n\
                 FARE,CAA,CAC,EH,Q1,Y,HR,,176.15\nFARE,CAA,CAC,EH,Q1,Y,HR,A,164.29\nMPM,CAA,CAC,EH,9999\n\
                 TPM,CAA,CAC,200\nFARE,CAA,CAD,EH,YY,Y,OW,,216.92\nFARE,CAA,CAD,EH,YY,Y,OW,A,224.99\n\
                 FARE,CAA,CAD,EH,Q1,Y,OW,,215.58\nFARE,CAA,CAD,EH,Q1,Y,OW,A,233.29\n\
                 FARE,CAA,CAD,EH,YY,Y,HR,,182.11\nFARE,CAA,CAD,EH,YY,Y,HR,A,172.98\n\
                 FARE,CAA,CAD,EH,Q1,Y,HR,,173.86\nFARE,CAA,CAD,EH,Q1,Y,HR,A,177.44\nMPM,CAA,CAD,EH,9999\n\
                 TPM,CAA,CAD,300\nFARE,CAB,CAC,EH,YY,Y,OW,,220.61\nFARE,CAB,CAC,EH,YY,Y,OW,A,220.71\n\
                 FARE,CAB,CAC,EH,Q1,Y,OW,,205.04\nFARE,CAB,CAC,EH,Q1,Y,OW,A,219.25\n\
                 FARE,CAB,CAC,EH,YY,Y,HR,,164.12\nFARE,CAB,CAC,EH,YY,Y,HR,A,160.45\n\
                 FARE,CAB,CAC,EH,Q1,Y,HR,,169.77\nFARE,CAB,CAC,EH,Q1,Y,HR,A,171.42\nMPM,CAB,CAC,EH,9999\n\
                 TPM,CAB,CAC,100\nFARE,CAB,CAD,EH,YY,Y,OW,,614.68\nFARE,CAB,CAD,EH,YY,Y,OW,A,622.10\n\
                 FARE,CAB,CAD,EH,Q1,Y,OW,,629.35\nFARE,CAB,CAD,EH,Q1,Y,OW,A,612.09\n\
                 FARE,CAB,CAD,EH,YY,Y,HR,,178.46\nFARE,CAB,CAD,EH,YY,Y,HR,A,166.50\n\
                 FARE,CAB,CAD,EH,Q1,Y,HR,,160.62\nFARE,CAB,CAD,EH,Q1,Y,HR,A,160.45\nMPM,CAB,CAD,EH,9999\n\
                 TPM,CAB,CAD,200\nFARE,CAC,CAD,EH,YY,Y,OW,,205.52\nFARE,CAC,CAD,EH,YY,Y,OW,A,218.30\n\
                 FARE,CAC,CAD,EH,Q1,Y,OW,,216.08\nFARE,CAC,CAD,EH,Q1,Y,OW,A,205.18\n\
                 FARE,CAC,CAD,EH,YY,Y,HR,,174.23\nFARE,CAC,CAD,EH,YY,Y,HR,A,173.04\n\
                 FARE,CAC,CAD,EH,Q1,Y,HR,,162.80\nFARE,CAC,CAD,EH,Q1,Y,HR,A,169.05\nMPM,CAC,CAD,EH,9999\n\
                 TPM,CAC,CAD,100\nEND\n",
    itinerary: "{\"sale\":\"2025-03-01\",\"from\":\"CAA\",\"sectors\":[\
                    {\"to\":\"CAB\",\"carrier\":\"Q1\",\"day\":\"2025-04-01\",\"cabin\":\"Y\",\"stop\":true},\
                    {\"to\":\"CAC\",\"carrier\":\"Q1\",\"day\":\"2025-04-02\",\"cabin\":\"Y\",\"stop\":true},\
                    {\"to\":\"CAD\",\"carrier\":\"Q1\",\"day\":\"2025-04-03\",\"cabin\":\"Y\",\"stop\":true}]}",
}];
