//! Trips whose best construction is known.

use fare_rules::Part;

/// A tariff and an itinerary, with the price and the parts of the best construction.
pub struct Case {
    /// The tariff.
    pub tariff: &'static str,
    /// The itinerary.
    pub itinerary: &'static str,
    /// The price in hundredths.
    pub price: u64,
    /// The parts in the order of travel.
    pub parts: &'static [Part],
}

/// Two constructions of one price, and a circle trip with a minimum.
pub static CASES: [Case; 2] = [
    // The longer first part wins the tie.
    Case {
        tariff: "HEAD,1,1,2025-01-01\n\
                 CUR,GB,GBP,0.750000,0,1,U\nCUR,FR,EUR,0.900000,2,1,N\nCUR,IT,EUR,0.900000,2,1,N\n\
                 CITY,LON,GB,2\nCITY,PAR,FR,2\nCITY,ROM,IT,2\n\
                 FARE,LON,ROM,EH,YY,Y,OW,,400.00\n\
                 TPM,LON,PAR,300\nTPM,PAR,ROM,700\nMPM,LON,ROM,EH,1000\n\
                 FARE,LON,PAR,EH,YY,Y,OW,,150.00\nFARE,PAR,ROM,EH,YY,Y,OW,,250.00\nEND\n",
        itinerary: "{\"sale\":\"2025-03-01\",\"from\":\"LON\",\"sectors\":[\
                    {\"to\":\"PAR\",\"carrier\":\"Q1\",\"day\":\"2025-04-10\",\"cabin\":\"Y\",\"stop\":false},\
                    {\"to\":\"ROM\",\"carrier\":\"Q1\",\"day\":\"2025-04-12\",\"cabin\":\"Y\"}]}",
        price: 40_000,
        parts: &[Part {
            end: 2,
            unit: 1,
            fare: 8,
        }],
    },
    Case {
        tariff: "HEAD,1,7,2025-01-01\n\
                 CUR,GB,GBP,0.750000,0,1,U\nCUR,DE,EUR,0.900000,2,1,N\n\
                 CUR,JP,JPY,110.000000,0,100,U\nCUR,US,USD,1.000000,2,1,N\n\
                 CITY,LON,GB,2\nCITY,FRA,DE,2\nCITY,TYO,JP,3\nCITY,LAX,US,1\nCITY,NYC,US,1\n\
                 RULE,FLEX,5,5,0,3,365,Y,*,*\n\
                 FARE,LON,TYO,EH,YY,Y,HR,FLEX,1200.00\nFARE,LON,TYO,AP,YY,Y,HR,FLEX,1500.00\n\
                 FARE,LON,LAX,PA,YY,Y,HR,FLEX,1300.00\nFARE,LON,NYC,PA,YY,Y,HR,FLEX,1400.00\n\
                 FARE,LON,LAX,AT,YY,Y,HR,FLEX,900.00\nFARE,LON,NYC,AT,YY,Y,HR,FLEX,700.00\n\
                 TPM,LON,FRA,400\nTPM,FRA,TYO,5900\nTPM,TYO,LAX,5450\nTPM,LAX,NYC,2470\n\
                 TPM,NYC,LON,3450\nMPM,LON,TYO,EH,7400\nMPM,LON,TYO,AP,11000\nEND\n",
        itinerary: "{\"sale\":\"2025-03-01\",\"from\":\"LON\",\"sectors\":[\
                    {\"to\":\"FRA\",\"carrier\":\"Q1\",\"day\":\"2025-04-10\",\"cabin\":\"Y\",\"stop\":false},\
                    {\"to\":\"TYO\",\"carrier\":\"Q1\",\"day\":\"2025-04-10\",\"cabin\":\"Y\"},\
                    {\"to\":\"LAX\",\"carrier\":\"Q2\",\"day\":\"2025-04-20\",\"cabin\":\"Y\"},\
                    {\"to\":\"NYC\",\"carrier\":\"Q2\",\"day\":\"2025-04-25\",\"cabin\":\"Y\"},\
                    {\"to\":\"LON\",\"carrier\":\"Q2\",\"day\":\"2025-05-01\",\"cabin\":\"Y\"}]}",
        price: 280_000,
        parts: &[
            Part {
                end: 2,
                unit: 1,
                fare: 12,
            },
            Part {
                end: 5,
                unit: 1,
                fare: 13,
            },
        ],
    },
];

/// A tariff and an itinerary.
pub struct Input {
    /// The tariff.
    pub tariff: &'static str,
    /// The itinerary.
    pub itinerary: &'static str,
}

/// Trips within one country, on which each two parts that are chained lie as an open jaw: from a hub and back again and
/// again, and one with a surface sector.
pub static IN_ONE_COUNTRY: [Input; 2] = [
    Input {
        tariff: "HEAD,1,1,2025-01-01\nCUR,AA,XAA,1.000000,2,1,U\nCITY,CAA,AA,2\nCITY,CAB,AA,2\nCITY,CAC,AA,2\n\
                 CITY,CAD,AA,2\nFARE,CAA,CAB,EH,YY,Y,OW,,200.00\nFARE,CAA,CAB,EH,YY,Y,HR,,140.37\n\
                 FARE,CAB,CAA,EH,YY,Y,OW,,200.74\nFARE,CAB,CAA,EH,YY,Y,HR,,140.11\n\
                 FARE,CAA,CAC,EH,YY,Y,OW,,200.48\nFARE,CAA,CAC,EH,YY,Y,HR,,140.85\n\
                 FARE,CAC,CAA,EH,YY,Y,OW,,200.22\nFARE,CAC,CAA,EH,YY,Y,HR,,140.59\n\
                 FARE,CAA,CAD,EH,YY,Y,OW,,200.96\nFARE,CAA,CAD,EH,YY,Y,HR,,140.33\n\
                 FARE,CAD,CAA,EH,YY,Y,OW,,200.70\nFARE,CAD,CAA,EH,YY,Y,HR,,140.07\nEND\n",
        itinerary: "{\"sale\":\"2025-03-01\",\"from\":\"CAA\",\"sectors\":[\
                    {\"to\":\"CAB\",\"carrier\":\"Q1\",\"day\":\"2025-04-01\",\"cabin\":\"Y\"},\
                    {\"to\":\"CAA\",\"carrier\":\"Q1\",\"day\":\"2025-04-01\",\"cabin\":\"Y\"},\
                    {\"to\":\"CAC\",\"carrier\":\"Q1\",\"day\":\"2025-04-01\",\"cabin\":\"Y\"},\
                    {\"to\":\"CAA\",\"carrier\":\"Q1\",\"day\":\"2025-04-01\",\"cabin\":\"Y\"},\
                    {\"to\":\"CAD\",\"carrier\":\"Q1\",\"day\":\"2025-04-01\",\"cabin\":\"Y\"}]}",
    },
    Input {
        tariff: "HEAD,1,1,2025-01-01\nCUR,AA,XAA,1.000000,2,1,U\nCITY,CAA,AA,2\nCITY,CAB,AA,2\nCITY,CAC,AA,2\n\
                 CITY,CAD,AA,2\nCITY,CAE,AA,2\nCITY,CAF,AA,2\nFARE,CAA,CAB,EH,YY,Y,OW,,200.00\n\
                 FARE,CAA,CAB,EH,YY,Y,HR,,140.37\nFARE,CAB,CAA,EH,YY,Y,OW,,200.74\n\
                 FARE,CAB,CAA,EH,YY,Y,HR,,140.11\nFARE,CAB,CAC,EH,YY,Y,OW,,200.48\n\
                 FARE,CAB,CAC,EH,YY,Y,HR,,140.85\nFARE,CAC,CAB,EH,YY,Y,OW,,200.22\n\
                 FARE,CAC,CAB,EH,YY,Y,HR,,140.59\nFARE,CAD,CAE,EH,YY,Y,OW,,200.96\n\
                 FARE,CAD,CAE,EH,YY,Y,HR,,140.33\nFARE,CAE,CAD,EH,YY,Y,OW,,200.70\n\
                 FARE,CAE,CAD,EH,YY,Y,HR,,140.07\nFARE,CAE,CAF,EH,YY,Y,OW,,200.44\n\
                 FARE,CAE,CAF,EH,YY,Y,HR,,140.81\nFARE,CAF,CAE,EH,YY,Y,OW,,200.18\n\
                 FARE,CAF,CAE,EH,YY,Y,HR,,140.55\nEND\n",
        itinerary: "{\"sale\":\"2025-03-01\",\"from\":\"CAA\",\"sectors\":[\
                    {\"to\":\"CAB\",\"carrier\":\"Q1\",\"day\":\"2025-04-01\",\"cabin\":\"Y\"},\
                    {\"to\":\"CAC\",\"carrier\":\"Q1\",\"day\":\"2025-04-01\",\"cabin\":\"Y\"},\
                    {\"to\":\"CAD\",\"carrier\":\"Q1\",\"day\":\"2025-04-01\",\"cabin\":\"Y\",\"surface\":true},\
                    {\"to\":\"CAE\",\"carrier\":\"Q1\",\"day\":\"2025-04-01\",\"cabin\":\"Y\"},\
                    {\"to\":\"CAF\",\"carrier\":\"Q1\",\"day\":\"2025-04-01\",\"cabin\":\"Y\"}]}",
    },
];
