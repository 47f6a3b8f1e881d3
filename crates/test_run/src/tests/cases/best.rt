//! The first constructions of trips: worked texts, and one of a separate plain program.

use super::Step;
use crate::tests::tariffs::{
    END, MILES, PASSING, PLACES, RULED_FARES, STOPPING, THROUGH, TIED_FARES,
};

/// The first constructions by `price`, and by `quote` in a published edition.
pub static BEST: [Step; 4] = [
    // Two at one price, the one with the longer first part first.
    Step {
        words: &["price", "--best=3"],
        source: &[PASSING, PLACES, THROUGH, MILES, TIED_FARES, END],
        status: 0,
        text: "EDITION 1 2025-01-01\n\
               BEST 1 400.00\n\
               LON Q1 X/PAR Q1 ROM M400.00 YYYOW/1 NUC400.00END ROE0.750000\n\
               BEST 2 400.00\n\
               LON Q1 X/PAR 150.00 YYYOW/1 Q1 ROM 250.00 YYYOW/2 NUC400.00END ROE0.750000\n",
    },
    // Two of more.
    Step {
        words: &["price", "--best=2"],
        source: &[
            "{\"sale\":\"2025-03-11\",\"from\":\"TYO\",\"sectors\":[{\"to\":\"LYS\",\"carrier\":\"7Z\",\
             \"day\":\"2025-03-12\",\"cabin\":\"Y\",\"over\":\"\"},{\"to\":\"LON\",\"carrier\":\"Q1\",\
             \"day\":\"2025-03-19\",\"cabin\":\"Y\",\"stop\":true},{\"to\":\"LYS\",\"carrier\":\"7Z\",\
             \"day\":\"2025-04-02\",\"cabin\":\"Y\",\"over\":\"PA\"},{\"to\":\"TYO\",\"carrier\":\"Q2\",\
             \"day\":\"2025-04-09\",\"cabin\":\"Y\",\"over\":\"\",\"stop\":true}]}\n",
            "HEAD,1,36,2025-01-01\n\
             FARE,TYO,LON,EH,YY,Y,HR,,400.00\n\
             FARE,LYS,TYO,EH,YY,Y,OW,,250.00\n\
             FARE,LON,LYS,EH,YY,Y,OW,,250.00\n\
             FARE,TYO,LYS,EH,YY,Y,HR,,204.36\n\
             FARE,LON,TYO,EH,YY,Y,OW,,349.26\n\
             FARE,LON,TYO,AT,YY,Y,OW,,438.36\n\
             CITY,LYS,FR,2\n\
             FARE,LON,OSA,WH,YY,Y,HR,,150.00\n\
             TPM,OSA,LON,970\n\
             FARE,LYS,TYO,EH,YY,Y,HR,,200.00\n\
             TPM,TYO,OSA,2491\n\
             MPM,LON,TYO,EH,2757\n\
             FARE,TYO,LYS,EH,YY,Y,OW,,280.49\n\
             FARE,LON,LYS,EH,YY,Y,HR,,200.00\n\
             CITY,TYO,JP,3\n\
             TPM,LYS,LON,1417\n\
             FARE,LYS,LON,EH,YY,Y,HR,,186.31\n\
             CUR,GB,GBP,0.912345,2,1,N\n\
             FARE,LYS,OSA,PA,YY,Y,HR,,338.75\n\
             FARE,LON,TYO,EH,YY,Y,HR,,490.59\n\
             FARE,TYO,LON,EH,YY,Y,OW,,492.56\n\
             CITY,OSA,JP,3\n\
             FARE,LYS,LON,EH,YY,Y,OW,,213.53\n\
             TPM,TYO,LYS,1053\n\
             RULE,FLEX,2,0,21,0,15,Y,*,*\n\
             TPM,OSA,LYS,1602\n\
             CITY,LON,GB,2\n\
             CUR,FR,EUR,110.000000,2,10,U\n\
             CUR,JP,JPY,110.000000,0,10,U\n\
             END\n",
        ],
        status: 0,
        text: "EDITION 36 2025-01-01\n\
               BEST 1 781.34\n\
               TYO 7Z LYS 204.36 YYYHR/1 Q1 LON 186.31 YYYHR/2 7Z LYS 186.31 YYYHR/2 Q2 TYO 204.36 YYYHR/1 \
               NUC781.34END ROE110.000000\n\
               BEST 2 800.00\n\
               TYO 7Z LYS Q1 LON M400.00 YYYHR/1 7Z LYS Q2 TYO M400.00 YYYHR/1 NUC800.00END ROE110.000000\n",
    },
    Step {
        words: &["publish", "--store=s"],
        source: &[PLACES, RULED_FARES, END],
        status: 0,
        text: "PUBLISHED 1\n",
    },
    // One, where rules that don't combine leave no other.
    Step {
        words: &["quote", "--store=s", "--best=10"],
        source: &[STOPPING],
        status: 0,
        text: "EDITION 1 2025-01-01\n\
               BEST 1 300.00\n\
               LON Q1 PAR 200.00 YYYOW/1 Q1 ROM 100.00 YYYOWRB/2 NUC300.00END ROE0.750000\n",
    },
];
