//! Answers for programs, refusals in JSON, and what would make a trip cheaper: worked texts.

use super::{Failure, Told};
use crate::tests::tariffs::{
    END, MILES, PASSING, PLACES, RULED_FARES, STOPPING, THROUGH, TIED_FARES, WORLD, WORLD_FARES,
};

/// A quotation, one of no fare, the first constructions, and the list of a store and of an empty one.
pub static ANSWERS: [Told; 5] = [
    Told {
        words: &["price", "--json"],
        source: &[WORLD, WORLD_FARES, END],
        bodies: &[],
        status: 0,
        text: "{\"edition\":{\"effective\":\"2025-01-01\",\"number\":7},\
               \"quotation\":{\"line\":\"LON Q1 X/FRA Q1 TYO M1200.00 YYYHRFLEX/1 Q2 LAX Q2 NYC Q2 LON 5M1575.00 \
               YYYHRFLEX/1 P/1 25.00 NUC2800.00END ROE0.750000\",\"local\":{\"amount\":\"2100\",\"currency\":\"GBP\"},\
               \"parts\":[{\"amount\":\"1200.00\",\"back\":false,\"fare\":{\"carrier\":\"YY\",\"class\":\"Y\",\
               \"kind\":\"HR\",\"record\":12,\"rule\":\"FLEX\"},\"filed\":\"1200.00\",\"from\":\"LON\",\"hip\":null,\
               \"miles\":{\"ema\":0,\"mpm\":7400,\"net\":6300,\"surcharge\":0,\"tpm\":6300},\"sectors\":[1,2],\
               \"to\":\"TYO\",\"unit\":1},{\"amount\":\"1575.00\",\"back\":true,\"fare\":{\"carrier\":\"YY\",\
               \"class\":\"Y\",\"kind\":\"HR\",\"record\":13,\"rule\":\"FLEX\"},\"filed\":\"1500.00\",\"from\":\"TYO\",\
               \"hip\":null,\"miles\":{\"ema\":0,\"mpm\":11000,\"net\":11370,\"surcharge\":5,\"tpm\":11370},\
               \"sectors\":[3,4,5],\"to\":\"LON\",\"unit\":1}],\"roe\":\"0.750000\",\"total\":\"2800.00\",\
               \"units\":[{\"kind\":\"CT\",\"minimum\":{\"amount\":\"2800.00\",\"check\":\"CT\"},\"number\":1,\
               \"price\":\"2800.00\",\"sum\":\"2775.00\"}]}}\n",
        line: "",
    },
    Told {
        words: &["quote", "--json", "--store=s"],
        source: &[STOPPING],
        bodies: &[&[
            PLACES,
            THROUGH,
            "TPM,LON,PAR,300\nTPM,PAR,ROM,951\nMPM,LON,ROM,EH,1000\nEND\n",
        ]],
        status: 0,
        text: "{\"edition\":{\"effective\":\"2025-01-01\",\"number\":1},\"quotation\":null}\n",
        line: "",
    },
    Told {
        words: &["price", "--best=3", "--json"],
        source: &[PASSING, PLACES, THROUGH, MILES, TIED_FARES, END],
        bodies: &[],
        status: 0,
        text: "{\"best\":[{\"line\":\"LON Q1 X/PAR Q1 ROM M400.00 YYYOW/1 NUC400.00END ROE0.750000\",\
               \"total\":\"400.00\"},\
               {\"line\":\"LON Q1 X/PAR 150.00 YYYOW/1 Q1 ROM 250.00 YYYOW/2 NUC400.00END ROE0.750000\",\
               \"total\":\"400.00\"}],\"edition\":{\"effective\":\"2025-01-01\",\"number\":1}}\n",
        line: "",
    },
    Told {
        words: &["list", "--store=s", "--json"],
        source: &[],
        bodies: &[
            &[WORLD_FARES, END],
            &[
                "HEAD,1,8,2025-01-01\nCUR,GB,GBP,0.750000,0,1,U\nCUR,FR,EUR,0.900000,2,1,N\nCUR,IT,EUR,0.900000,2,1,N\n\
                 CITY,LON,GB,2\nCITY,PAR,FR,2\nCITY,ROM,IT,2\n",
                THROUGH,
                MILES,
                END,
            ],
        ],
        status: 0,
        text: "{\"editions\":[{\"effective\":\"2025-01-01\",\"number\":7,\"records\":23},{\"effective\":\"2025-01-01\",\
               \"number\":8,\"records\":10}]}\n",
        line: "",
    },
    Told {
        words: &["list", "--store=s", "--json"],
        source: &[],
        bodies: &[],
        status: 0,
        text: "{\"editions\":[]}\n",
        line: "",
    },
];

/// Refusals in JSON, each with its plain line on standard error.
pub static FAULTS: [Told; 5] = [
    Told {
        words: &["price", "--json"],
        source: &[
            STOPPING,
            PLACES,
            "FARE,LON,ROM,EH,YY,Y,OW,,400\n",
            MILES,
            END,
        ],
        bodies: &[],
        status: 3,
        text: "{\"fault\":{\"text\":\"TARIFF 8 BadRecord 9\",\
               \"words\":\"record 8: field 9 (amount) has to be an amount from 0.00 to 9999999.99 with two decimals\"}}\
               \n",
        line: "TARIFF 8 BadRecord 9\n",
    },
    Told {
        words: &["price", "--json"],
        source: &["{}\n", PLACES, THROUGH, MILES, END],
        bodies: &[],
        status: 4,
        text: "{\"fault\":{\"text\":\"TRIP Missing sale 0\",\"words\":\"the itinerary has no member sale\"}}\n",
        line: "TRIP Missing sale 0\n",
    },
    Told {
        words: &["price", "--json", "--why"],
        source: &[
            STOPPING,
            "HEAD,1,1,2025-01-01\nCUR,GB,GBP,0.750000,0,1,U\nCUR,IT,EUR,0.900000,2,1,N\nCITY,LON,GB,2\nCITY,ROM,IT,2\n\
             END\n",
        ],
        bodies: &[],
        status: 7,
        text: "{\"fault\":{\"text\":\"UNKNOWN PLACE PAR\",\"words\":\"the edition has no record of the city PAR\"}}\n",
        line: "UNKNOWN PLACE PAR\n",
    },
    Told {
        words: &["quote", "--json", "--store=s", "--best=2"],
        source: &[STOPPING],
        bodies: &[],
        status: 6,
        text: "{\"fault\":{\"text\":\"NO EDITION 2025-03-01\",\"words\":\"no edition is effective by 2025-03-01\"}}\n",
        line: "NO EDITION 2025-03-01\n",
    },
    Told {
        words: &["list", "--json", "--store=s"],
        source: &[],
        bodies: &[&["junk"]],
        status: 14,
        text: "{\"fault\":{\"text\":\"DAMAGED 1 1 NoHeader\",\"words\":\"text 1 of the store is no edition\"}}\n",
        line: "DAMAGED 1 1 NoHeader\n",
    },
];

const WHY: &[&str] = &["price", "--why"];

/// What would make a trip cheaper, as a text and in JSON, and a trip that nothing makes cheaper.
pub static REASONS: [Told; 3] = [
    Told {
        words: WHY,
        source: &[STOPPING, PLACES, RULED_FARES, END],
        bodies: &[],
        status: 0,
        text: "EDITION 1 2025-01-01\n\
               BEST 300.00\n\
               WITHOUT ENDS 250.00 SAVES 50.00\n\
               LON Q1 PAR 150.00 YYYOWRA/1 Q1 ROM 100.00 YYYOWRB/2 NUC250.00END ROE0.750000\n\
               BROKEN 20 2\n",
        line: "",
    },
    Told {
        words: &["quote", "--store=s", "--why", "--json", "--workers=4"],
        source: &[STOPPING],
        bodies: &[&[PLACES, RULED_FARES, END]],
        status: 0,
        text: "{\"edition\":{\"effective\":\"2025-01-01\",\"number\":1},\"total\":\"300.00\",\
               \"without\":[{\"broken\":{\"place\":2,\"rule\":20,\
               \"words\":\"the fare of part 2 isn't combinable end on end with an earlier one\"},\"kind\":\"ENDS\",\
               \"line\":\"LON Q1 PAR 150.00 YYYOWRA/1 Q1 ROM 100.00 YYYOWRB/2 NUC250.00END ROE0.750000\",\
               \"saves\":\"50.00\",\"total\":\"250.00\"}]}\n",
        line: "",
    },
    Told {
        words: WHY,
        source: &[PASSING, PLACES, THROUGH, MILES, TIED_FARES, END],
        bodies: &[],
        status: 0,
        text: "EDITION 1 2025-01-01\nBEST 400.00\n",
        line: "",
    },
];

/// A rule's record that bars a trip round the world, and the reason that is told.
#[derive(Clone, Copy)]
pub struct Barred {
    pub rule: &'static str,
    pub reason: &'static str,
}

/// A rule for each kind of condition, and one of two kinds.
pub static KINDS: [Barred; 7] = [
    Barred {
        rule: "RULE,FLEX,5,5,60,3,365,Y,*,*\n",
        reason: "WITHOUT ADVANCE 2800.00 SAVES -\n\
                 LON Q1 X/FRA Q1 TYO M1200.00 YYYHRFLEX/1 Q2 LAX Q2 NYC Q2 LON 5M1575.00 YYYHRFLEX/1 P/1 25.00 \
                 NUC2800.00END ROE0.750000\nBROKEN 15 1\n",
    },
    Barred {
        rule: "RULE,FLEX,5,5,0,30,365,Y,*,*\n",
        reason: "WITHOUT STAY 2800.00 SAVES -\n\
                 LON Q1 X/FRA Q1 TYO M1200.00 YYYHRFLEX/1 Q2 LAX Q2 NYC Q2 LON 5M1575.00 YYYHRFLEX/1 P/1 25.00 \
                 NUC2800.00END ROE0.750000\nBROKEN 18 1\n",
    },
    Barred {
        rule: "RULE,FLEX,1,5,0,3,365,Y,*,*\n",
        reason: "WITHOUT STOPOVERS 2800.00 SAVES -\n\
                 LON Q1 X/FRA Q1 TYO M1200.00 YYYHRFLEX/1 Q2 LAX Q2 NYC Q2 LON 5M1575.00 YYYHRFLEX/1 P/1 25.00 \
                 NUC2800.00END ROE0.750000\nBROKEN 13 2\n",
    },
    Barred {
        rule: "RULE,FLEX,5,0,0,3,365,Y,*,*\n",
        reason: "WITHOUT TRANSFERS 2800.00 SAVES -\n\
                 LON Q1 X/FRA Q1 TYO M1200.00 YYYHRFLEX/1 Q2 LAX Q2 NYC Q2 LON 5M1575.00 YYYHRFLEX/1 P/1 25.00 \
                 NUC2800.00END ROE0.750000\nBROKEN 14 1\n",
    },
    Barred {
        rule: "RULE,FLEX,5,5,0,3,365,N,*,*\n",
        reason: "WITHOUT SURCHARGE 2800.00 SAVES -\n\
                 LON Q1 X/FRA Q1 TYO M1200.00 YYYHRFLEX/1 Q2 LAX Q2 NYC Q2 LON 5M1575.00 YYYHRFLEX/1 P/1 25.00 \
                 NUC2800.00END ROE0.750000\nBROKEN 17 2\n",
    },
    Barred {
        rule: "RULE,FLEX,5,5,0,3,365,Y,-,*\n",
        reason: "WITHOUT UNIT 2800.00 SAVES -\n\
                 LON Q1 X/FRA Q1 TYO M1200.00 YYYHRFLEX/1 Q2 LAX Q2 NYC Q2 LON 5M1575.00 YYYHRFLEX/1 P/1 25.00 \
                 NUC2800.00END ROE0.750000\nBROKEN 19 1\n",
    },
    Barred {
        rule: "RULE,FLEX,5,5,60,30,365,Y,*,*\n",
        reason: "",
    },
];

/// The outside fails: nothing is written, or the fault in JSON, or a prefix of either.
pub static OUTSIDE: [Failure; 5] = [
    Failure {
        words: &["check"],
        read: &[1],
        write: &[],
        room: 4096,
        store: &[],
        status: 8,
        text: "",
        bodies: 0,
    },
    Failure {
        words: &["quote", "--store=s", "--json"],
        read: &[1],
        write: &[],
        room: 4096,
        store: &[],
        status: 8,
        text: "{\"fault\":{\"text\":\"READ FAULT\",\"words\":\"standard input can't be read\"}}\n",
        bodies: 0,
    },
    Failure {
        words: &["list", "--store=s", "--json"],
        read: &[],
        write: &[],
        room: 4096,
        store: &[(1, true)],
        status: 10,
        text: "{\"fault\":{\"text\":\"KEEPER FAULT\",\"words\":\"the store can't be used\"}}\n",
        bodies: 0,
    },
    Failure {
        words: &["check"],
        read: &[],
        write: &[],
        room: 10,
        store: &[],
        status: 9,
        text: "CHECKED 1 ",
        bodies: 0,
    },
    Failure {
        words: &["price", "--json"],
        read: &[],
        write: &[],
        room: 10,
        store: &[],
        status: 9,
        text: "{\"fault\":{",
        bodies: 0,
    },
];
