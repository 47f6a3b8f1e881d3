//! Itineraries and the pieces of tariffs, as texts.

/// Euros and pounds, with London, Paris and Rome.
pub const PLACES: &str =
    "HEAD,1,1,2025-01-01\nCUR,GB,GBP,0.750000,0,1,U\nCUR,FR,EUR,0.900000,2,1,N\nCUR,IT,EUR,0.900000,2,1,N\n\
     CITY,LON,GB,2\nCITY,PAR,FR,2\nCITY,ROM,IT,2\n";

pub const THROUGH: &str = "FARE,LON,ROM,EH,YY,Y,OW,,400.00\n";

pub const MILES: &str = "TPM,LON,PAR,300\nTPM,PAR,ROM,700\nMPM,LON,ROM,EH,1000\n";

pub const BROKEN_FARES: &str = "FARE,LON,PAR,EH,YY,Y,OW,,450.00\nFARE,PAR,ROM,EH,YY,Y,OW,,200.00\n";

pub const TIED_FARES: &str = "FARE,LON,PAR,EH,YY,Y,OW,,150.00\nFARE,PAR,ROM,EH,YY,Y,OW,,250.00\n";

pub const TO_PARIS: &str = "TPM,LON,PAR,300\n";

pub const PERMITTED: &str = "MPM,LON,ROM,EH,1000\n";

pub const HALVES: &str = "FARE,LON,PAR,EH,YY,Y,HR,,100.00\nFARE,PAR,ROM,EH,YY,Y,HR,,80.00\n";

pub const JAW_FARES: &str = "FARE,LON,PAR,EH,YY,Y,HR,,100.00\nFARE,LON,LYS,EH,YY,Y,HR,,90.00\n";
/// Two fares from Paris that may not be combined end on end with the cheaper one to it.
pub const RULED_FARES: &str =
    "RULE,RA,9,9,0,0,365,Y,*,RA\nRULE,RB,9,9,0,0,365,Y,*,*\nFARE,LON,PAR,EH,YY,Y,OW,RA,150.00\n\
     FARE,LON,PAR,EH,YY,Y,OW,,200.00\nFARE,PAR,ROM,EH,YY,Y,OW,RB,100.00\n";
/// Round the Pacific and the Atlantic by two halves.
pub const PACIFIC_FARES: &str =
    "HEAD,1,1,2025-01-01\nCUR,GB,GBP,0.750000,0,1,U\nCUR,JP,JPY,110.000000,0,100,U\nCUR,US,USD,1.000000,2,1,N\n\
     CITY,LON,GB,2\nCITY,TYO,JP,3\nCITY,LAX,US,1\nFARE,LON,TYO,EH,YY,Y,HR,,400.00\nFARE,LON,TYO,AP,YY,Y,HR,,390.00\n\
     FARE,LON,LAX,PA,YY,Y,HR,,450.00\nFARE,LON,LAX,AT,YY,Y,HR,,300.00\nTPM,TYO,LAX,5000\nTPM,LAX,LON,5000\n\
     MPM,LON,TYO,AP,12000\n";
/// A circle trip on two carriers, with a rule that asks for a stay.
pub const WORLD_FARES: &str =
    "HEAD,1,7,2025-01-01\nCUR,GB,GBP,0.750000,0,1,U\nCUR,DE,EUR,0.900000,2,1,N\nCUR,JP,JPY,110.000000,0,100,U\n\
     CUR,US,USD,1.000000,2,1,N\nCITY,LON,GB,2\nCITY,FRA,DE,2\nCITY,TYO,JP,3\nCITY,LAX,US,1\nCITY,NYC,US,1\n\
     RULE,FLEX,5,5,0,3,365,Y,*,*\nFARE,LON,TYO,EH,YY,Y,HR,FLEX,1200.00\nFARE,LON,TYO,AP,YY,Y,HR,FLEX,1500.00\n\
     FARE,LON,LAX,PA,YY,Y,HR,FLEX,1300.00\nFARE,LON,NYC,PA,YY,Y,HR,FLEX,1400.00\nFARE,LON,LAX,AT,YY,Y,HR,FLEX,900.00\n\
     FARE,LON,NYC,AT,YY,Y,HR,FLEX,700.00\nTPM,LON,FRA,400\nTPM,FRA,TYO,5900\nTPM,TYO,LAX,5450\nTPM,LAX,NYC,2470\n\
     TPM,NYC,LON,3450\nMPM,LON,TYO,EH,7400\nMPM,LON,TYO,AP,11000\n";

pub const END: &str = "END\n";

/// London, Paris, Rome, with a stopover in Paris, and with a transfer.
pub const STOPPING: &str =
    r#"{"sale":"2025-03-01","from":"LON","sectors":[{"to":"PAR","carrier":"Q1","day":"2025-04-10","cabin":"Y"},{"to":"ROM","carrier":"Q1","day":"2025-04-12","cabin":"Y"}]}
"#;

pub const PASSING: &str =
    r#"{"sale":"2025-03-01","from":"LON","sectors":[{"to":"PAR","carrier":"Q1","day":"2025-04-10","cabin":"Y","stop":false},{"to":"ROM","carrier":"Q1","day":"2025-04-12","cabin":"Y"}]}
"#;
/// London, Paris, Rome, Paris, London.
pub const SIDE_TRIP: &str =
    r#"{"sale":"2025-03-01","from":"LON","sectors":[{"to":"PAR","carrier":"Q1","day":"2025-04-10","cabin":"Y"},{"to":"ROM","carrier":"Q1","day":"2025-04-12","cabin":"Y"},{"to":"PAR","carrier":"Q1","day":"2025-04-14","cabin":"Y"},{"to":"LON","carrier":"Q1","day":"2025-04-16","cabin":"Y"}]}
"#;

/// London, Tokyo, Los Angeles, London.
pub const PACIFIC: &str =
    r#"{"sale":"2025-03-01","from":"LON","sectors":[{"to":"TYO","carrier":"Q1","day":"2025-04-10","cabin":"Y"},{"to":"LAX","carrier":"Q1","day":"2025-04-20","cabin":"Y"},{"to":"LON","carrier":"Q1","day":"2025-04-25","cabin":"Y"}]}
"#;
/// London, Frankfurt, Tokyo, Los Angeles, New York, London.
pub const WORLD: &str =
    r#"{"sale":"2025-03-01","from":"LON","sectors":[{"to":"FRA","carrier":"Q1","day":"2025-04-10","cabin":"Y","stop":false},{"to":"TYO","carrier":"Q1","day":"2025-04-10","cabin":"Y"},{"to":"LAX","carrier":"Q2","day":"2025-04-20","cabin":"Y"},{"to":"NYC","carrier":"Q2","day":"2025-04-25","cabin":"Y"},{"to":"LON","carrier":"Q2","day":"2025-05-01","cabin":"Y"}]}
"#;
/// London to Paris, by own means to Lyon, and back to London.
pub const JAW: &str =
    r#"{"sale":"2025-03-01","from":"LON","sectors":[{"to":"PAR","carrier":"Q1","day":"2025-04-10","cabin":"Y"},{"to":"LYS","carrier":"Q1","day":"2025-04-12","cabin":"Y","surface":true},{"to":"LON","carrier":"Q1","day":"2025-04-16","cabin":"Y"}]}
"#;

/// The way from London to Paris is made by own means too.
pub const SURFACE_FIRST: &str =
    r#"{"sale":"2025-03-01","from":"LON","sectors":[{"to":"PAR","carrier":"Q1","day":"2025-04-10","cabin":"Y","surface":true},{"to":"LYS","carrier":"Q1","day":"2025-04-12","cabin":"Y"},{"to":"LON","carrier":"Q1","day":"2025-04-16","cabin":"Y"}]}
"#;

pub const NO_SECTORS: &str = "{\"sale\":\"2025-03-01\",\"from\":\"LON\",\"sectors\":[]}\n";

/// London to Rome in one sector, its short line and its tariff but for the fare.
pub const SHORT: &str = "TRIP,2025-03-01,LON,ROM,Q1,2025-04-10,Y\n";

pub const TWO_PLACES: &str =
    "CUR,GB,GBP,0.750000,0,1,U\nCUR,IT,EUR,0.900000,2,1,N\nCITY,LON,GB,2\nCITY,ROM,IT,2\n";

pub const HEAD_1: &str = "HEAD,1,1,2025-01-01\n";

pub const HEAD_2: &str = "HEAD,2,1,2025-01-01\n";

pub const SUMMER: &str = "FARE,LON,ROM,EH,YY,Y,OW,,04-01,10-31,400.00\n";

pub const WINTER: &str = "FARE,LON,ROM,EH,YY,Y,OW,,11-01,03-31,300.00\n";
/// One sector more than a trip may have, none of which is looked at.
pub const SEVENTEEN_SECTORS: &str =
    "{\"sale\":\"2025-03-01\",\"from\":\"LON\",\"sectors\":[{},{},{},{},{},{},{},{},{},{},{},{},{},{},{},{},{}]}\n";
/// Two hundred opened arrays.
pub const OPENED_ARRAYS: &str =
    "[[[[[[[[[[[[[[[[[[[[[[[[[[[[[[[[[[[[[[[[[[[[[[[[[[[[[[[[[[[[[[[[[[[[[[[[[[[[[[[[[[[[[[[[[[[[[[[[[[[[[[[[[[[[[[[[[[\
     [[[[[[[[[[[[[[[[[[[[[[[[[[[[[[[[[[[[[[[[[[[[[[[[[[[[[[[[[[[[[[[[[[[[[[[[[[[[[[[[[[[[[[\n";

pub const DEARER: &str = "FARE,LON,ROM,EH,YY,Y,OW,,401.00\n";

/// London, Paris and Rome with their fare and miles, as one text whose lines end with CR and LF.
pub const ENDED_BY_CR: &str =
    "HEAD,1,1,2025-01-01\r\nCUR,GB,GBP,0.750000,0,1,U\r\nCUR,FR,EUR,0.900000,2,1,N\r\nCUR,IT,EUR,0.900000,2,1,N\r\n\
     CITY,LON,GB,2\r\nCITY,PAR,FR,2\r\nCITY,ROM,IT,2\r\nFARE,LON,ROM,EH,YY,Y,OW,,400.00\r\nTPM,LON,PAR,300\r\n\
     TPM,PAR,ROM,700\r\nMPM,LON,ROM,EH,1000\r\nEND\r\n";

/// The canonical text of the same edition.
pub const CANONICAL: &str =
    "HEAD,2,1,2025-01-01\nCUR,GB,GBP,0.750000,0,1,U\nCUR,FR,EUR,0.900000,2,1,N\nCUR,IT,EUR,0.900000,2,1,N\n\
     CITY,LON,GB,2\nCITY,PAR,FR,2\nCITY,ROM,IT,2\nFARE,LON,ROM,EH,YY,Y,OW,,01-01,12-31,400.00\nTPM,LON,PAR,300\n\
     TPM,PAR,ROM,700\nMPM,LON,ROM,EH,1000\nEND\n";

/// London to Rome in one sector, sold on three days.
pub const SOLD_LATER: &str =
    r#"{"sale":"2025-02-15","from":"LON","sectors":[{"to":"ROM","carrier":"Q1","day":"2025-04-10","cabin":"Y"}]}"#;

pub const SOLD_SOONER: &str =
    r#"{"sale":"2025-01-31","from":"LON","sectors":[{"to":"ROM","carrier":"Q1","day":"2025-04-10","cabin":"Y"}]}"#;

pub const SOLD_BEFORE: &str =
    r#"{"sale":"2024-12-31","from":"LON","sectors":[{"to":"ROM","carrier":"Q1","day":"2025-04-10","cabin":"Y"}]}"#;
