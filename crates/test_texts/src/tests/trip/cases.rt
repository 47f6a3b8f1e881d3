//! Texts of trips, with what is told of them: the kind of the fault and its place, or `OK`.

/// Texts that have no row of sectors, or an empty one.
pub(super) static TOPS: [(&str, &str); 12] = [
    (r#""#, "TRIP NotJson"),
    (r#"{"sale":"2025-03-01""#, "TRIP NotJson"),
    (r#""TRIP""#, "TRIP Bad trip 0"),
    (r#"{}"#, "TRIP Missing sale 0"),
    (r#"{"from":"LON","sectors":[]}"#, "TRIP Missing sale 0"),
    (r#"{"sale":"at","from":"lon"}"#, "TRIP Bad sale 0"),
    (r#"{"sale":20250301,"from":"LON"}"#, "TRIP Bad sale 0"),
    (
        r#"{"x":-0,"sale":"2025-05-13","sectors":[]}"#,
        "TRIP Missing from 0",
    ),
    (r#"{"sale":"2025-05-13","from":"LOND"}"#, "TRIP Bad from 0"),
    (
        r#"{"sale":"2025-08-24","from":"LYS"}"#,
        "TRIP Missing sectors 0",
    ),
    (
        r#"{"sale":"2025-09-18","from":"MAN","sectors":"X"}"#,
        "TRIP Bad sectors 0",
    ),
    (
        r#"{"sale":"2025-03-01","from":"LON","sectors":[]}"#,
        "TRIP NoSectors",
    ),
];

/// Rows of sectors, each with what the trip from LON that has them is told.
pub(super) static SECTORS: [(&str, &str); 19] = [
    (r#"[[]]"#, "TRIP Bad sector 1"),
    (r#"[{}]"#, "TRIP Missing to 1"),
    (r#"[{"to":"Rom"}]"#, "TRIP Bad to 1"),
    (r#"[{"to":"ROM"}]"#, "TRIP Missing carrier 1"),
    (r#"[{"to":"ROM","carrier":["Q1"]}]"#, "TRIP Bad carrier 1"),
    (r#"[{"to":"ROM","carrier":"Q1"}]"#, "TRIP Missing day 1"),
    (
        r#"[{"to":"LON","carrier":"Q1","day":"W"}]"#,
        "TRIP Bad day 1",
    ),
    (
        r#"[{"to":"ROM","carrier":"Q1","day":"2025-04-10"}]"#,
        "TRIP Missing cabin 1",
    ),
    (
        r#"[{"to":"ROM","carrier":"Q1","day":"2025-04-10","cabin":"W"}]"#,
        "TRIP Bad cabin 1",
    ),
    (
        r#"[{"to":"ROM","carrier":"Q1","day":"2025-04-10","cabin":"Y","over":[]}]"#,
        "TRIP Bad over 1",
    ),
    (
        r#"[{"to":"ROM","carrier":"Q1","day":"2025-04-10","cabin":"Y","over":"PX"}]"#,
        "TRIP Bad over 1",
    ),
    (
        r#"[{"to":"ROM","carrier":"Q1","day":"2025-04-10","cabin":"Y","stop":null}]"#,
        "TRIP Bad stop 1",
    ),
    (
        r#"[{"to":"ROM","carrier":"Q1","day":"2025-04-10","cabin":"Y","surface":0}]"#,
        "TRIP Bad surface 1",
    ),
    (
        r#"[{"to":"LON","carrier":"Q1","day":"2025-02-01","cabin":"Y"},{}]"#,
        "TRIP SameCity 1",
    ),
    (
        r#"[{"to":"ROM","carrier":"Q1","day":"2025-02-28","cabin":"Y","surface":true}]"#,
        "TRIP DatesFall 1",
    ),
    (
        r#"[{"to":"ROM","carrier":"Q1","day":"2025-03-01","cabin":"Y","surface":true}]"#,
        "TRIP SurfacePlace 1",
    ),
    (
        r#"[{"to":"ROM","carrier":"Q1","day":"2025-03-01","cabin":"Y"}]"#,
        "OK",
    ),
    (
        r#"[{"to":"PAR","to":"LON","carrier":"Q1","day":"2025-03-01","cabin":"Y"}]"#,
        "TRIP SameCity 1",
    ),
    (
        r#"[{"to":"LON","to":"PAR","carrier":"Q1","day":"2025-03-01","cabin":"Y"}]"#,
        "OK",
    ),
];

/// Texts whose fault is in a later sector, and one without a fault.
pub(super) static LATER: [(&str, &str); 6] = [
    (
        r#"{"sale":"2025-03-07","from":"FRA","sectors":[{"to":"PAR","carrier":"Q1","day":"2025-03-07","cabin":"Y","over":"AT","stop":true},{"to":"LON","carrier":"Q1","day":"2025-03-14","cabin":"Y","over":"PA","stop":false,"surface":true},{"to":"MIL","carrier":"Q1","day":"2025-03-17","cabin":"Y","over":"PA","stop":true,"surface":true}],"Sale":"2024-02-29"}"#,
        "TRIP SurfacePlace 3",
    ),
    (
        r#"{"sale":"2025-03-07","from":"FRA","sectors":[{"to":"PAR","carrier":"Q1","day":"2025-03-07","cabin":"Y"},{"to":"FRA","carrier":"Q1","day":"2025-03-14","cabin":"Y","surface":true}]}"#,
        "TRIP SurfacePlace 2",
    ),
    (
        r#"{"sale":"2025-05-02","from":"SYD","sectors":[{"to":"LYS","carrier":"Q1","day":"2025-05-22","cabin":"Y","stop":false},{"to":"TYO","carrier":"Q1","day":"2025-05-21","cabin":"C"}]}"#,
        "TRIP DatesFall 2",
    ),
    (
        r#"{"sale":"2025-05-02","from":"SYD","sectors":[{"to":"SYD","carrier":"Q1","day":"2025-05-22","cabin":"Y"},{"to":"TYO","carrier":"Q1","day":"2025-05-21","cabin":"C","over":"EH"}]}"#,
        "TRIP SameCity 1",
    ),
    (
        r#"{"sale":"2025-05-11","from":"OSA","sectors":[{"to":"SYD","carrier":"7Z","day":"2025-06-10","cabin":"Y","over":"AT","stop":false},{"to":"LYS","carrier":"Q1","day":"2025-06-13","over":"PA","stop":false}]}"#,
        "TRIP Missing cabin 2",
    ),
    (
        r#"{"sale":"2025-05-11","from":"OSA","sectors":[{"to":"SYD","carrier":"7Z","day":"2025-06-10","cabin":"Y"},{"to":"OSA","carrier":"7Z","day":"2025-06-10","cabin":"Y"}]}"#,
        "OK",
    ),
];

/// Trips of one sector on a line.
pub(super) static SHORT: [(&str, &str); 13] = [
    ("", "TRIP Bad trip 0"),
    ("TRIP,2025-03-01,LON,ROM,Q1,2025-04-10", "TRIP Bad trip 0"),
    (
        "TRIP,2025-03-01,LON,ROM,Q1,2025-04-10,Y,",
        "TRIP Bad trip 0",
    ),
    ("Trip,2025-03-01,LON,ROM,Q1,2025-04-10,Y", "TRIP Bad trip 0"),
    ("TRIP,2025-02-30,lon,ROM,Q1,2025-04-10,Y", "TRIP Bad sale 0"),
    ("TRIP,2025-03-01,lon,R,Q1,2025-04-10,Y", "TRIP Bad from 0"),
    ("TRIP,2025-03-03,MIL,TRIP,Q1,2025-05-02,Y", "TRIP Bad to 1"),
    (
        "TRIP,2025-03-01,LON,LON,Q,2025-02-10,Y",
        "TRIP Bad carrier 1",
    ),
    ("TRIP,2025-03-01,LON,LON,Q1,,W", "TRIP Bad day 1"),
    (
        "TRIP,2025-03-01,LON,LON,Q1,2025-02-10,Y\r\r",
        "TRIP Bad cabin 1",
    ),
    ("TRIP,2025-03-01,LON,LON,Q1,2025-02-10,Y", "TRIP SameCity 1"),
    (
        "TRIP,2025-03-01,LON,ROM,Q1,2025-02-28,Y",
        "TRIP DatesFall 1",
    ),
    ("TRIP,2025-03-01,LON,ROM,Q1,2025-03-01,Y\r", "OK"),
];
