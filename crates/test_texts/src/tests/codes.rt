//! Each form at texts that are in it and next to it, and each call once.

use fare_codes::{
    Area, Cabin, Carrier, City, Country, Currency, Day, FareAmount, Indicator, Kind, Mode,
    MonthDay, Nuc, Over, RuleId, Season, convert, number_text, rate_text, read_number, read_rate,
    surcharged,
};

/// Texts, and of which codes they have the form: a city's, a currency's, a country's, a carrier's.
static CODES: [(&str, [bool; 4]); 6] = [
    ("AMR", [true, true, false, false]),
    ("AMr", [false, false, false, false]),
    ("AM", [false, false, true, true]),
    ("1N", [false, false, false, true]),
    ("4F7", [false, false, false, false]),
    ("", [false, false, false, false]),
];

fn codes_of(text: &str) -> [bool; 4] {
    let bytes = text.as_bytes();
    [
        City::read(bytes).is_some(),
        Currency::read(bytes).is_some(),
        Country::read(bytes).is_some(),
        Carrier::read(bytes).is_some(),
    ]
}

#[test]
fn reads_codes(rt: HostRuntime) {
    for (text, forms) in &CODES {
        assert!(rt; codes_of(text) == *forms, "{text}");
    }
}

/// Texts, and whether they are names of rules.
static RULE_IDS: [(&str, bool); 5] = [
    ("59O0530H", true),
    ("K", true),
    ("C4VaLUU", false),
    ("59O0530HX", false),
    ("", false),
];

fn is_rule_id(text: &str) -> bool {
    RuleId::read(text.as_bytes()).is_some()
}

#[test]
fn reads_rule_ids(rt: HostRuntime) {
    for (text, form) in &RULE_IDS {
        assert!(rt; is_rule_id(text) == *form, "{text}");
    }
}

/// Texts, and the numbers of the days that they are.
static DAYS: [(&str, Option<u32>); 7] = [
    ("1970-01-01", Some(0)),
    ("2000-02-29", Some(11016)),
    ("9999-12-31", Some(2932896)),
    ("2100-02-29", None),
    ("1969-12-31", None),
    ("2025-00-10", None),
    ("2024-08--30", None),
];

fn day_number(text: &str) -> Option<u32> {
    let day = Day::read(text.as_bytes())?;
    Some(day.number())
}

/// Texts, and whether they are days of a year.
static MONTH_DAYS: [(&str, bool); 4] = [
    ("02-29", true),
    ("02-30", false),
    ("12-31", true),
    ("0930", false),
];

fn is_month_day(text: &str) -> bool {
    MonthDay::read(text.as_bytes()).is_some()
}

#[test]
fn reads_days(rt: HostRuntime) {
    for (text, number) in &DAYS {
        assert!(rt; day_number(text) == *number, "{text}");
    }
    for (text, form) in &MONTH_DAYS {
        assert!(rt; is_month_day(text) == *form, "{text}");
    }
}

#[test]
fn reads_words(rt: HostRuntime) {
    assert!(rt; Area::read(b"3") == Some(Area::Three));
    assert!(rt; Area::read(b"0").is_none());
    assert!(rt; Indicator::read(b"EH") == Some(Indicator::EH));
    assert!(rt; Over::read(b"") == Some(Over::Unmarked));
    assert!(rt; Over::read(b"AP").is_none());
    assert!(rt; Cabin::read(b"C") == Some(Cabin::C));
    assert!(rt; Kind::read(b"HR") == Some(Kind::HR));
    assert!(rt; Mode::read(b"N") == Some(Mode::Nearest));
}

/// Texts, and the hundredths of the amounts that they are.
static AMOUNTS: [(&str, Option<u64>); 7] = [
    ("0.07", Some(7)),
    ("99999999999.99", Some(9_999_999_999_999)),
    ("100000000000.00", None),
    ("00.00", None),
    ("0.6", None),
    (".60", None),
    ("1.9A0", None),
];

fn hundredths_of(text: &str) -> Option<u64> {
    let amount = Nuc::read(text.as_bytes())?;
    Some(amount.hundredths())
}

#[test]
fn reads_amounts(rt: HostRuntime) {
    for (text, hundredths) in &AMOUNTS {
        assert!(rt; hundredths_of(text) == *hundredths, "{text}");
    }
}

#[test]
fn reads_numbers(rt: HostRuntime) {
    assert!(rt; read_rate(b"1.125000") == Some(1_125_000));
    assert!(rt; read_rate(b"12345678.000000").is_none());
    assert!(rt; read_number(b"16", 16) == Some(16));
    assert!(rt; read_number(b"17", 16).is_none());
    assert!(rt; read_number(b"016", 99).is_none());
}

/// Whether a day and the day of its year have these texts; that day is in the season of the whole year.
fn is_day(day: Day, text: &str, of_year: &str) -> bool {
    let month_day = day.month_day();
    day.text().as_str() == text
        && month_day.text().as_str() == of_year
        && Season::whole_year().holds(month_day)
}

#[test]
fn writes_days(rt: HostRuntime) {
    let day = Day::read(b"2024-02-29").expect(&rt, "2024 is a leap year");
    assert!(rt; is_day(day, "2024-02-29", "02-29"));
    assert!(rt; is_day(Day::default(), "1970-01-01", "01-01"));
}

#[test]
fn writes_texts(rt: HostRuntime) {
    assert!(rt; City::default().text().as_str() == "AAA");
    assert!(rt; Carrier::default().text().as_str() == "AA");
    assert!(rt; Nuc::new(150).text().as_str() == "1.50");
    assert!(rt; Nuc::new(7).text().as_str() == "0.07");
    assert!(rt; FareAmount::of(Nuc::new(999_999_999)).text().as_str() == "9999999.99");
    assert!(rt; FareAmount::of(Nuc::new(150)).nuc().hundredths() == 150);
    assert!(rt; rate_text(900_000).as_str() == "0.900000");
    assert!(rt; number_text(0).as_str() == "0");
    assert!(rt; Over::Unmarked.text().as_str() == "");
    assert!(rt; Indicator::AP.text().as_str() == "AP");
}

#[test]
fn computes_amounts(rt: HostRuntime) {
    assert!(rt; surcharged(Nuc::new(19), 20).hundredths() == 22);
    assert!(rt; surcharged(Nuc::new(854_278_018), 25).hundredths() == 1_067_847_522);
    assert!(rt; convert(33_333, 900_000, 2, 1, Mode::Nearest) == 30_000);
    assert!(rt; convert(40_000_000_000, 1, 1, 1621, Mode::Up) == 4863);
    assert!(rt;
        convert(15_999_999_984, 9_999_999_999_999, 2, 1, Mode::Nearest) == 159_999_999_839_984_000
    );
}
