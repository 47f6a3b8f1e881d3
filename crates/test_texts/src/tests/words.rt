//! Words that are taken, with what they give, and words that aren't.

use fare_words::read_words;
use std::alloc::Global;
use std::process::Abort;
use std::test::Fail;

/// Words, and what they give, as it is shown.
struct Case {
    words: &'static [&'static str],
    given: &'static str,
}

static TAKEN: [Case; 25] = [
    Case {
        words: &["price"],
        given: "Some(Price { workers: 1, asked: Quotation, json: false })",
    },
    Case {
        words: &["price", "--"],
        given: "Some(Price { workers: 1, asked: Quotation, json: false })",
    },
    Case {
        words: &["price", "--best", "9"],
        given: "Some(Price { workers: 1, asked: Best(9), json: false })",
    },
    Case {
        words: &["publish", "--store", "-"],
        given: "Some(Publish { store: StoreName { text: \"-\" } })",
    },
    Case {
        words: &["publish", "--store=--"],
        given: "Some(Publish { store: StoreName { text: \"--\" } })",
    },
    Case {
        words: &["list", "--store=-x"],
        given: "Some(List { store: StoreName { text: \"-x\" }, json: false })",
    },
    Case {
        words: &["list", "--store==x"],
        given: "Some(List { store: StoreName { text: \"=x\" }, json: false })",
    },
    Case {
        words: &["list", "--store=é"],
        given: "Some(List { store: StoreName { text: \"é\" }, json: false })",
    },
    Case {
        words: &["export", "--edition", "99999", "--store", "s"],
        given: "Some(Export { store: StoreName { text: \"s\" }, edition: 99999 })",
    },
    Case {
        words: &["quote", "--best=10", "--store", "a b", "--workers", "16"],
        given: "Some(Quote { store: StoreName { text: \"a b\" }, workers: 16, asked: Best(10), json: false })",
    },
    Case {
        words: &["serve", "--count=1", "--port=65535", "--store=x"],
        given: "Some(Serve { store: StoreName { text: \"x\" }, port: 65535, count: 1, workers: 1, round: 1 })",
    },
    Case {
        words: &[
            "serve",
            "--store=s",
            "--port=1",
            "--count=1000000",
            "--round=8",
        ],
        given: "Some(Serve { store: StoreName { text: \"s\" }, port: 1, count: 1000000, workers: 1, round: 8 })",
    },
    Case {
        words: &["drill", "--seed=2147483647", "--sectors", "1"],
        given: "Some(Drill { seed: 2147483647, sectors: 1, extra: 0, workers: 1 })",
    },
    Case {
        words: &[
            "drill",
            "--extra",
            "200000",
            "--sectors",
            "16",
            "--seed",
            "0",
        ],
        given: "Some(Drill { seed: 0, sectors: 16, extra: 200000, workers: 1 })",
    },
    Case {
        words: &["migrate", "--store", "a b"],
        given: "Some(Migrate { store: StoreName { text: \"a b\" } })",
    },
    Case {
        words: &["list", "--store=--json"],
        given: "Some(List { store: StoreName { text: \"--json\" }, json: false })",
    },
    Case {
        words: &["check", "--"],
        given: "Some(Check)",
    },
    Case {
        words: &["price", "--workers=16", "--why"],
        given: "Some(Price { workers: 16, asked: Why, json: false })",
    },
    Case {
        words: &["price", "--json", "--"],
        given: "Some(Price { workers: 1, asked: Quotation, json: true })",
    },
    Case {
        words: &["quote", "--best", "1", "--store=a b", "--json"],
        given: "Some(Quote { store: StoreName { text: \"a b\" }, workers: 1, asked: Best(1), json: true })",
    },
    Case {
        words: &["quote", "--json", "--why", "--store", "-"],
        given: "Some(Quote { store: StoreName { text: \"-\" }, workers: 1, asked: Why, json: true })",
    },
    Case {
        words: &["list", "--json", "--store", "s"],
        given: "Some(List { store: StoreName { text: \"s\" }, json: true })",
    },
    Case {
        words: &["diff", "--store", "=x", "--to=1", "--from", "7"],
        given: "Some(Diff { store: StoreName { text: \"=x\" }, from: 7, to: 1 })",
    },
    Case {
        words: &["compare", "--from", "99999", "--to=1", "--store==x"],
        given: "Some(Compare { store: StoreName { text: \"=x\" }, from: 99999, to: 1, workers: 1 })",
    },
    Case {
        words: &["compare", "--from=1", "--to=2", "--store=s", "--workers=16"],
        given: "Some(Compare { store: StoreName { text: \"s\" }, from: 1, to: 2, workers: 16 })",
    },
];

static REFUSED: [&[&str]; 42] = [
    &[],
    &[""],
    &["Price"],
    &["help"],
    &["--", "price"],
    &["price", "--help"],
    &["price", "-h"],
    &["price", "--version"],
    &["price", "--", "1"],
    &["price", "--workers"],
    &["price", "--workers=0"],
    &["price", "--workers=01"],
    &["price", "--workers=17"],
    &["price", "--workers=+1"],
    &["price", "--workers=1", "--workers=1"],
    &["price", "--best=0"],
    &["price", "--best=11"],
    &["publish"],
    &["publish", "--store="],
    &["list", "--store", "-x"],
    &["list", "--store", "s", "t"],
    &["list", "--store=s", "--workers=1"],
    &["export", "--store=s", "--edition=0"],
    &["export", "--store=s", "--edition=100000"],
    &["serve", "--store=s", "--port=65536", "--count=1"],
    &["serve", "--store=s", "--port=80", "--count=1000001"],
    &["serve", "--store=s", "--port=80", "--count=1", "--round=9"],
    &["drill", "--seed=2147483648", "--sectors=1"],
    &["price", "--json", "--json"],
    &["price", "--json="],
    &["price", "--json", "true"],
    &["price", "--json=true"],
    &["price", "--why", "--best=1"],
    &["list", "--why", "--store=s"],
    &["check", "--json"],
    &["check", "x"],
    &["diff", "--store=s", "--from=1"],
    &["diff", "--store=s", "--from=0", "--to=1"],
    &["quote", "--store", "--json"],
    &["compare", "--store=s", "--from=1", "--to=100000"],
    &["price", "json", "--why", "--workers=01", "--best=1"],
    &[
        "quote",
        "--json",
        "--why",
        "--workers",
        "1",
        "--best=10",
        "--store=-",
    ],
];

/// What the words give, as it is shown.
fn given(alloc: Global, words: &[&str]) -> Result<String, Fail> {
    let mut owned = Vec::new(alloc);
    for word in words {
        owned.push(String::from_str(alloc, word)?)?;
    }
    let taken = read_words(alloc, owned.as_slice()).map_err(|_| "no memory")?;
    Ok(format!(in alloc; "{taken:?}")?)
}

/// Compares what the words give with what they are to give.
fn holds<R: Abort>(rt: &R, alloc: Global, words: &[&str], wanted: &str) -> Result<(), Fail> {
    let found = given(alloc, words)?;
    assert!(rt; found.as_str() == wanted, "{}", found);
    Ok(())
}

#[test]
fn words_are_taken(rt: HostRuntime) -> Result<(), Fail> {
    for case in TAKEN.as_slice() {
        holds(&rt, rt.alloc(), case.words, case.given)?;
    }
    Ok(())
}

#[test]
fn words_are_refused(rt: HostRuntime) -> Result<(), Fail> {
    for words in REFUSED.as_slice() {
        holds(&rt, rt.alloc(), words, "None")?;
    }
    Ok(())
}
