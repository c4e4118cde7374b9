use super::*;
use std::alloc::{AllocError, Global};
use std::test::Fail;

// The words of a text: what stands between two spaces, which may be nothing.
fn words_of(alloc: Global, text: &str) -> Result<Vec<String>, AllocError> {
    let mut words = Vec::new(alloc);
    for word in text.split(' ') {
        words.push(word.to_owned(alloc)?)?;
    }
    Ok(words)
}

#[test]
fn words_of_solve(rt: HostRuntime) -> Result<(), Fail> {
    let alloc = rt.alloc();
    for (text, width, grade, halve, sweeps) in [
        ("solve", None, None, None, None),
        (
            "solve --width 0 --grade=0 --halve 0",
            Some(0),
            Some(0),
            Some(0),
            None,
        ),
        (
            "solve --sweeps=10000 --halve 6 --grade 12 --width=1000000000",
            Some(1_000_000_000),
            Some(12),
            Some(6),
            Some(10_000),
        ),
        ("solve --sweeps 1 --", None, None, None, Some(1)),
        ("solve --width 00000000012", Some(12), None, None, None),
    ] {
        let words = words_of(alloc, text)?;
        let want = SolveOptions {
            width,
            grade,
            halve,
            sweeps,
        };
        assert_eq!(rt; read_options(alloc, words.as_slice()), Ok(want), "{text}");
    }
    Ok(())
}

#[test]
fn words_without_a_reading(rt: HostRuntime) -> Result<(), Fail> {
    let alloc = rt.alloc();
    for text in [
        "solve --width",
        "solve --width=",
        "solve --width ",
        "solve ",
        "solve 5",
        "solve -- 5",
        "solve --grade 13",
        "solve --halve=7",
        "solve --sweeps 0",
        "solve --width 1000000001",
        "solve --width -5",
        "solve --width 5.0",
        "solve --wid 5",
        "solve --grade 1 --grade=1",
        "solve -h",
        "solve --help",
    ] {
        let words = words_of(alloc, text)?;
        let found = read_options(alloc, words.as_slice());
        assert_eq!(rt; found, Err(WordsRefusal::NoReading), "{text}");
    }
    Ok(())
}

#[test]
fn words_of_a_command_that_takes_nothing(rt: HostRuntime) -> Result<(), Fail> {
    let alloc = rt.alloc();
    for (text, want) in [
        ("check", Ok(())),
        ("check --", Ok(())),
        ("check check", Err(WordsRefusal::NoReading)),
        ("check --help", Err(WordsRefusal::NoReading)),
    ] {
        let words = words_of(alloc, text)?;
        assert_eq!(rt;
            read_without_options(alloc, "check", words.as_slice()),
            want,
            "{text}"
        );
    }
    Ok(())
}

#[test]
fn words_of_demo(rt: HostRuntime) -> Result<(), Fail> {
    let alloc = rt.alloc();
    for (text, want) in [
        ("demo 1", Ok(1)),
        ("demo -- 3", Ok(3)),
        ("demo 016", Ok(16)),
        ("demo", Err(WordsRefusal::NoReading)),
        ("demo 0", Err(WordsRefusal::NoReading)),
        ("demo 17", Err(WordsRefusal::NoReading)),
        ("demo ", Err(WordsRefusal::NoReading)),
        ("demo -1", Err(WordsRefusal::NoReading)),
        ("demo 1 2", Err(WordsRefusal::NoReading)),
        ("demo --help", Err(WordsRefusal::NoReading)),
    ] {
        let words = words_of(alloc, text)?;
        assert_eq!(rt; read_storeys(alloc, words.as_slice()), want, "{text}");
    }
    Ok(())
}

#[test]
fn where_no_option_is_given(rt: HostRuntime) {
    let none = SolveOptions {
        width: None,
        grade: None,
        halve: None,
        sweeps: None,
    };
    assert_eq!(rt; (none.width(), none.sweeps()), (10_000, 200));
    assert_eq!(rt; (none.grade(2), none.halve(2)), (4, 1));
    assert_eq!(rt; (none.grade(3), none.halve(3)), (2, 0));
}
