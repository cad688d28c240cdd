use std::alloc::Global;
use std::test::Fail;
use use_words::{WordFault, read_words};

/// Words behind the program's name, and what clap reads: whether commands are shown, whether the run
/// is strict, and the model; or nothing where it refuses them.
type Line = (&'static [&'static str], Option<(bool, bool, &'static str)>);

static LINES: &[Line] = &[
    (&[], None),
    (&["M.use"], Some((false, false, "M.use"))),
    (&["--echo", "M.use"], Some((true, false, "M.use"))),
    (&["--strict", "M.use"], Some((false, true, "M.use"))),
    (
        &["--echo", "--strict", "M.use"],
        Some((true, true, "M.use")),
    ),
    (
        &["--strict", "--echo", "M.use"],
        Some((true, true, "M.use")),
    ),
    (&["M.use", "--echo"], Some((true, false, "M.use"))),
    (&["M.use", "--strict"], Some((false, true, "M.use"))),
    (
        &["M.use", "--echo", "--strict"],
        Some((true, true, "M.use")),
    ),
    (
        &["--echo", "M.use", "--strict"],
        Some((true, true, "M.use")),
    ),
    (&["--echo"], None),
    (&["--strict"], None),
    (&["--echo", "--strict"], None),
    (&["M.use", "M.use"], None),
    (&["M.use", "N.use"], None),
    (&["--echo", "--echo", "M.use"], None),
    (&["--strict", "M.use", "--strict"], None),
    (&["--echo=true", "M.use"], None),
    (&["--echo=", "M.use"], None),
    (&["--strict=no", "M.use"], None),
    (&["--", "M.use"], Some((false, false, "M.use"))),
    (&["--echo", "--", "M.use"], Some((true, false, "M.use"))),
    (&["--", "--echo"], Some((false, false, "--echo"))),
    (&["--", "-"], Some((false, false, "-"))),
    (&["--", "--", "M.use"], None),
    (&["M.use", "--"], Some((false, false, "M.use"))),
    (&["--strict", "M.use", "--", "--echo"], None),
    (&["--"], None),
    (&["-"], Some((false, false, "-"))),
    (&["-e", "M.use"], None),
    (&["-h"], None),
    (&["--help"], None),
    (&["-V"], None),
    (&["--version"], None),
    (&["--ech", "M.use"], None),
    (&["--Echo", "M.use"], None),
    (&["--no-echo", "M.use"], None),
    (&["---", "M.use"], None),
    (&["help"], Some((false, false, "help"))),
    (&[""], Some((false, false, ""))),
    (&["--echo", ""], Some((true, false, ""))),
    (&["M.use", ""], None),
    (&["-echo", "M.use"], None),
    (&["--echo ", "M.use"], None),
    (&["--sample", "5"], None),
];

// What words are read as.
fn asked(alloc: Global, words: &[String]) -> Result<Option<(bool, bool, &str)>, Fail> {
    match read_words(alloc, words) {
        Ok(asked) => Ok(Some((asked.echo, asked.strict, asked.model))),
        Err(WordFault::Usage) => Ok(None),
        Err(WordFault::Memory) => Err(Fail::from(WordFault::Memory)),
    }
}

#[test]
fn words_are_read_as_clap_reads_them(rt: HostRuntime) -> Result<(), Fail> {
    let alloc = rt.alloc();
    for (line, wanted) in LINES.iter() {
        let words = super::words_of(alloc, line)?;
        let read = asked(alloc, &words)?;
        assert_eq!(rt; read, *wanted);
    }
    Ok(())
}
