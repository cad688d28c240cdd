use super::{played_over, words_of};
use std::alloc::Global;
use std::marker::Brand;
use std::sync::ledger::Blank;
use std::test::Fail;
use use_io::MemShelf;
use use_shell::Status;

/// A run over files, of which `M.use` holds a model.
struct Run {
    words: &'static [&'static str],
    files: &'static [(&'static str, &'static str)],
    input: &'static str,
    output: &'static str,
    status: Status,
}

static RUNS: &[Run] = &[
    // A file is played in place, and its places are its own.
    Run {
        words: &["M.use"],
        files: &[("a", "? 1\n\n? nope\n? 2")],
        input: "open a\n? 3\n",
        output: "-> 1 : Integer\nrefused N1 at 3:3: unknown name\n-> 2 : Integer\n-> 3 : Integer\n",
        status: Status::Done,
    },
    Run {
        words: &["M.use"],
        files: &[("a", "? 7\n\\\n? 8\n")],
        input: "open a\n? 2\n",
        output: "-> 7 : Integer\nrefused K2 at 3:1: block is not closed\n-> 2 : Integer\n",
        status: Status::Done,
    },
    // Files in files, at most eight.
    Run {
        words: &["M.use"],
        files: &[("a.cmd", "? 2\nopen a.cmd\n")],
        input: "open a.cmd\n? 3\n",
        output: "-> 2 : Integer\n-> 2 : Integer\n-> 2 : Integer\n-> 2 : Integer\n-> 2 : Integer\n-> 2 : Integer\n-> 2 : Integer\n-> 2 : Integer\nrefused F3 at 2:1: files are open 8 deep\n-> 3 : Integer\n",
        status: Status::Done,
    },
    Run {
        words: &["M.use"],
        files: &[("a", "? 1\nopen b\n? 2\n"), ("b", "? 3\n open none\n? 4")],
        input: "open a\n? 5\n",
        output: "-> 1 : Integer\n-> 3 : Integer\nrefused F1 at 2:2: no such file\n-> 4 : Integer\n-> 2 : Integer\n-> 5 : Integer\n",
        status: Status::Done,
    },
    // Where eight are open, no other is sought.
    Run {
        words: &["M.use"],
        files: &[("a", "open a\nopen none\n")],
        input: "open a\n",
        output: "refused F3 at 1:1: files are open 8 deep\nrefused F3 at 2:1: files are open 8 deep\nrefused F1 at 2:1: no such file\nrefused F1 at 2:1: no such file\nrefused F1 at 2:1: no such file\nrefused F1 at 2:1: no such file\nrefused F1 at 2:1: no such file\nrefused F1 at 2:1: no such file\nrefused F1 at 2:1: no such file\n",
        status: Status::Done,
    },
    // A file that has been played is open no longer.
    Run {
        words: &["M.use"],
        files: &[("a", "? 1\n")],
        input: "open a\nopen a\nopen a\nopen a\nopen a\nopen a\nopen a\nopen a\nopen a\n",
        output: "-> 1 : Integer\n-> 1 : Integer\n-> 1 : Integer\n-> 1 : Integer\n-> 1 : Integer\n-> 1 : Integer\n-> 1 : Integer\n-> 1 : Integer\n-> 1 : Integer\n",
        status: Status::Done,
    },
    // A command that ends the run ends it in a file too.
    Run {
        words: &["M.use"],
        files: &[("a", "? 3\nopen b\n? 4\n"), ("b", "? 5\nexit")],
        input: "? 1\nopen a\n? 2\n",
        output: "-> 1 : Integer\n-> 3 : Integer\n-> 5 : Integer\n",
        status: Status::Done,
    },
    Run {
        words: &["M.use"],
        files: &[],
        input: "? 1\n quit \n? 2\n",
        output: "-> 1 : Integer\n",
        status: Status::Done,
    },
    Run {
        words: &["M.use"],
        files: &[],
        input: "\\\n-- a block\n  quit\n.\n? 2\n",
        output: "",
        status: Status::Done,
    },
    Run {
        words: &["M.use"],
        files: &[],
        input: "quit 1\n? 2\n",
        output: "refused S1 at 1:6: unexpected token\n-> 2 : Integer\n",
        status: Status::Done,
    },
    // Names of files.
    Run {
        words: &["M.use"],
        files: &[("a b", "? 1\n"), (" a", "? 2\n"), ("'a'", "? 3\n")],
        input: "  open  'a b'  \r\nopen ' a'\nopen ''a''\n",
        output: "-> 1 : Integer\n-> 2 : Integer\n-> 3 : Integer\n",
        status: Status::Done,
    },
    Run {
        words: &["M.use"],
        files: &[("'", "? 1\n"), ("'a", "? 2\n"), (".a", "? 3\n")],
        input: "open '\nopen 'a\nopen.a\nopen_a\n",
        output: "-> 1 : Integer\n-> 2 : Integer\n-> 3 : Integer\nrefused S1 at 4:1: unexpected token\n",
        status: Status::Done,
    },
    Run {
        words: &["M.use"],
        files: &[],
        input: "open\n open ''\n",
        output: "refused S1 at 1:1: unexpected token\nrefused S1 at 2:2: unexpected token\n",
        status: Status::Done,
    },
    Run {
        words: &["M.use"],
        files: &[("a\nb", "? 8\n")],
        input: "\\\n\n  open a\nb\n.\n\\\n\n\n open none\n.\n",
        output: "-> 8 : Integer\nrefused F1 at 9:2: no such file\n",
        status: Status::Done,
    },
    // Commands that are shown.
    Run {
        words: &["--echo", "M.use"],
        files: &[("a", "? 1\nopen b\nopen c\n"), ("b", "? 3\n\\\n?\n4\n.\n")],
        input: "open a\n? 9\n",
        output: "use> open a\nuse> ? 1\n-> 1 : Integer\nuse> open b\nuse> ? 3\n-> 3 : Integer\nuse> ?\nuse> 4\n-> 4 : Integer\nuse> open c\nrefused F1 at 3:1: no such file\nuse> ? 9\n-> 9 : Integer\n",
        status: Status::Done,
    },
    Run {
        words: &["M.use", "--echo"],
        files: &[],
        input: "\\\n? 1\n  + 2\n.\n\n-- no command\n\\\n.\n\\\n\n.\n\\\n? 1\n",
        output: "use> ? 1\nuse>   + 2\n-> 3 : Integer\nuse> \nuse> \nuse> ? 1\nrefused K2 at 13:1: block is not closed\n",
        status: Status::Done,
    },
    Run {
        words: &["--echo", "M.use"],
        files: &[],
        input: "? 1\nquit\n? 2",
        output: "use> ? 1\n-> 1 : Integer\nuse> quit\n",
        status: Status::Done,
    },
    // A refusal is told by the status.
    Run {
        words: &["--strict", "M.use"],
        files: &[("a", "? nope\n")],
        input: "open a\n",
        output: "refused N1 at 1:3: unknown name\n",
        status: Status::Strict,
    },
    Run {
        words: &["M.use", "--strict"],
        files: &[],
        input: "open a\nquit\n",
        output: "refused F1 at 1:1: no such file\n",
        status: Status::Strict,
    },
    Run {
        words: &["--strict", "M.use"],
        files: &[],
        input: "? 1\nquit\n? nope\n",
        output: "-> 1 : Integer\n",
        status: Status::Done,
    },
];

/// A shelf that holds a model and these files.
pub fn shelf_with(alloc: Global, files: &[(&str, &str)]) -> Result<MemShelf, Fail> {
    let mut held = Vec::new(alloc);
    held.push((String::from_str(alloc, "M.use")?, b"model E".to_vec(alloc)?))?;
    for (name, text) in files {
        held.push((
            String::from_str(alloc, name)?,
            text.as_bytes().to_vec(alloc)?,
        ))?;
    }
    Ok(MemShelf::new(held))
}

#[test]
fn files_are_played_in_place(rt: HostRuntime) -> Result<(), Fail> {
    let alloc = rt.alloc();
    for r in RUNS.iter() {
        for piece in 1..5 {
            let words = words_of(alloc, r.words)?;
            let shelf = shelf_with(alloc, r.files)?;
            let input = r.input.as_bytes().to_vec(alloc)?;
            let (out, status) = played_over::<Brand>(
                alloc,
                &words,
                shelf,
                input,
                piece,
                Blank::new(1),
            )?;
            assert_eq!(rt; out.as_slice(), r.output.as_bytes(), "in pieces of {piece}");
            assert_eq!(rt; status, r.status, "in pieces of {piece}");
        }
    }
    Ok(())
}

#[test]
fn a_file_has_at_most_4_mib(rt: HostRuntime) -> Result<(), Fail> {
    let alloc = rt.alloc();
    for (more, output) in [
        (0, "-> 1 : Integer\n"),
        (1, "refused F2 at 1:1: file is too long\n-> 1 : Integer\n"),
    ] {
        let words = words_of(alloc, &["M.use"])?;
        let name = String::from_str(alloc, "M.use")?;
        let long = String::from_str(alloc, "long")?;
        let text = vec![in alloc; b'\n'; 4_194_304 + more]?;
        let files = vec![in alloc; (name, b"model E".to_vec(alloc)?), (long, text)]?;
        let (out, status) = played_over::<Brand>(
            alloc,
            &words,
            MemShelf::new(files),
            b"open long\n? 1\n".to_vec(alloc)?,
            4096,
            Blank::new(1),
        )?;
        assert_eq!(rt; out.as_slice(), output.as_bytes());
        assert_eq!(rt; status, Status::Done);
    }
    Ok(())
}
