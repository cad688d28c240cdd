ghost use Rattle.std.specs.Prelude.{◌≡◌, ◌+◌, ◌≤◌, ◌<◌, length};
ghost use Rattle.use_text.specs.Limits.{max_lines, max_text};

use std::alloc::{AllocError, Global};
use std::test::Fail;
use use_text::TokenKind::*;
use use_text::*;

// The tokens of a text as `KIND START..END LINE:COL`, or its refusal as `CODE at LINE:COL`.
fn tokens_shown(alloc: Global, text: &[u8], first_line: u32) -> Result<String, Fail>
    requires text { length text.now ≤ max_text }
    requires line { first_line ≤ max_lines }
{
    match lex(alloc, text, first_line) {
        Ok(tokens) => {
            let mut shown = String::new(alloc);
            for token in tokens.as_slice() {
                let Token {
                    kind,
                    start,
                    end,
                    place,
                } = *token;
                shown.push_str(&format!(in alloc; "{kind} {start}..{end} {place} ")?)?;
            }
            Ok(shown)
        }
        Err(LexFault::Bad(refusal)) => Ok(format!(in alloc;
            "{} at {}",
            refusal.code, refusal.place
        )?),
        Err(LexFault::Memory) => Ok(String::from_str(alloc, "memory")?),
    }
}

// The kinds of a text's tokens, but the last, which is `End`.
fn kinds(alloc: Global, text: &str) -> Result<Vec<u16>, Fail>
    requires { length text.now ≤ max_text }
{
    let mut kinds = Vec::new(alloc);
    let Ok(tokens) = lex(alloc, text.as_bytes(), 1) else {
        return Ok(kinds);
    };
    for token in tokens.as_slice() {
        kinds.push(token.kind)?;
    }
    Ok(kinds)
}

#[test]
fn tokens_have_kinds_and_places(rt: HostRuntime) -> Result<(), Fail> {
    let alloc = rt.alloc();
    for (text, want) in [
        ("", "0 0..0 7:1 "),
        (" -- a\n", "0 0..0 7:1 "),
        ("a\n  12 -- b", "1 0..1 7:1 2 4..6 8:3 0 6..6 8:5 "),
        ("/* x\n*/ é", "L2 at 8:4"),
        ("'é'x", "3 0..4 7:1 1 4..5 7:5 0 5..5 7:6 "),
    ] {
        let shown = tokens_shown(alloc, text.as_bytes(), 7)?;
        assert_eq!(rt; shown.as_str(), want, "at {text}");
    }
    Ok(())
}

#[test]
fn each_kind_is_read(rt: HostRuntime) -> Result<(), Fail> {
    let alloc = rt.alloc();
    for (text, want) in [
        (
            "( ) { } [ ]",
            [
                LeftParen,
                RightParen,
                LeftBrace,
                RightBrace,
                LeftBracket,
                RightBracket,
            ]
            .as_slice(),
        ),
        (
            ", ; : :: :=",
            [Comma, Semicolon, Colon, DoubleColon, Assign].as_slice(),
        ),
        (". .. -> - --", [Dot, DoubleDot, Arrow, Minus].as_slice()),
        (
            "< <= <> > >= =",
            [Less, LessEqual, NotEqual, Greater, GreaterEqual, Equal].as_slice(),
        ),
        (
            "+ * | # ! ? @pre",
            [Plus, Star, Bar, Hash, Bang, Question, AtPre].as_slice(),
        ),
        (
            "...::=<>=",
            [DoubleDot, Dot, DoubleColon, Equal, NotEqual, Equal].as_slice(),
        ),
        (
            "end endif ending End _1",
            [EndWord, Endif, Name, Name, Name].as_slice(),
        ),
        (
            "Set set setx OrderedSet",
            [Set, SetWord, Name, OrderedSet].as_slice(),
        ),
        (
            "abstract xor check view Undefined",
            [Abstract, Xor, Check, View, Undefined].as_slice(),
        ),
        (
            "12ab 'a''b' '\\'\\\\' @pre+",
            [Int, Name, Str, Str, Str, AtPre, Plus].as_slice(),
        ),
        (
            "a/* */b/***/c//d\n/**/e",
            [Name, Name, Name, Name].as_slice(),
        ),
        ("170141183460469231731687303715884105727", [Int].as_slice()),
    ] {
        let found = kinds(alloc, text)?;
        assert_eq!(rt; found.len(), want.len() + 1, "at {text}");
        for (kind, wanted) in found.iter().zip(want.iter()) {
            assert_eq!(rt; *kind, wanted.number(), "at {text}");
        }
    }
    Ok(())
}

#[test]
fn each_word_has_a_kind_of_its_own(rt: HostRuntime) -> Result<(), Fail> {
    let alloc = rt.alloc();
    let words = "abstract aggregation and association attributes Bag begin between class \
        composition constraints context declare delete destroy div do else end endif enum false \
        for from if implies in insert into inv invalid let mod model new not null operations or \
        ordered OrderedSet post pre role Sequence Set then true Undefined while xor \
        check create exit info open opexit openter quit redo reset set undo view";
    let found = kinds(alloc, words)?;
    assert_eq!(rt; found.len(), 65);
    let first = Abstract.number() as usize;
    for (at, kind) in found.iter().enumerate() {
        let wanted = if at < 64 { first + at } else { 0 };
        assert_eq!(rt; *kind as usize, wanted);
    }
    for (at, word) in [(6, Begin), (50, Xor), (63, View)] {
        assert_eq!(rt; found.get(at).copied(), Some(word.number()));
    }
    for text in ["Abstract", "bag", "SET", "ends", "_end", "undefined"] {
        assert_eq!(rt;
            kinds(alloc, text)?.first().copied(),
            Some(Name.number()),
            "at {text}"
        );
    }
    Ok(())
}

#[test]
fn strings_stand_for_their_characters(rt: HostRuntime) -> Result<(), Fail> {
    let alloc = rt.alloc();
    for (quoted, want) in [
        ("''", ""),
        ("'a b'", "a b"),
        ("'it\\'s'", "it's"),
        ("'\\n\\t\\\\\\x'", "\n\t\\x"),
        ("'\\é'", "é"),
    ] {
        let value = string_of_quoted(alloc, quoted.as_bytes())?;
        assert_eq!(rt; value.as_slice(), want.as_bytes(), "at {quoted}");
    }
    tokens_are_the_lexemes();
    Ok(())
}

#[test]
fn what_is_no_token_is_refused(rt: HostRuntime) -> Result<(), Fail> {
    let alloc = rt.alloc();
    for (text, want) in [
        (b"a $".as_slice(), "L2 at 1:3"),
        (b"@prex".as_slice(), "L2 at 1:1"),
        (b"@pr".as_slice(), "L2 at 1:1"),
        (b"@".as_slice(), "L2 at 1:1"),
        (b"*/".as_slice(), "L2 at 1:2"),
        (b"1 / 2".as_slice(), "L2 at 1:3"),
        (
            b"x\n 170141183460469231731687303715884105728".as_slice(),
            "L3 at 2:2",
        ),
        (b"'a\n'".as_slice(), "L4 at 1:1"),
        (b" 'a".as_slice(), "L4 at 1:2"),
        (b"'a\\".as_slice(), "L4 at 1:1"),
        (b"'a\\\n'".as_slice(), "L4 at 1:1"),
        (b"/*/".as_slice(), "L4 at 1:1"),
        (b"a /* * /\n".as_slice(), "L4 at 1:3"),
        (b"$ \xff".as_slice(), "L1 at 1:3"),
        (b"a\n'\xc3(".as_slice(), "L1 at 2:2"),
    ] {
        let shown = tokens_shown(alloc, text, 1)?;
        assert_eq!(rt; shown.as_str(), want);
    }
    Ok(())
}

#[test]
fn names_have_at_most_64_bytes(rt: HostRuntime) -> Result<(), Fail> {
    let alloc = rt.alloc();
    let name = vec![in alloc; b'a'; 65]?;
    let shown = tokens_shown(alloc, &name[..64], 1)?;
    assert_eq!(rt; shown.as_str(), "1 0..64 1:1 0 64..64 1:65 ");
    let shown = tokens_shown(alloc, &name, 1)?;
    assert_eq!(rt; shown.as_str(), "L5 at 1:1");
    Ok(())
}

#[test]
fn codes_have_texts(rt: HostRuntime) -> Result<(), Fail> {
    let alloc = rt.alloc();
    for (family, number, want) in [
        (Family::K, 2, "refused K2 at 3:4: block is not closed"),
        (
            Family::X,
            12,
            "refused X12 at 3:4: value is invalid or holds a destroyed object",
        ),
        (Family::V, 1, "refused V1 at 3:4: no such view"),
        (Family::M, 19, "refused M19 at 3:4: "),
    ] {
        let refusal = Refusal {
            code: Code { family, number },
            place: Place { line: 3, col: 4 },
        };
        let mut out = Vec::new(alloc);
        refusal.append_to(&mut out)?;
        assert_eq!(rt; format!(in alloc; "{refusal}")?.as_str(), want);
        assert_eq!(rt; out.as_slice(), want.as_bytes());
    }
    assert_eq!(rt; text_of(Code::L4), "string or comment is not closed");
    Ok(())
}

// The commands of a stream that comes in two pieces, each as `LINE FATE TEXT;`.
fn cuts_shown(alloc: Global, first: &[u8], second: &[u8]) -> Result<String, Fail>
    requires { length first.now + length second.now ≤ max_lines }
{
    let mut cutter = Cutter::new(alloc);
    cutter.feed(first)?;
    cutter.feed(second)?;
    let mut shown = String::new(alloc);
    'cuts: while let Some(cut) = cutter.next() {
        push_shown(&mut shown, alloc, &cut)?;
    }
    if let Some(cut) = cutter.finish() {
        push_shown(&mut shown, alloc, &cut)?;
    }
    Ok(shown)
}

// The same of a stream that comes byte by byte. Each command is taken as soon as it has ended.
fn cuts_of_bytes(alloc: Global, stream: &[u8]) -> Result<String, Fail>
    requires { length stream.now ≤ max_lines }
{
    let mut cutter = Cutter::new(alloc);
    let mut shown = String::new(alloc);
    'bytes: for i in 0..stream.len() {
        cutter.feed(&stream[i..i + 1])?;
        'cuts: while let Some(cut) = cutter.next() {
            push_shown(&mut shown, alloc, &cut)?;
            cutter.take_back(cut);
        }
    }
    if let Some(cut) = cutter.finish() {
        push_shown(&mut shown, alloc, &cut)?;
    }
    Ok(shown)
}

fn push_shown(shown: &mut String, alloc: Global, cut: &Cut) -> Result<(), Fail> {
    let Cut {
        text,
        first_line,
        fate,
    } = cut;
    let bytes = text.as_slice();
    let text = match str::from_utf8(bytes) {
        Ok(text) => text,
        Err(_) => "?",
    };
    shown.push_str(&format!(in alloc; "{first_line} {fate:?} {text};")?)?;
    Ok(())
}

#[test]
fn every_split_gives_the_same_commands(rt: HostRuntime) -> Result<(), Fail> {
    let alloc = rt.alloc();
    for (stream, want) in [
        ("", ""),
        (
            " \t\r\n-- a\n  // b\n/ c\r\n? 1",
            "4 Whole / c\r;5 Whole ? 1;",
        ),
        (
            "\\\n.\n \\ \na\n\n-- b\n..\n . \n\\ x\n.\n",
            "2 Whole ;4 Whole a\n\n-- b\n..;9 Whole \\ x;10 Whole .;",
        ),
        ("a\n\\", "1 Whole a;3 Unfinished ;"),
        ("\\\nb\n", "2 Unfinished b;"),
        ("\\\nb\n c", "2 Unfinished b\n c;"),
        ("\\\nb\n .", "2 Whole b;"),
    ] {
        let stream = stream.as_bytes();
        for at in 0..stream.len() + 1 {
            let shown = cuts_shown(alloc, &stream[..at], &stream[at..])?;
            assert_eq!(rt; shown.as_str(), want, "split at {at}");
        }
        let shown = cuts_of_bytes(alloc, stream)?;
        assert_eq!(rt; shown.as_str(), want, "byte by byte");
    }
    Ok(())
}

#[test]
fn commands_have_at_most_65536_bytes(rt: HostRuntime) -> Result<(), Fail> {
    let alloc = rt.alloc();
    for (before, length, behind, fate) in [
        ("", 65535, "", Fate::Whole),
        ("", 65536, "\n", Fate::Whole),
        ("", 65536, "\r\n", Fate::TooLong),
        (" ", 65536, "\n", Fate::TooLong),
        ("", 65537, "\n", Fate::TooLong),
        ("\\\n", 65536, "\n.\n", Fate::Whole),
        ("\\\n\n", 65536, "\n.\n", Fate::TooLong),
        ("\\\n", 65536, "\n", Fate::Unfinished),
        ("\\\n", 65537, "\n", Fate::TooLong),
    ] {
        let line = vec![in alloc; b'?'; length]?;
        let cut = only_cut(alloc, before.as_bytes(), &line, behind.as_bytes())?;
        let kept = if fate == Fate::TooLong { 0 } else { length };
        assert!(rt;
            cut.is_some_and(|c| c.fate == fate && c.text.len() == kept),
            "at {length}"
        );
    }
    Ok(())
}

#[test]
fn lines_without_a_command_have_any_length(rt: HostRuntime) -> Result<(), Fail> {
    let alloc = rt.alloc();
    for (count, behind, want) in [
        (70000, "", ""),
        (70000, "\n?", "2 Whole ?;"),
        (70000, "--'\n?", "2 Whole ?;"),
        (70000, "// $\r\n?", "2 Whole ?;"),
        (70000, "\\\n?\n.", "2 Whole ?;"),
        (70000, "?\n?", "1 TooLong ;2 Whole ?;"),
    ] {
        let blanks = vec![in alloc; b' '; count]?;
        let shown = cuts_shown(alloc, &blanks, behind.as_bytes())?;
        assert_eq!(rt; shown.as_str(), want);
    }
    Ok(())
}

// The first command of a stream that comes in three pieces.
fn only_cut(
    alloc: Global,
    first: &[u8],
    second: &[u8],
    third: &[u8],
) -> Result<Option<Cut>, AllocError>
    requires { length first.now + length second.now + length third.now ≤ max_lines }
{
    let mut cutter = Cutter::new(alloc);
    cutter.feed(first)?;
    cutter.feed(second)?;
    cutter.feed(third)?;
    match cutter.next() {
        Some(cut) => Ok(Some(cut)),
        None => Ok(cutter.finish()),
    }
}
