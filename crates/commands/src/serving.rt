//! A whole run: the arguments, then the commands of the standard input until it ends.
use crate::answer::refused_line;
use crate::session::{Counts, answer_line};
use crate::settings::{LexiconChoice, lexicon_named, suite_named};
use crate::text::without_line_feed;
use lexicon::Lexicon;
use lexicon::number_lexicon::NumberLexicon;
use lexicon::word_file::WordFile;
use std::io::{BufRead, BufReader};
use std::{env, fs, io};

/// Answers the commands of the standard input until it ends.
fn serve<L: Lexicon>(rt: &HostRuntime, lexicon: &L) -> io::Result<()> {
    let heap = rt.alloc();
    let mut input = BufReader::new(heap, rt.stdin())?;
    let mut counts = Counts::new();
    // One buffer for all lines: `split` would leave a freed copy of each card's words.
    let mut line = Vec::new(heap);
    // Counted, since an input may never end.
    for _ in 0..u64::MAX {
        line.clear();
        if input.read_until(b'\n', &mut line)? == 0 {
            break;
        }
        let content = without_line_feed(line.as_slice());
        if let Some(answer) = answer_line(heap, lexicon, content)? {
            counts.note(answer.outcome);
            rt.println(answer.text)?;
        }
    }
    rt.println(counts.line(heap)?)
}

/// Answers the commands in the words of the file at `path`.
fn serve_word_file(rt: &HostRuntime, path: &str) -> io::Result<()> {
    let Ok(bytes) = fs::read(rt, path) else {
        return println!(rt; "error: the word file cannot be read");
    };
    match WordFile::new(bytes.as_slice()) {
        Ok(file) => serve(rt, &file),
        Err(refusal) => rt.println(refused_line(rt.alloc(), refusal)?),
    }
}

fn usage(rt: &HostRuntime) -> io::Result<()> {
    println!(rt;
        "error: kit takes LEXICON (numbers or the path of a word file) and SUITE (shop or drill)"
    )
}

/// Carries out the run that the program's arguments ask for.
pub fn run(rt: &HostRuntime) -> io::Result<()> {
    let Ok(mut args) = env::args(rt) else {
        return usage(rt);
    };
    let _program = args.next();
    let (Some(lexicon), Some(suite), None) = (args.next(), args.next(), args.next()) else {
        return usage(rt);
    };
    if suite_named(suite.as_str()).is_none() {
        return usage(rt);
    }
    match lexicon_named(lexicon.as_str()) {
        LexiconChoice::Numbers => serve(rt, &NumberLexicon),
        LexiconChoice::WordFile(path) => serve_word_file(rt, path),
    }
}
