//! The commands, one to a line.
ghost use Rattle.std.specs.Prelude.{◌≡◌};
ghost use Rattle.commands.specs.Commands.{meaning, is_blank, is_comment, verb_of, request_of};

use crate::text::cut;

/// The name of a command.
#[derive(Clone, Copy)]
pub enum Verb {
    Read,
    Write,
}

/// What one line of the input asks for.
// No `Option` and no `Result` in it: each case has a name that tells what the line asks for.
#[derive(Clone, Copy)]
pub enum Command<'a> {
    /// Nothing: the line is blank or a comment.
    Nothing,
    /// To read the card of this line.
    Read(&'a [u8]),
    /// To write the card of these arguments.
    Write(&'a [u8]),
    /// A command of this name, with arguments that it does not take.
    Malformed(Verb),
    /// A command that there is not.
    Unknown,
}

/// Nothing but spaces and tabs.
fn is_blank(line: &[u8]) -> bool
    ensures { result ≡ is_blank line.now }
{
    line.iter().all(|b| *b == b' ' || *b == b'\t')
}

fn is_comment(line: &[u8]) -> bool
    ensures { result ≡ is_comment line.now }
{
    line.starts_with(b"#")
}

/// The command of this name, if there is one.
// Not `TryFrom`: there is nothing to say of a name that there is not.
fn verb_named(name: &[u8]) -> Option<Verb>
    ensures { result ≡ verb_of name.now }
{
    match name {
        b"read" => Some(Verb::Read),
        b"write" => Some(Verb::Write),
        _ => None,
    }
}

/// What a line, without its line feed, asks for.
pub fn parse(line: &[u8]) -> Command<'_>
    ensures { meaning result ≡ request_of line.now }
{
    if is_blank(line) || is_comment(line) {
        return Command::Nothing;
    }
    let (name, rest) = cut(line);
    let Some(verb) = verb_named(name) else {
        return Command::Unknown;
    };
    match (verb, rest) {
        (_, None) => Command::Malformed(verb),
        (Verb::Read, Some(card)) => Command::Read(card),
        (Verb::Write, Some(arguments)) => Command::Write(arguments),
    }
}
