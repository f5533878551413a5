//! The answers to commands, and how many there were.
ghost use Rattle.std.specs.Prelude.{◌≡◌, Ok, IfOk, MatchResult, string_bytes};
ghost use Rattle.std.specs.Fn.{FnOnceReturnsAt};
ghost use Rattle.reader.specs.Reading.{reading};
ghost use Rattle.commands.specs.Arguments.{separated, fields_from};
ghost use Rattle.commands.specs.Commands.{meaning, request_of};
ghost use Rattle.commands.specs.declared.session.Outcome.TheVariants.{Done};
ghost use Rattle.commands.specs.Session.{RefusedAnswer, ReadAnswer, WriteAnswer, ErrorAnswer, Responds, noted, done_text, done_line};

use crate::answer::{card_line, refused_line, text_line};
use crate::arguments::card_parts;
use crate::command::{Command, Verb, parse};
use lexicon::Lexicon;
use reader::card::Card;
use reader::reading::read_card;
use refusal::Refusal;
use std::alloc::{AllocError, Global};

/// How a command ended.
#[derive(Clone, Copy)]
pub enum Outcome {
    /// It was done.
    Done,
    /// The kit refused.
    Refused,
    /// The line was no command, so that nothing was asked of the kit.
    Error,
}

/// The line that answers a command.
#[derive(Drop)]
pub struct Answer {
    pub outcome: Outcome,
    pub text: String,
}

/// How many commands ended in each way.
#[derive(Clone, Copy, Default)]
pub struct Counts {
    done: u64,
    refused: u64,
    errors: u64,
}

impl Counts {
    pub fn new() -> Counts
        ensures { result ≡ record { done = 0; refused = 0; errors = 0 } }
    {
        Counts::default()
    }

    /// Counts one command more.
    pub fn note(&mut self, outcome: Outcome)
        ensures { self.new ≡ noted outcome self.old }
    {
        match outcome {
            Outcome::Done => self.done = self.done.saturating_add(1),
            Outcome::Refused => self.refused = self.refused.saturating_add(1),
            Outcome::Error => self.errors = self.errors.saturating_add(1),
        }
    }

    /// The last line of the output.
    pub fn line(&self, heap: Global) -> Result<String, AllocError>
        ensures { IfOk result (λ s. string_bytes s ≡ done_line self.now) }
    {
        done_line(
            heap,
            self.done.saturating_add(self.refused),
            self.refused,
            self.errors,
        )
    }
}

fn done_line(heap: Global, answered: u64, refused: u64, errors: u64) -> Result<String, AllocError>
    ensures { IfOk result (λ s. string_bytes s ≡ done_text answered refused errors) }
{
    format!(in heap;
        "done: {answered} commands answered, {refused} of them refused, {errors} errors"
    )
}

/// How a command is used, for a person.
fn usage(verb: Verb) -> &'static str {
    match verb {
        Verb::Read => "read takes one space and then the line of a card",
        Verb::Write =>
            "write takes the nine fields of a card, each in its range, with one space between",
    }
}

fn error_answer(heap: Global, message: &str) -> Result<Answer, AllocError>
    ensures { IfOk result ErrorAnswer }
{
    Ok(Answer {
        outcome: Outcome::Error,
        text: format!(in heap; "error: {message}")?,
    })
}

fn refused_answer(heap: Global, refusal: Refusal) -> Result<Answer, AllocError>
    ensures { IfOk result (RefusedAnswer refusal) }
{
    Ok(Answer {
        outcome: Outcome::Refused,
        text: refused_line(heap, refusal)?,
    })
}

fn malformed_answer(heap: Global, verb: Verb) -> Result<Answer, AllocError>
    ensures { IfOk result ErrorAnswer }
{
    error_answer(heap, usage(verb))
}

/// What `show` makes of the card, or the refusal.
fn card_answer<F: FnOnce(&Card) -> Result<String, AllocError>>(
    heap: Global,
    res: Result<Card, Refusal>,
    show: F,
) -> Result<Answer, AllocError>
    requires { F.IsAlwaysCallable show }
    ensures { IfOk result (λ a. MatchResult res (λ card. (a.outcome ≡ Done) × FnOnceReturnsAt F.FnOnce show card (Ok a.text)) (λ refusal. RefusedAnswer refusal a)) }
{
    match res {
        Ok(card) => Ok(Answer {
            outcome: Outcome::Done,
            text: show(&card)?,
        }),
        Err(refusal) => refused_answer(heap, refusal),
    }
}

fn read_answer<L: Lexicon>(heap: Global, lexicon: &L, line: &[u8]) -> Result<Answer, AllocError>
    ensures { IfOk result (ReadAnswer (reading (L.words lexicon.now) line.now)) }
{
    card_answer(heap, read_card(lexicon, line), |card| card_line(heap, card))
}

fn write_answer<L: Lexicon>(
    heap: Global,
    lexicon: &L,
    arguments: &[u8],
) -> Result<Answer, AllocError>
    ensures { IfOk result (WriteAnswer (L.words lexicon.now) (fields_from (separated arguments.now))) }
{
    let Some(parts) = card_parts(arguments) else {
        return malformed_answer(heap, Verb::Write);
    };
    card_answer(
        heap,
        Card::try_from(parts),
        |card| text_line(heap, lexicon, card),
    )
}

/// Carries out a command.
fn respond<L: Lexicon>(
    heap: Global,
    lexicon: &L,
    command: Command<'_>,
) -> Result<Option<Answer>, AllocError>
    ensures { IfOk result (Responds (L.words lexicon.now) (meaning command.entry)) }
{
    let answer = match command {
        Command::Nothing => return Ok(None),
        Command::Read(line) => read_answer(heap, lexicon, line)?,
        Command::Write(arguments) => write_answer(heap, lexicon, arguments)?,
        Command::Malformed(verb) => malformed_answer(heap, verb)?,
        Command::Unknown => error_answer(heap, "there is no such command")?,
    };
    Ok(Some(answer))
}

/// Carries out what a line, without its line feed, asks for: its answer, unless it asks for nothing.
pub fn answer_line<L: Lexicon>(
    heap: Global,
    lexicon: &L,
    line: &[u8],
) -> Result<Option<Answer>, AllocError>
    ensures { IfOk result (Responds (L.words lexicon.now) (request_of line.now)) }
{
    respond(heap, lexicon, parse(line))
}
