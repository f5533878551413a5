//! The text of a card: a line cut into words and a remark.
ghost use Rattle.std.specs.Prelude.{◌≡◌, ◌≤◌, length, None};
ghost use Rattle.reader.specs.Line.{class_of, first_forbidden, Gives};

/// What the reader is in, from one byte to the next: a word or a remark with its offset.
#[derive(Clone, Copy, PartialEq, Eq, Debug)]
pub enum State {
    Between,
    InWord { start: usize },
    InRemark { start: usize },
}

/// What a byte is to the reader.
#[derive(Clone, Copy, PartialEq, Eq, Debug)]
pub enum Class {
    /// A space or a tab parts words.
    Blank,
    /// A # opens the remark.
    Hash,
    /// a to z and 0 to 9 make words.
    Letter,
    /// Any other byte is allowed in the remark alone.
    Forbidden,
}

impl Class {
    // Not `From`: a byte is judged here, and not converted.
    pub fn of(byte: u8) -> Class
        ensures { result ≡ class_of byte }
    {
        match byte {
            b' ' | b'\t' => Class::Blank,
            b'#' => Class::Hash,
            b'a'..=b'z' | b'0'..=b'9' => Class::Letter,
            _ => Class::Forbidden,
        }
    }
}

/// Where the first byte stands that is forbidden before the remark.
pub fn first_forbidden(line: &[u8]) -> Option<usize>
    ensures { result ≡ first_forbidden 0 line.now }
{
    // A loop: of `map`, `take_while` and `position` together the check finds no proof.
    for (i, byte) in line.iter().enumerate() {
        match Class::of(*byte) {
            Class::Hash => return None,
            Class::Forbidden => return Some(i),
            Class::Blank | Class::Letter => {}
        }
    }
    None
}

/// A part of a line, with its offset. Words and the remark are parts of the line itself.
#[derive(Clone, Copy)]
pub enum Token<'a> {
    Word { offset: usize, text: &'a [u8] },
    Remark { offset: usize, text: &'a [u8] },
    End { offset: usize },
}

/// Gives the tokens of a line one after the other.
#[derive(Drop)]
pub struct Tokens<'a> {
    line: &'a [u8],
    position: usize,
    ghost within: { position ≤ length line.now },
}

impl<'a> Tokens<'a> {
    pub fn new(line: &'a [u8]) -> Tokens<'a>
        ensures { (result.position ≡ 0) × (result.line.now ≡ line.now) }
    {
        Tokens { line, position: 0 }
    }

    /// The next token; after the end, the end again.
    pub fn next_token(&mut self) -> Token<'a>
        ensures same { self.new.line.now ≡ self.old.line.now }
        ensures gives { Gives self.old.line.now self.old.position result self.new.position }
    {
        let line = self.line;
        let mut state = State::Between;
        // Over the rest of the line: `skip` would leave the loop's invariant no index.
        let from = self.position;
        let mut end = line.len();
        for (k, byte) in line[from..].iter().enumerate() {
            let i = from + k;
            state = match (state, Class::of(*byte)) {
                (State::Between, Class::Blank) => State::Between,
                (State::Between, Class::Hash) => State::InRemark { start: i },
                (State::Between, Class::Letter) | (State::Between, Class::Forbidden) => {
                    State::InWord { start: i }
                }
                // Two arms: a pattern with `|` that binds `start` tells a proof nothing of it.
                (State::InWord { start }, Class::Letter) => State::InWord { start },
                (State::InWord { start }, Class::Forbidden) => State::InWord { start },
                (State::InWord { .. }, Class::Blank) | (State::InWord { .. }, Class::Hash) => {
                    end = i;
                    break;
                }
                (State::InRemark { start }, _) => State::InRemark { start },
            };
        }
        self.position = end;
        match state {
            State::Between => Token::End { offset: end },
            State::InWord { start } => Token::Word {
                offset: start,
                text: &line[start..end],
            },
            State::InRemark { start } => Token::Remark {
                offset: start,
                text: &line[start..end],
            },
        }
    }
}
