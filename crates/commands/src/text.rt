//! Lines as bytes.
ghost use Rattle.std.specs.Prelude.{◌≡◌, ◌∷◌, ◌==◌, position};
ghost use Rattle.std.specs.Option.{option_map};
ghost use Rattle.commands.specs.Arguments.{separated, texts_in};
ghost use Rattle.commands.specs.Lines.{content_of, name_of, rest_of};

/// A line as it was read, without the line feed at its end if it has one.
pub fn without_line_feed(line: &[u8]) -> &[u8]
    ensures { result.now ≡ content_of line.now }
{
    line.strip_suffix(b"\n").unwrap_or(line)
}

/// Where the first space stands.
fn first_space(line: &[u8]) -> Option<usize>
    ensures { result ≡ position (λ b. b == 32) line.now }
{
    line.iter().position(|b| *b == b' ')
}

/// What stands before the first space of a line, and after it if there is one.
pub(crate) fn cut(line: &[u8]) -> (&[u8], Option<&[u8]>)
    ensures name { result.0.now ≡ name_of line.now }
    ensures rest { option_map (λ x. x.now) result.1 ≡ rest_of line.now }
    ensures texts { separated line.now ≡ result.0.now ∷ texts_in (option_map (λ x. x.now) result.1) }
{
    match first_space(line) {
        Some(end) => (&line[..end], Some(&line[end + 1..])),
        None => (line, None),
    }
}
