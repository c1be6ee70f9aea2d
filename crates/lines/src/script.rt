// The lines of a script. Assumes nothing.
ghost use Rattle.std.specs.Prelude.{◌≡◌, ◌+◌, ◌<◌, ◌≤◌, ◌∷◌, length, position, ◌==◌};
ghost use Rattle.lines.specs.Text.{first_line, after_line, lines_of};

use memchr::memchr;

// Where the first newline stands.
fn newline_in(text: &[u8]) -> Option<usize>
    ensures { result ≡ position (λ c. c == 10) text.now }
{
    // an empty line isn't worth the search
    match text {
        [b'\n', ..] => Some(0),
        _ => memchr(b'\n', text),
    }
}

// The first line of a text, and the text after its newline.
pub fn first_line(text: &[u8]) -> (&[u8], &[u8])
    ensures line { result.0.now ≡ first_line text.now }
    ensures after { result.1.now ≡ after_line text.now }
    ensures lines { 0 < length text.now → lines_of text.now ≡ result.0.now ∷ lines_of result.1.now }
    ensures parts { length result.0.now + length result.1.now ≤ length text.now }
    ensures shorter { 0 < length text.now → length result.1.now < length text.now }
{
    match newline_in(text) {
        Some(end) => (&text[..end], &text[end + 1..]),
        None => text.split_at(text.len()),
    }
}
