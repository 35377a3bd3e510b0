//! Writing a text line by line.

ghost use Rattle.std.specs.Prelude.{◌≡◌, ◌≤◌, ◌++◌, [], length, MatchOption, position};
ghost use Rattle.text_lines.specs.Lines.{is_line_feed};
ghost use Rattle.cpfactor_lines.specs.Sinks.{IsPut, sink_shown};

use cp_outside::{PutEnd, Sink};

/// Where the first line feed of a text stands.
pub fn line_feed(text: &[u8]) -> Option<usize>
    ensures { result ≡ position is_line_feed text.now }
{
    text.iter().position(|byte| *byte == b'\n')
}

/// The first line of a text with its line feed, and what follows it.
fn first_line(text: &[u8]) -> Option<(&[u8], &[u8])>
    ensures parts { MatchOption result (text.now ≡ []) (λ x. text.now ≡ x.0.now ++ x.1.now) }
    ensures some { MatchOption result (Unit {0}) (λ x. 1 ≤ length x.0.now) }
{
    if text.is_empty() {
        return None;
    }
    match line_feed(text) {
        Some(end) => Some((&text[..end + 1], &text[end + 1..])),
        None => Some((text, &[])),
    }
}

/// Writes a text line by line: each line with its line feed is one put.
pub fn put_lines<K: Sink>(text: &[u8], sink: &mut K) -> PutEnd
    ensures { IsPut text.now (sink_shown K.Sink sink.old sink.new) result }
{
    let mut rest = text;
    while let Some((line, more)) = first_line(rest) {
        match sink.put(line) {
            PutEnd::Done => rest = more,
            stopped => return stopped,
        }
    }
    PutEnd::Done
}
