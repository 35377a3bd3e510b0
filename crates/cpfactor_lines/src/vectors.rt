//! Vectors behind a line.

ghost use Rattle.std.specs.Prelude.{◌++◌};
ghost use Rattle.cpfactor_lines.specs.Sinks.{IsPut, sink_shown};
ghost use Rattle.cpfactor_lines.specs.Texts.{vectors_text};

use crate::line::{Word, push_line};
use crate::listing::put_listed;
use cp_outside::{PutEnd, Sink};
use symmetric_matrix::VectorList;

/// Writes the line that counts some vectors, and the line of each; they are made in `text`.
fn put_vectors<K: Sink>(text: &mut Vec<u8>, sink: &mut K, vectors: &VectorList) -> PutEnd
    ensures { IsPut (vectors_text vectors.now) (sink_shown K.Sink sink.old sink.new) result }
{
    text.clear();
    let words = [Word::Text(b"vectors"), Word::Whole(vectors.len() as u64)];
    match push_line(text, &words) {
        Ok(()) => put_listed(text, sink, vectors),
        Err(_) => PutEnd::OutOfMemory,
    }
}

/// Writes a text, and then some vectors: the line that counts them, and the line of each.
pub fn put_with_vectors<K: Sink>(text: &mut Vec<u8>, sink: &mut K, vectors: &VectorList) -> PutEnd
    ensures { IsPut (text.old.items ++ vectors_text vectors.now) (sink_shown K.Sink sink.old sink.new) result }
{
    match sink.put(text) {
        PutEnd::Done => put_vectors(text, sink, vectors),
        end => end,
    }
}
