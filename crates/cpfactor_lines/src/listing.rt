//! Lists that an answer writes line by line.

ghost use Rattle.std.specs.Prelude.{◌≡◌, ◌<◌, ◌++◌, ℕ, List, [], length, map, OnOk, slice_index_or};
ghost use Rattle.std.specs.List.{flat_map};
ghost use Rattle.cpfactor_lines.specs.Texts.{vector_line};
ghost use Rattle.cpfactor_lines.specs.Sinks.{IsPut, sink_shown};

use crate::line::push_line_of;
use cp_outside::{PutEnd, Sink};
use std::alloc::AllocError;
use symmetric_matrix::VectorList;

/// A list of which each item has its line. `lines` are these lines.
pub trait Listing {
    ghost lines: { Self → List (List ℕ) };

    /// How many items there are.
    fn count(&self) -> usize
        ensures { result ≡ length (lines self.now) };

    /// Appends the line of the item at an index, from 0. It is refused for want of memory alone.
    fn push_item(&self, k: usize, into: &mut Vec<u8>) -> Result<(), AllocError>
        requires { k < length (lines self.now) }
        ensures { OnOk result (into.new.items ≡ into.old.items ++ slice_index_or (lines self.now) k []) };
}

impl Listing for VectorList {
    ghost lines = { λ vectors. map vector_line vectors };

    fn count(&self) -> usize {
        self.len()
    }

    fn push_item(&self, k: usize, into: &mut Vec<u8>) -> Result<(), AllocError> {
        push_line_of(into, &[], self.at(k).as_slice())
    }
}

/// Writes the line of an item, which is made in `text`.
fn put_item<L: Listing, K: Sink>(text: &mut Vec<u8>, sink: &mut K, list: &L, k: usize) -> PutEnd
    requires { k < length (L.lines list.now) }
    ensures { IsPut (slice_index_or (L.lines list.now) k []) (sink_shown K.Sink sink.old sink.new) result }
{
    text.clear();
    match list.push_item(k, text) {
        Ok(()) => sink.put(text),
        Err(_) => PutEnd::OutOfMemory,
    }
}

/// Writes the lines of a list, each made in `text`.
fn put_items<L: Listing, K: Sink>(text: &mut Vec<u8>, sink: &mut K, list: &L) -> PutEnd
    ensures { IsPut (flat_map (λ l. l) (L.lines list.now)) (sink_shown K.Sink sink.old sink.new) result }
{
    for k in 0..list.count() {
        match put_item(text, sink, list, k) {
            PutEnd::Done => {}
            end => return end,
        }
    }
    PutEnd::Done
}

/// Writes a text, and then the lines of a list.
pub fn put_listed<L: Listing, K: Sink>(text: &mut Vec<u8>, sink: &mut K, list: &L) -> PutEnd
    ensures { IsPut (text.old.items ++ flat_map (λ l. l) (L.lines list.now))
        (sink_shown K.Sink sink.old sink.new) result }
{
    match sink.put(text) {
        PutEnd::Done => put_items(text, sink, list),
        end => end,
    }
}
