//! A searcher on one thread or with several workers.

use crate::pooled::PooledSearcher;
use cone_pool::{Gate, OpenGate};
use search_core::{Least, Searcher, Sign};
use serial_search::SerialSearcher;
use std::sync::Wait;
use std::thread::Threads;
use symmetric_matrix::SymInt;

/// A searcher on one thread, which always returns, or with several workers.
#[derive(Drop)]
pub enum AnySearcher<'a, R: Threads + Wait + Sync, G: Gate + Sync> {
    /// On one thread.
    Serial(SerialSearcher),
    /// With several workers.
    Pooled(PooledSearcher<'a, R, G>),
}

impl<'a, R: Threads + Wait + Sync> Searcher for AnySearcher<'a, R, OpenGate> {
    fn least(&mut self, q: &SymInt, limit: u8) -> Least {
        match self {
            AnySearcher::Serial(searcher) => searcher.least(q, limit),
            AnySearcher::Pooled(searcher) => Searcher::least(searcher, q, limit),
        }
    }

    fn sign(&mut self, q: &SymInt, limit: u8) -> Sign {
        match self {
            AnySearcher::Serial(searcher) => searcher.sign(q, limit),
            AnySearcher::Pooled(searcher) => Searcher::sign(searcher, q, limit),
        }
    }
}
