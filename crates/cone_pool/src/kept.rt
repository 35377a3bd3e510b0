//! The paths that a worker without memory keeps.

ghost use Rattle.std.specs.Prelude.{◌≡◌, ◌<◌, [], ◌∷◌, ◌++◌, length, MatchOption, IsTrue};

use smallvec::SmallVec;
use std::alloc::Global;
use std::marker::Model;
use unimodular_cone::Path;

/// A path that is kept. Contracts see it as the path.
#[derive(Drop)]
struct KeptPath {
    path: Path,
}

impl Model for KeptPath {
    ghost use Rattle.unimodular_cone.specs.Paths.{Path};

    ghost Value = { Path };

    ghost view = { λ k. k.path };
}

impl Default for KeptPath {
    // What stands at an inline place that is not in use.
    fn default() -> KeptPath {
        KeptPath { path: Path::root() }
    }
}

/// At most two paths, inline: the one in hand, or the children of a split one.
#[derive(Drop)]
pub(crate) struct Kept {
    paths: SmallVec<KeptPath, 2>,
}

impl Model for Kept {
    ghost use Rattle.std.specs.Prelude.{◌≡◌, List};
    ghost use Rattle.unimodular_cone.specs.Paths.{Path};

    ghost Value = { List Path };

    ghost view = { λ k. k.paths.items };

    ghost invariant = { λ k. k.paths.capacity ≡ 2 };
}

impl Kept {
    /// None at all.
    pub(crate) fn new(alloc: Global) -> Kept
        ensures { result ≡ [] }
    {
        Kept {
            paths: SmallVec::new(alloc),
        }
    }

    /// Keeps one more.
    pub(crate) fn add(&mut self, path: Path)
        requires { length self.old < 2 }
        ensures { self.new ≡ self.old ++ path ∷ [] }
    {
        self.paths.push_reserved(KeptPath { path });
    }

    /// Whether there is none.
    pub(crate) fn is_empty(&self) -> bool
        ensures { IsTrue result → self.now ≡ [] }
    {
        self.paths.is_empty()
    }

    /// How many there are.
    pub(crate) fn len(&self) -> usize
        ensures { result ≡ length self.now }
    {
        self.paths.len()
    }

    /// Takes the last one out.
    pub(crate) fn take(&mut self) -> Option<Path>
        ensures { MatchOption result ((self.old ≡ []) × (self.new ≡ [])) (λ path. self.old ≡ self.new ++ path ∷ []) }
    {
        match self.paths.pop() {
            Some(kept) => Some(kept.path),
            None => None,
        }
    }
}
