//! The machine of events: workers take paths that wait, offer their cones' codes to the word, and judge, in any order.

ghost use Rattle.std.specs.Prelude.{◌≡◌, ◌≢◌, ◌≤◌, ◌<◌, ◌+◌, ◌++◌, ◌∷◌, [], length, replicate, IfOk, OnOk, MatchOption, vec_len, vec_capacity};
ghost use Rattle.std.specs.Bool.{MatchBool};
ghost use Rattle.std.specs.List.{Contains};
ghost use Rattle.symmetric_matrix.specs.Symmetric.{entry};
ghost use Rattle.unimodular_cone.specs.Cones.{Fits, unit_vectors};
ghost use Rattle.unimodular_cone.specs.Tree.{IsInTree};
ghost use Rattle.unimodular_cone.specs.Answer.{BoundFits};
ghost use Rattle.search_core.specs.Fair.{IsFair, IsSplit, code};
ghost use Rattle.search_core.specs.Machine.{held, in_hands, children_of};
ghost use Rattle.search_core.specs.Events.{IsNewMachine, IsSameSearch, IsWorker, HasInHand, IsStepAnswer, HasEnded, IsPlaceOf, IsJudgementAt};

use crate::attaining::fitting_cone;
use crate::event::{Event, Stepped};
use crate::fate::{Fate, Judged};
use crate::hand::Hand;
use crate::judging::judgement;
use crate::words::{code, start_word};
use std::alloc::{AllocError, Global};
use std::marker::Model;
use symmetric_matrix::SymInt;
use unimodular_cone::{Mode, Path};

/// The machine: paths that wait, a hand for each worker, the word, and the judgements, the oldest first.
///
/// Whatever events it is told, it keeps this: each path that is due (the root, and the children of split cones) waits, is in
/// a hand or is judged, once in all; and the word is the least of the start word and the codes of all offered cones.
#[derive(Drop)]
pub struct Machine {
    mode: Mode,
    matrix: SymInt,
    limit: u8,
    waiting: Vec<Path>,
    hands: Vec<Hand>,
    word: u64,
    judged: Vec<Judged>,
}

impl Model for Machine {
    ghost use Rattle.search_core.specs.Events.{ShownMachine, IsRunning};

    ghost Value = { ShownMachine };

    ghost view = { λ m. record {
      mode = m.mode;
      matrix = m.matrix;
      limit = m.limit;
      state = record { waiting = m.waiting.items; hands = m.hands.items; word = m.word; judged = m.judged.items };
    } };

    ghost invariant = { λ m. IsRunning (record {
      mode = m.mode;
      matrix = m.matrix;
      limit = m.limit;
      state = record { waiting = m.waiting.items; hands = m.hands.items; word = m.word; judged = m.judged.items };
    }) };
}

impl Machine {
    /// A machine for the search of a matrix to a depth of `limit`, with 1 to 16 workers: the root waits, and all hands are
    /// empty. It is refused for want of memory alone.
    pub fn start(
        alloc: Global,
        mode: Mode,
        q: &SymInt,
        limit: u8,
        workers: u8,
    ) -> Result<Machine, AllocError>
        requires limited { limit ≤ 200 }
        requires some { 1 ≤ workers }
        requires few { workers ≤ 16 }
        requires root { Fits q.now.size (entry q.now) unit_vectors }
        requires bound_fits { BoundFits mode q.now.size (entry q.now) }
        ensures { IfOk result (IsNewMachine mode q.now limit workers) }
    {
        let mut waiting = Vec::new(alloc);
        waiting.push(Path::root())?;
        Ok(Machine {
            mode,
            matrix: q.copy()?,
            limit,
            waiting,
            hands: empty_hands(alloc, workers)?,
            word: start_word(mode, q),
            judged: Vec::new(alloc),
        })
    }

    /// Does what an event says. After `Ignored` and `OutOfMemory` the machine is as before. Only a judgement takes memory.
    pub fn step(&mut self, event: Event) -> Stepped
        ensures search { IsSameSearch self.old self.new }
        ensures answer { IsStepAnswer result self.old event self.new }
    {
        match event {
            Event::Take { worker, path } => self.take(worker, path),
            Event::Offer { worker } => self.offer(worker),
            Event::Judge { worker } => self.judge(worker),
        }
    }

    /// How many paths wait.
    pub fn waiting(&self) -> usize
        ensures { result ≡ length self.now.state.waiting }
    {
        self.waiting.len()
    }

    /// How many cones are in hand.
    pub fn in_hand(&self) -> usize
        ensures { result ≡ length (in_hands self.now.state.hands) }
    {
        held_in(&self.hands)
    }

    /// The word. Once nothing waits and nothing is in hand, it is the final word of a fair list, which `judged` gives.
    pub fn word(&self) -> u64
        ensures value { result ≡ self.now.state.word }
        ensures fair { HasEnded self.now.state
            → IsFair self.now.mode self.now.matrix.size (entry self.now.matrix) self.now.limit self.now.state.judged
            result }
    {
        self.word
    }

    /// The judgements so far, the oldest first. Once nothing waits and nothing is in hand, they are fair, with the word.
    pub fn judged(&self) -> &[Judged]
        ensures value { result.now ≡ self.now.state.judged }
        ensures fair { HasEnded self.now.state
            → IsFair self.now.mode self.now.matrix.size (entry self.now.matrix) self.now.limit result.now
            self.now.state.word }
    {
        self.judged.as_slice()
    }

    fn take(&mut self, worker: u8, path: Path) -> Stepped
        ensures search { IsSameSearch self.old self.new }
        ensures answer { IsStepAnswer result self.old (Event.Take worker path) self.new }
    {
        let Some(hand) = in_hand_of(&self.hands, worker) else {
            return Stepped::Ignored;
        };
        if !hand.is_empty() {
            return Stepped::Ignored;
        }
        let Some(place) = place_among(&self.waiting, &path) else {
            return Stepped::Ignored;
        };
        self.waiting.remove(place);
        self.hands[usize::from(worker) - 1] = Hand::Taken(path);
        Stepped::Applied
    }

    fn offer(&mut self, worker: u8) -> Stepped
        ensures search { IsSameSearch self.old self.new }
        ensures answer { IsStepAnswer result self.old (Event.Offer worker) self.new }
    {
        let Some(hand) = in_hand_of(&self.hands, worker) else {
            return Stepped::Ignored;
        };
        let Hand::Taken(path) = hand else {
            return Stepped::Ignored;
        };
        self.word = self
            .word
            .min(code_of_path(self.mode, &self.matrix, self.limit, &path));
        self.hands[usize::from(worker) - 1] = Hand::Offered(path, self.word);
        Stepped::Applied
    }

    fn judge(&mut self, worker: u8) -> Stepped
        ensures search { IsSameSearch self.old self.new }
        ensures answer { IsStepAnswer result self.old (Event.Judge worker) self.new }
    {
        let Some(hand) = in_hand_of(&self.hands, worker) else {
            return Stepped::Ignored;
        };
        let Hand::Offered(path, noted) = hand else {
            return Stepped::Ignored;
        };
        match make_room(&mut self.waiting, &mut self.judged) {
            Ok(()) => {}
            Err(_) => return Stepped::OutOfMemory,
        }
        let j = judgement_of_path(self.mode, &self.matrix, self.limit, &path, noted);
        self.hands[usize::from(worker) - 1] = Hand::Empty;
        add_children(&mut self.waiting, &path, &j.fate);
        note(&mut self.judged, j);
        Stepped::Applied
    }
}

/// An empty hand for each worker.
fn empty_hands(alloc: Global, workers: u8) -> Result<Vec<Hand>, AllocError>
    ensures { IfOk result (λ hands. hands.items ≡ replicate workers Hand.Empty) }
{
    Ok(vec![in alloc; Hand::Empty; usize::from(workers)]?)
}

/// What a worker has in hand. None where it isn't one of the workers, who count from 1.
fn in_hand_of(hands: &[Hand], worker: u8) -> Option<Hand>
    ensures { MatchOption result (¬ IsWorker hands.now worker) (HasInHand hands.now worker) }
{
    if worker == 0 || usize::from(worker) > hands.len() {
        return None;
    }
    Some(hands[usize::from(worker) - 1])
}

/// How many cones are in a hand: none, or one.
fn held_by(hand: &Hand) -> usize
    ensures count { result ≡ length (held hand.now) }
    ensures few { result ≤ 1 }
{
    match hand {
        Hand::Empty => 0,
        Hand::Taken(_) | Hand::Offered(..) => 1,
    }
}

/// How many cones are in these hands.
fn held_in(hands: &[Hand]) -> usize
    ensures { result ≡ length (in_hands hands.now) }
{
    let mut held = 0;
    for hand in hands {
        held += held_by(hand);
    }
    held
}

/// Whether two paths are the same.
fn is_same(path: &Path, other: &Path) -> bool
    ensures { MatchBool result (path.now ≡ other.now) (path.now ≢ other.now) }
{
    path.by_place(other).is_eq()
}

/// Where a path stands first among these, from 0.
fn place_among(paths: &[Path], path: &Path) -> Option<usize>
    ensures { MatchOption result (¬ Contains paths.now path.now) (IsPlaceOf paths.now path.now) }
{
    for (place, other) in paths.iter().enumerate() {
        if is_same(other, path) {
            return Some(place);
        }
    }
    None
}

/// The code of the cone at a path of the tree, whose root fits. The tree's depth is `limit`.
fn code_of_path(mode: Mode, q: &SymInt, limit: u8, path: &Path) -> u64
    requires in_tree { IsInTree q.now.size (entry q.now) limit path.now }
    requires fits { Fits q.now.size (entry q.now) unit_vectors }
    ensures { result ≡ code mode q.now.size (entry q.now) path.now }
{
    let _n = q.n();
    code(mode, &fitting_cone(q, limit, path))
}

/// The judgement of the cone at a path of the tree, whose root fits, under a word. The tree's depth is `limit`.
fn judgement_of_path(mode: Mode, q: &SymInt, limit: u8, path: &Path, word: u64) -> Judged
    requires in_tree { IsInTree q.now.size (entry q.now) limit path.now }
    requires fits { Fits q.now.size (entry q.now) unit_vectors }
    requires limited { limit ≤ 200 }
    requires below_code { word ≤ code mode q.now.size (entry q.now) path.now }
    ensures { IsJudgementAt mode q.now.size (entry q.now) limit path.now word result }
{
    let _n = q.n();
    judgement(mode, &fitting_cone(q, limit, path), limit, word)
}

/// Takes room for two more paths and one more judgement. Nothing else changes.
fn make_room(waiting: &mut Vec<Path>, judged: &mut Vec<Judged>) -> Result<(), AllocError>
    ensures paths { waiting.new.items ≡ waiting.old.items }
    ensures judgements { judged.new.items ≡ judged.old.items }
    ensures two { OnOk result (vec_len waiting.new + 2 ≤ vec_capacity waiting.new) }
    ensures one { OnOk result (vec_len judged.new < vec_capacity judged.new) }
{
    waiting.reserve(2)?;
    judged.reserve(1)?;
    Ok(())
}

/// Puts the children of a split cone at the end of the paths that wait, where there is room for two.
fn add_children(waiting: &mut Vec<Path>, path: &Path, fate: &Fate)
    requires room { vec_len waiting.old + 2 ≤ vec_capacity waiting.old }
    requires short { IsSplit fate.now → length path.now < 200 }
    ensures { waiting.new.items ≡ waiting.old.items ++ children_of path.now fate.now }
{
    if let Fate::Split { .. } = *fate {
        waiting.push_reserved(path.child(0));
        waiting.push_reserved(path.child(1));
    }
}

/// Puts a judgement at the end of a list that has room for it.
fn note(judged: &mut Vec<Judged>, j: Judged)
    requires { vec_len judged.old < vec_capacity judged.old }
    ensures { judged.new.items ≡ judged.old.items ++ j ∷ [] }
{
    // Field by field, since the prover makes no proof of a push of the whole.
    judged.push_reserved(Judged {
        path: j.path,
        fate: j.fate,
        least: j.least,
    });
}
