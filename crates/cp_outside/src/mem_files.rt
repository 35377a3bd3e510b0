//! Files in memory, for tests.

ghost use Rattle.std.specs.Prelude.{◌≡◌, ◌≢◌, ◌⊎◌, ℕ, ◌<◌, ◌≤◌, List, [], Some, None, length, IfSome, IfNone, OnOk, OnErr};
ghost use Rattle.cp_outside.specs.Faults.{Rose};
ghost use Rattle.cp_outside.specs.Reads.{OnWhole, OnTooLong, OnReadFailed, UnlessReadFailed, UnlessWhole};

use crate::failed_names::add_failed;
use crate::files::{Files, ReadEnd};
use std::alloc::{AllocError, Global};
use std::collections::BTreeMap;

/// Files in memory. It tells the bytes of each name that was added, and of no other. A name that was not added
/// can't be read.
#[derive(Drop)]
pub struct MemFiles {
    alloc: Global,
    files: BTreeMap<String, Vec<u8>>,
    // The names of the reads that failed, one for each.
    failed: Vec<String>,
}

impl MemFiles {
    ghost use Rattle.cp_outside.specs.MemFiles.{told_by, faults_by};

    /// No files.
    #[tactic(auto, unfolding(crate::specs::MemFiles::told_by, crate::specs::MemFiles::faults_by))]
    pub fn new(alloc: Global) -> MemFiles
        ensures empty { (name : List ℕ) → told_by result name ≡ None }
        ensures faultless { (name : List ℕ) → faults_by result name ≡ 0 }
    {
        MemFiles {
            alloc,
            files: BTreeMap::new(alloc),
            failed: Vec::new(alloc),
        }
    }

    /// Adds a file with these bytes, in place of one that had this name. At an `Err` all is as before.
    #[tactic(auto, using(std::proofs::lemmas::Map::Text::text_keys), unfolding(crate::specs::MemFiles::told_by, crate::specs::MemFiles::faults_by))]
    pub fn add(&mut self, name: &str, bytes: &[u8]) -> Result<(), AllocError>
        ensures added { OnOk result (told_by self.new name.now ≡ Some bytes.now) }
        ensures others_stay { OnOk result ((other : List ℕ) → other ≢ name.now
            → told_by self.new other ≡ told_by self.old other) }
        ensures refused { OnErr result ((other : List ℕ) → told_by self.new other ≡ told_by self.old other) }
        ensures faults_stay { (other : List ℕ) → faults_by self.new other ≡ faults_by self.old other }
    {
        let key = String::from_str(self.alloc, name)?;
        let value = Vec::from_slice(self.alloc, bytes)?;
        self.files.insert(key, value)?;
        Ok(())
    }
}

impl Files for MemFiles {
    ghost use Rattle.cp_outside.specs.MemFiles.{told_by, faults_by};

    ghost told = { told_by };

    ghost faults = { faults_by };

    #[tactic(auto, unfolding(crate::specs::MemFiles::told_by, crate::specs::MemFiles::faults_by))]
    fn read_file(&mut self, name: &str, into: &mut Vec<u8>, limit: usize) -> ReadEnd
        ensures whole { OnWhole result (IfSome (told_by self.old name.now) (λ bytes. into.new.items ≡ bytes)) }
        ensures within_limit { OnWhole result (length into.new.items ≤ limit) }
        ensures too_long { OnTooLong result (IfSome (told_by self.old name.now) (λ bytes. limit < length bytes)) }
        ensures failed { OnReadFailed result (Rose (faults_by self.old name.now) (faults_by self.new name.now)) }
        ensures empty { UnlessWhole result (into.new.items ≡ []) }
        ensures quiet { UnlessReadFailed result (faults_by self.new name.now ≡ faults_by self.old name.now) }
        ensures never_falls { faults_by self.old name.now ≤ faults_by self.new name.now }
        ensures told_stays { (other : List ℕ) → told_by self.new other ≡ told_by self.old other }
        ensures others_stay { (other : List ℕ) → other ≢ name.now
            → faults_by self.new other ≡ faults_by self.old other }
        // A name that was added can be read, and no other.
        ensures known { IfSome (told_by self.old name.now) (λ _. result ≢ ReadEnd.Failed) }
        ensures unknown { IfNone (told_by self.old name.now) ((result ≡ ReadEnd.Failed)
            ⊎ (result ≡ ReadEnd.OutOfMemory)) }
    {
        into.clear();
        let Some(bytes) = self.files.get(name) else {
            return match add_failed(self.alloc, &mut self.failed, name) {
                Ok(()) => ReadEnd::Failed,
                Err(_) => ReadEnd::OutOfMemory,
            };
        };
        if bytes.len() > limit {
            return ReadEnd::TooLong;
        }
        match into.extend_from_slice(bytes) {
            Ok(()) => ReadEnd::Whole,
            Err(_) => ReadEnd::OutOfMemory,
        }
    }
}
