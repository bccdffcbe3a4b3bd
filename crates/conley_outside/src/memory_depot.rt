//! A depot in memory.

ghost use Rattle.std.specs.Prelude.{◌≡◌, ◌⊎◌, ◌<◌, ◌≤◌, ◌↔◌, [], List, ℕ, length, Some, None, OnOk, OnErr, IfSome, IsTrue, IsErrOf, if◌then◌else◌};
ghost use Rattle.std.specs.Str.{bytes_eq};
ghost use Rattle.std.specs.Io.{StartsWith};

use crate::{Depot, FetchError, NoMemory};
use std::alloc::Global;
use std::collections::BTreeMap;

/// Files that stand in memory. It tells them, and can be told to fail once.
#[derive(Drop)]
pub struct MemoryDepot {
    files: BTreeMap<String, Vec<u8>>,
    alloc: Global,
    next: Option<u64>,
    fail_at: Option<u64>,
    faults: u64,
}

impl MemoryDepot {
    ghost use Rattle.conley_outside.specs.MemoryDepot.{file_of, next, failing, fault_count, HasSameFiles};

    /// A depot without files, of which no fetch is told to fail. It takes no memory.
    pub fn new(alloc: Global) -> MemoryDepot
        ensures empty { (name : List ℕ) → file_of result name ≡ None }
        ensures first { next result ≡ Some 0 }
        ensures never_fails { failing result ≡ None }
        ensures no_faults { fault_count result ≡ 0 }
    {
        MemoryDepot {
            files: BTreeMap::new(alloc),
            alloc,
            next: Some(0),
            fail_at: None,
            faults: 0,
        }
    }

    /// Adds a file. A name that is added again stands for the newer bytes.
    pub fn add(&mut self, name: &str, bytes: &[u8]) -> Result<(), NoMemory>
        ensures ok { OnOk result ((other : List ℕ) →
            file_of self.new other ≡ (if bytes_eq other name.now then Some bytes.now else file_of self.old other)) }
        ensures err { OnErr result (file_of self.new ≡ file_of self.old) }
        ensures kept { (next self.new ≡ next self.old) × (failing self.new ≡ failing self.old) × (fault_count self.new ≡ fault_count self.old) }
    {
        let key = String::from_str(self.alloc, name)?;
        let value = Vec::from_slice(self.alloc, bytes)?;
        self.files.insert(key, value)?;
        Ok(())
    }

    /// Tells the fetch of this number to fail, and none but it. Fetches are counted from 0 over all of this depot,
    /// also those that were made before and those that were refused. It takes no memory.
    pub fn fail_at(&mut self, call: u64)
        ensures set { failing self.new ≡ Some call }
        ensures kept { HasSameFiles self.old self.new }
    {
        self.fail_at = Some(call);
    }
}

impl Depot for MemoryDepot {
    ghost use Rattle.conley_outside.specs.Calls.{is_due, next_call};
    ghost use Rattle.conley_outside.specs.Faults.{Rose, one_more};
    ghost use Rattle.conley_outside.specs.Depot.{Files, told, Lacks};
    ghost use Rattle.conley_outside.specs.MemoryDepot.{file_of, next, failing, fault_count};

    ghost files = { λ depot. Some (file_of depot) };

    ghost faults = { fault_count };

    /// `Failed` comes exactly where this fetch is told to fail, which is tested first, or no file has the name.
    fn fetch(
        &mut self,
        alloc: Global,
        name: &str,
        limit: usize,
        into: &mut Vec<u8>,
    ) -> Result<(), FetchError>
        requires { into.old.items ≡ [] }
        ensures same { file_of self.new ≡ file_of self.old }
        ensures counted { (next self.new ≡ next_call (next self.old)) × (failing self.new ≡ failing self.old) }
        ensures faults { fault_count self.new ≡ (if is_due (next self.old) (failing self.old) then one_more (fault_count self.old) else fault_count self.old) }

        ensures within { OnOk result (length into.new.items ≤ limit) }
        ensures whole { OnOk result (IfSome (file_of self.old name.now) (λ bytes. into.new.items ≡ bytes)) }
        ensures prefix { OnErr result (IfSome (file_of self.old name.now) (λ bytes. StartsWith bytes into.new.items)) }

        ensures failed { IsErrOf result FetchError.Failed ↔
            (IsTrue (is_due (next self.old) (failing self.old)) ⊎ (file_of self.old name.now ≡ None)) }
        ensures missing { file_of self.old name.now ≡ None → (into.new.items ≡ []) }
        ensures too_long { IsErrOf result FetchError.TooLong →
            (length into.new.items ≡ limit) × IfSome (file_of self.old name.now) (λ bytes. limit < length bytes) }
    {
        let fails = self.next.is_some() && self.next == self.fail_at;
        self.next = match self.next {
            Some(call) => call.checked_add(1),
            None => None,
        };
        if fails {
            self.faults = self.faults.saturating_add(1);
            return Err(FetchError::Failed);
        }
        match self.files.get(name) {
            None => Err(FetchError::Failed),
            Some(bytes) => copy_up_to(bytes, limit, into),
        }
    }
}

// Copies bytes, if they are at most `limit`.
fn copy_up_to(bytes: &[u8], limit: usize, into: &mut Vec<u8>) -> Result<(), FetchError>
    requires { into.old.items ≡ [] }
    ensures ok { OnOk result ((length bytes.now ≤ limit) × (into.new.items ≡ bytes.now)) }
    ensures err { OnErr result (StartsWith bytes.now into.new.items) }
    ensures failed { IsErrOf result FetchError.Failed → ⊥ }
    ensures too_long { IsErrOf result FetchError.TooLong → (limit < length bytes.now) × (length into.new.items ≡ limit) }
{
    let count = bytes.len().min(limit);
    if into.extend_from_slice(&bytes[..count]).is_err() {
        return Err(FetchError::NoMemory);
    }
    if limit < bytes.len() {
        return Err(FetchError::TooLong);
    }
    Ok(())
}
