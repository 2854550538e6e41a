//! Files in memory, for tests.
ghost use Rattle.std.specs.Prelude.{◌≡◌, ℕ, ◌<◌, ◌≤◌, [], ◌∷◌, ◌++◌, IfNone, length, map, IfOk, IfSome, IsErrOf, IsNone, IsSome, IsSomeAnd, MatchOption, None, OnErr, OnOk, Some, false, option_map, slice_index_or, true};
ghost use Rattle.syn_io.specs.Outside.{file_at, has_distinct_names, Rose, with_file, without_file};
ghost use Rattle.syn_io.specs.NamedFiles.{all_named, named_bytes};

use crate::{Calls, Files, GetFault, PutFault};
use std::alloc::{AllocError, Global};

#[derive(Debug, Drop)]
struct MemFile {
    name: String,
    bytes: Vec<u8>,
}

/// Files in memory, which tell what they hold, and whose calls may be told to fail.
#[derive(Debug, Drop)]
pub struct MemFiles {
    files: Vec<MemFile>,
    gets: Calls,
    puts: Calls,
    faults: u64,
    ghost distinct: { has_distinct_names (all_named files.items) ≡ true },
}

// The bytes of the file of that name.
fn find<'a>(files: &'a [MemFile], name: &str) -> Option<&'a [u8]>
    ensures { option_map (λ bytes. bytes.now) result ≡ file_at name.now (all_named files.now) }
{
    for file in files {
        if file.name.as_str() == name {
            return Some(file.bytes.as_slice());
        }
    }
    None
}

// Gives the file of that name these bytes. Gives the bytes back where there is none.
fn replace(files: &mut [MemFile], name: &str, bytes: Vec<u8>) -> Option<Vec<u8>>
    ensures replaced { IfNone result (all_named files.new ≡ with_file name.now bytes.items (all_named files.old)) }
    ensures missing { IfSome result (λ back. with_file name.now bytes.items (all_named files.old) ≡ all_named files.old ++ (name.now, bytes.items) ∷ []) }
    ensures back { IfSome result (λ back. back ≡ bytes) }
    ensures unchanged { IfSome result (λ back. files.new ≡ files.old) }
{
    for file in files.iter_mut() {
        if file.name.as_str() == name {
            file.bytes = bytes;
            return None;
        }
    }
    Some(bytes)
}

// Gives the file of that name these bytes, or adds it where there is none.
fn store(
    alloc: Global,
    files: &mut Vec<MemFile>,
    name: &str,
    bytes: &[u8],
) -> Result<(), AllocError>
    ensures stored { OnOk result (all_named files.new.items ≡ with_file name.now bytes.now (all_named files.old.items)) }
    ensures refused { OnErr result (files.new.items ≡ files.old.items) }
    ensures distinct { has_distinct_names (all_named files.old.items) ≡ true → has_distinct_names (all_named files.new.items) ≡ true }
{
    let copy = Vec::from_slice(alloc, bytes)?;
    if let Some(copy) = replace(files.as_mut_slice(), name, copy) {
        let name = String::from_str(alloc, name)?;
        files.push(MemFile { name, bytes: copy })?;
    }
    Ok(())
}

impl MemFiles {
    ghost use Rattle.syn_io.specs.MemFiles.{file_faults, files_in, get_calls, put_calls};

    /// No files, and no call is to fail.
    pub fn new(alloc: Global) -> MemFiles
        ensures empty { files_in result ≡ [] }
        ensures gets { (get_calls result).failing.items ≡ [] }
        ensures puts { (put_calls result).failing.items ≡ [] }
        ensures faults { file_faults result ≡ 0 }
    {
        MemFiles::failing(alloc, Vec::new(alloc), Vec::new(alloc))
    }

    /// No files. The calls of `get` and of `put` with these numbers, counted from 1, are to fail.
    pub fn failing(alloc: Global, gets: Vec<u64>, puts: Vec<u64>) -> MemFiles
        ensures empty { files_in result ≡ [] }
        ensures gets { get_calls result ≡ record { made = 0; failing = gets } }
        ensures puts { put_calls result ≡ record { made = 0; failing = puts } }
        ensures faults { file_faults result ≡ 0 }
    {
        MemFiles {
            files: Vec::new(alloc),
            gets: Calls::failing(gets),
            puts: Calls::failing(puts),
            faults: 0,
        }
    }

    /// The bytes of the file of that name. It is no call of `get`.
    pub fn bytes_of(&self, name: &str) -> Option<&[u8]>
        ensures { option_map (λ bytes. bytes.now) result ≡ file_at name.now (files_in self.now) }
    {
        find(self.files.as_slice(), name)
    }

    /// Puts a file, without a call of `put`.
    pub fn add(&mut self, alloc: Global, name: &str, bytes: &[u8]) -> Result<(), AllocError>
        ensures added { OnOk result (files_in self.new ≡ with_file name.now bytes.now (files_in self.old)) }
        ensures refused { OnErr result (files_in self.new ≡ files_in self.old) }
        ensures gets { get_calls self.new ≡ get_calls self.old }
        ensures puts { put_calls self.new ≡ put_calls self.old }
        ensures faults { file_faults self.new ≡ file_faults self.old }
    {
        store(alloc, &mut self.files, name, bytes)
    }
}

impl Files for MemFiles {
    ghost use Rattle.syn_io.specs.MemFiles.{disk_of, file_faults, files_in, get_calls, put_calls};
    ghost use Rattle.syn_io.specs.Calls.{after_call, next_fails};

    ghost disk = { disk_of };

    ghost distinct = { λ files. files.distinct };

    fn get(&mut self, alloc: Global, name: &str, limit: u64) -> Result<Vec<u8>, GetFault>
        ensures bytes { IfOk result (λ bytes. file_at name.now (files_in self.old) ≡ Some bytes.items) }
        ensures within { IfOk result (λ bytes. length bytes.items ≤ limit) }
        ensures too_long { IsErrOf result GetFault.TooLong → IsSomeAnd (file_at name.now (files_in self.old)) (λ bytes. limit < length bytes) }
        ensures failed { IsErrOf result GetFault.Failed → Rose (file_faults self.old) (file_faults self.new) }
        ensures unchanged { files_in self.new ≡ files_in self.old }
        ensures later { file_faults self.old ≤ file_faults self.new }

        // A call whose number is listed fails, any other only where the name is missing.
        ensures listed { next_fails (get_calls self.old) ≡ true → IsErrOf result GetFault.Failed }
        ensures stands { next_fails (get_calls self.old) ≡ false → IsSome (file_at name.now (files_in self.old)) → file_faults self.new ≡ file_faults self.old }
        ensures counted { get_calls self.new ≡ after_call (get_calls self.old) }
        ensures other_calls { put_calls self.new ≡ put_calls self.old }
    {
        if self.gets.begin() {
            self.faults = self.faults.saturating_add(1);
            return Err(GetFault::Failed);
        }
        let Some(bytes) = find(self.files.as_slice(), name) else {
            self.faults = self.faults.saturating_add(1);
            return Err(GetFault::Failed);
        };
        if bytes.len() as u64 > limit {
            return Err(GetFault::TooLong);
        }
        Ok(Vec::from_slice(alloc, bytes)?)
    }

    fn put(&mut self, alloc: Global, name: &str, bytes: &[u8]) -> Result<(), PutFault>
        ensures bytes { OnOk result (file_at name.now (files_in self.new) ≡ Some bytes.now) }
        ensures others { without_file name.now (files_in self.new) ≡ without_file name.now (files_in self.old) }
        ensures failed { IsErrOf result PutFault.Failed → Rose (file_faults self.old) (file_faults self.new) }
        ensures later { file_faults self.old ≤ file_faults self.new }

        // A call whose number is listed fails, and no other. A refused one changes nothing.
        ensures listed { next_fails (put_calls self.old) ≡ true → IsErrOf result PutFault.Failed }
        ensures stands { next_fails (put_calls self.old) ≡ false → file_faults self.new ≡ file_faults self.old }
        ensures stored { OnOk result (files_in self.new ≡ with_file name.now bytes.now (files_in self.old)) }
        ensures refused { OnErr result (files_in self.new ≡ files_in self.old) }
        ensures counted { put_calls self.new ≡ after_call (put_calls self.old) }
        ensures other_calls { get_calls self.new ≡ get_calls self.old }
    {
        if self.puts.begin() {
            self.faults = self.faults.saturating_add(1);
            return Err(PutFault::Failed);
        }
        store(alloc, &mut self.files, name, bytes)?;
        Ok(())
    }
}
