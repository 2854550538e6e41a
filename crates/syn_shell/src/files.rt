//! Files, whole: their bytes, and bytes put to them.

ghost use Rattle.std.specs.Prelude.{◌≡◌, ◌⊎◌, ◌≤◌, length, IfOk, IfErr, OnOk};
ghost use Rattle.syn_io.specs.Outside.{Rose};
ghost use Rattle.syn_command_files.specs.Told.{FileIs, FilesUnchanged};
ghost use Rattle.syn_shell.specs.Outside.{OthersUnchanged};
ghost use Rattle.syn_shell.specs.Reads.{file_limit, GetRefused};

use crate::refusal::Refusal;
use std::alloc::Global;
use syn_io::{Files, GetFault, PutFault};

const FILE_LIMIT: u64 = 16_777_216;

/// The bytes of a file.
pub(crate) fn get<F: Files>(alloc: Global, name: &str, files: &mut F) -> Result<Vec<u8>, Refusal>
    ensures file { IfOk result (λ bytes. FileIs name.now (F.disk files.old) bytes.items) }
    ensures short { IfOk result (λ bytes. length bytes.items ≤ file_limit) }
    ensures refused { IfErr result (GetRefused name.now (F.disk files.old) (F.disk files.new)) }
    ensures unchanged { FilesUnchanged (F.disk files.old) (F.disk files.new) }
{
    match files.get(alloc, name, FILE_LIMIT) {
        Ok(bytes) => Ok(bytes),
        Err(GetFault::Failed) => Err(Refusal::GetFailed),
        Err(GetFault::TooLong) => Err(Refusal::FileTooLong),
        Err(GetFault::NoMemory) => Err(Refusal::NoMemory),
    }
}

/// Writes bytes to a file.
pub(crate) fn put<F: Files>(
    alloc: Global,
    name: &str,
    bytes: &[u8],
    files: &mut F,
) -> Result<(), Refusal>
    ensures file { OnOk result (FileIs name.now (F.disk files.new) bytes.now) }
    ensures refused { IfErr result (λ refusal. (refusal ≡ Refusal.NoMemory) ⊎ ((refusal ≡ Refusal.PutFailed) × Rose (F.disk files.old).faults (F.disk files.new).faults)) }
    ensures others { OthersUnchanged name.now (F.disk files.old) (F.disk files.new) }
{
    match files.put(alloc, name, bytes) {
        Ok(()) => Ok(()),
        Err(PutFault::Failed) => Err(Refusal::PutFailed),
        Err(PutFault::NoMemory) => Err(Refusal::NoMemory),
    }
}
