// The files and the calls of a cabinet in memory.
ghost use Rattle.std.specs.Prelude.{◌≡◌, IfOk, OnOk, OnErr, option_copied};
ghost use Rattle.mdoc_outside.specs.Cabinet.{told_after};
ghost use Rattle.mdoc_outside.specs.Files.{Files, file_in};
ghost use Rattle.mdoc_outside.specs.declared.cabinet_call.CabinetCall.TheVariants.{Read, ReadFailed, Write, WriteFailed};

use crate::{CabinetCall, Memory, Octets};
use std::alloc::Global;
use std::marker::Model;

// Files, each a name and its bytes, of which the first of a name counts; and the calls that were made.
#[derive(Drop)]
pub(crate) struct CabinetLog {
    alloc: Global,
    files: Vec<(Octets, Octets)>,
    calls: Vec<CabinetCall>,
}

impl Model for CabinetLog {
    ghost use Rattle.mdoc_outside.specs.Cabinet.{CabinetTold};

    ghost Value = { CabinetTold };

    ghost view = { λ log. record { files = log.files.items; calls = log.calls.items } };
}

// The bytes of the first file of that name.
fn bytes_of<'a>(files: &'a [(Octets, Octets)], name: &str) -> Option<&'a [u8]>
    ensures { option_copied result ≡ file_in files.now name.now }
{
    for file in files {
        if file.0.as_slice() == name.as_bytes() {
            return Some(file.1.as_slice());
        }
    }
    None
}

// A copy of bytes that may be there.
fn copy_of(alloc: Global, bytes: Option<&[u8]>) -> Result<Option<Octets>, Memory>
    ensures { IfOk result (λ copy. copy ≡ option_copied bytes.entry) }
{
    match bytes {
        Some(bytes) => Ok(Some(Octets::copy_of(alloc, bytes)?)),
        None => Ok(None),
    }
}

impl CabinetLog {
    ghost use Rattle.std.specs.Prelude.{[], ◌++◌, ◌∷◌, List};

    pub(crate) fn new(alloc: Global, files: Vec<(Octets, Octets)>) -> CabinetLog
        ensures { result ≡ record { files = files.items; calls = [] } }
    {
        CabinetLog {
            alloc,
            files,
            calls: Vec::new(alloc),
        }
    }

    pub(crate) fn calls(&self) -> &[CabinetCall]
        ensures { result.now ≡ self.now.calls }
    {
        &self.calls
    }

    // Reads a file, and tells it.
    pub(crate) fn read(&mut self, name: &str) -> Result<Option<Octets>, Memory>
        ensures found { IfOk result (λ found. found ≡ file_in self.old.files name.now) }
        ensures told { IfOk result (λ found. self.new ≡ told_after (Read name.now found) self.old) }
        ensures out_of_memory { OnErr result (self.new ≡ self.old) }
    {
        let bytes = bytes_of(&self.files, name);
        let found = copy_of(self.alloc, bytes)?;
        let told = copy_of(self.alloc, bytes)?;
        let name = Octets::copy_of(self.alloc, name.as_bytes())?;
        self.calls.push(CabinetCall::Read(name, told))?;
        Ok(found)
    }

    // Tells a read that failed.
    pub(crate) fn fail_read(&mut self, name: &str) -> Result<(), Memory>
        ensures told { OnOk result (self.new ≡ told_after (ReadFailed name.now) self.old) }
        ensures out_of_memory { OnErr result (self.new ≡ self.old) }
    {
        let name = Octets::copy_of(self.alloc, name.as_bytes())?;
        self.calls.push(CabinetCall::ReadFailed(name))?;
        Ok(())
    }

    // Puts a file before the others, and tells it.
    pub(crate) fn write(&mut self, name: &str, bytes: &[u8]) -> Result<(), Memory>
        ensures told { OnOk result (self.new ≡ told_after (Write name.now bytes.now) self.old) }
        ensures out_of_memory { OnErr result (self.new ≡ self.old) }
    {
        let file = (
            Octets::copy_of(self.alloc, name.as_bytes())?,
            Octets::copy_of(self.alloc, bytes)?,
        );
        let name = Octets::copy_of(self.alloc, name.as_bytes())?;
        let bytes = Octets::copy_of(self.alloc, bytes)?;
        self.calls.reserve(1)?;
        self.files.insert(0, file)?;
        self.calls.push_reserved(CabinetCall::Write(name, bytes));
        Ok(())
    }

    // Tells a write that failed.
    pub(crate) fn fail_write(&mut self, name: &str, bytes: &[u8]) -> Result<(), Memory>
        ensures told { OnOk result (self.new ≡ told_after (WriteFailed name.now bytes.now) self.old) }
        ensures out_of_memory { OnErr result (self.new ≡ self.old) }
    {
        let name = Octets::copy_of(self.alloc, name.as_bytes())?;
        let bytes = Octets::copy_of(self.alloc, bytes)?;
        self.calls.push(CabinetCall::WriteFailed(name, bytes))?;
        Ok(())
    }
}
