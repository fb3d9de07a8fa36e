ghost use Rattle.std.specs.Prelude.{◌≡◌, None, Ok, IfOk};
ghost use Rattle.outside.specs.Faults.{HasCause};

use crate::disk::{Disk, DiskFailed};
use crate::late_file::{Absent, LateFile};
use std::fs::File;
use std::io;
use std::marker::Model;
use std::rt::Files;

/// A file of the machine. It is opened at the first call, and an opening that fails is a failed call. It tells nothing of
/// what it holds.
///
/// A sync reaches the device: it is an `fsync` of the file, and, where the file may have been made here, once of its
/// folder too, so that the name is at rest with the bytes.
#[derive(Drop)]
pub struct FileDisk<R> {
    file: LateFile<R>,
    faults: u64,
}

impl<R> Model for FileDisk<R> {
    ghost use Rattle.std.specs.Prelude.{ℕ};

    ghost Value = { ℕ };

    ghost view = { λ d. d.faults };
}

impl<R: Files<File = File>> FileDisk<R> {
    /// The file at this path, which has to be there at the first call.
    pub fn new(rt: R, path: String) -> FileDisk<R>
        ensures { result ≡ 0 }
    {
        FileDisk {
            file: LateFile::new(rt, path, Absent::Fail),
            faults: 0,
        }
    }

    /// The file at this path, which the first call makes where it is absent.
    pub fn making(rt: R, path: String) -> FileDisk<R>
        ensures { result ≡ 0 }
    {
        FileDisk {
            file: LateFile::new(rt, path, Absent::Make),
            faults: 0,
        }
    }

    /// How many calls failed.
    pub fn faults(&self) -> u64
        ensures { result ≡ self.now }
    {
        self.faults
    }

    /// The answer of the machine as one of the disk; where it is a refusal, counts a fault.
    fn told<T>(&mut self, answer: io::Result<T>) -> Result<T, DiskFailed>
        ensures value { IfOk result (λ value. answer ≡ Ok value) }
        ensures cause { HasCause self.old self.new result }
    {
        match answer {
            Ok(value) => Ok(value),
            Err(_) => {
                self.faults = self.faults.saturating_add(1);
                Err(DiskFailed)
            }
        }
    }
}

impl<R: Files<File = File>> Disk for FileDisk<R> {
    ghost seen = { λ _. None };

    ghost image = { λ _ _. ⊥ };

    ghost moment = { λ _. 0 };

    ghost image_since = { λ _ _ _. ⊥ };

    ghost faults = { λ d. d };

    ghost counts_now = { λ _ _ _ _ now. now };

    ghost only_now = { λ _ _ left. left };

    fn len(&mut self) -> Result<u64, DiskFailed> {
        let answer = self.file.len();
        self.told(answer)
    }

    fn read(&mut self, at: u64, into: &mut [u8]) -> Result<usize, DiskFailed> {
        let answer = self.file.read(at, into);
        self.told(answer)
    }

    fn write_at(&mut self, at: u64, bytes: &[u8]) -> Result<(), DiskFailed> {
        let answer = self.file.write(at, bytes);
        self.told(answer)
    }

    fn sync(&mut self) -> Result<(), DiskFailed> {
        let answer = self.file.sync();
        self.told(answer)
    }
}
