//! The real files.

ghost use Rattle.std.specs.Prelude.{◌≡◌, None, is_some, unwrap_or, []};

use rp_base::{Failed, Files, NoFile, Seed, Text};
use std::io::{ErrorKind, Read};
use std::random::RandomSource;
use std::rt::Files as SystemFiles;

/// The real files. What they hold is not told.
#[derive(Drop)]
pub struct HostFiles<R: SystemFiles + RandomSource + Drop> {
    system: R,
    file: Option<R::File>,
    last_path: Option<Text>,
    begun: u64,
    faults: u64,
}

impl<R: SystemFiles + RandomSource + Drop> HostFiles<R> {
    /// The files of the system, before the first is begun.
    pub fn new(system: R) -> Self
        ensures unread { result.begun ≡ 0 }
        ensures sound { result.faults ≡ 0 }
    {
        HostFiles {
            system,
            file: None,
            last_path: None,
            begun: 0,
            faults: 0,
        }
    }
}

impl<R: SystemFiles + RandomSource + Drop> Files for HostFiles<R> {
    ghost contents = { λ _. None };

    ghost rest = { λ _. None };

    ghost last_path = { λ h. unwrap_or h.last_path [] };

    ghost begun = { λ h. h.begun };

    ghost is_open = { λ h. is_some h.file };

    ghost faults = { λ h. h.faults };

    fn begin(&mut self, path: Text) -> Result<(), NoFile> {
        self.begun += 1;
        self.file = None;
        let opened = std::fs::open(&self.system, path.as_str());
        self.last_path = Some(path);
        match opened {
            Ok(file) => {
                self.file = Some(file);
                Ok(())
            }
            Err(error) if error.kind() == ErrorKind::OutOfMemory => Err(NoFile::Memory),
            Err(_) => {
                self.faults += 1;
                Err(NoFile::Failed)
            }
        }
    }

    fn read(&mut self, into: &mut [u8]) -> Result<usize, Failed> {
        let Some(file) = &mut self.file else {
            unreachable!()
        };
        let Ok(count) = file.read(into) else {
            self.faults += 1;
            return Err(Failed);
        };
        if count == 0 {
            self.file = None;
        }
        Ok(count)
    }

    fn seed(&self) -> Seed {
        let mut bytes = [0; 16];
        if self.system.fill_bytes(&mut bytes).is_err() {
            return Seed::from_bytes([0; 16]);
        }
        Seed::from_bytes(bytes)
    }
}
