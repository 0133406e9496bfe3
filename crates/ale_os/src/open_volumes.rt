//! The files of volumes that are open.

use ale_base::OutOfMemory;
use std::alloc::Global;

/// The file of a volume, which is open.
#[derive(Drop)]
struct OpenVolume<F> {
    number: u8,
    file: F,
}

/// The files of volumes that are open, of each volume one at most.
#[derive(Drop)]
pub(crate) struct OpenVolumes<F> {
    files: Vec<OpenVolume<F>>,
}

impl<F: Drop> OpenVolumes<F> {
    /// No file is open. It takes no memory.
    pub(crate) fn none(alloc: Global) -> OpenVolumes<F> {
        OpenVolumes {
            files: Vec::new(alloc),
        }
    }

    /// Takes the file of a volume out, if it is open.
    pub(crate) fn take(&mut self, number: u8) -> Option<F> {
        let place = self.files.iter().position(|open| open.number == number)?;
        let OpenVolume { file, .. } = self.files.swap_remove(place);
        Some(file)
    }

    /// Makes room for one more file, so that a file that is opened is kept.
    pub(crate) fn make_room(&mut self) -> Result<(), OutOfMemory> {
        self.files.reserve(1)?;
        Ok(())
    }

    /// Keeps the file of a volume open. There is room for it: it was taken out, or room was made before it was opened.
    pub(crate) fn keep(&mut self, number: u8, file: F) {
        let _ = self.files.push(OpenVolume { number, file });
    }
}
