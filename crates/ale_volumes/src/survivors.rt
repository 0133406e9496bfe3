//! A choice of what a crash leaves.

use ale_base::Items;

/// What a crash leaves of the writes since a volume's last sync.
#[derive(Drop)]
pub struct Survivors {
    /// How many of the first bytes of each write reach the disk, oldest write first. A write past the end of the list
    /// leaves none.
    pub bytes: Items<u64>,
    /// Which of the lengths that the volume may have had since is left, counted from the newest. One past the end of
    /// the list is the oldest.
    pub length: usize,
    /// The byte that lies past the synced end where no write reached the disk.
    pub filler: u8,
}
