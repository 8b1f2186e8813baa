//! The core of a store and its journal.
use journal::Journal;
use outside::Disk;
use store_core::Core;

/// The core of a store, and the journal that its entries are saved in.
#[derive(Drop)]
pub struct Books<D: Disk> {
    pub core: Core,
    pub journal: Journal<D>,
}
