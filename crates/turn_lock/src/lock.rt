//! The lock and the value that is out.
ghost use Rattle.std.specs.Prelude.{◌≡◌};

use crate::kept::Kept;
use crate::plays::Law;
use crate::view::View;
use atomic_table::Table;
use std::alloc::Global;
use std::snapshot::Snapshot;

/// A value that users take in turn, in the order of their tickets.
#[derive(Drop)]
pub struct TurnLock<T: Kept> {
    pub(crate) table: Table<Option<T>, View<T::Event, T::Origin>, Snapshot<T>, Law<T>, Global>,
    ghost sized: { (table.shared.table_id.words ≡ 3) × (table.shared.table_id.slots ≡ 1) },
}

/// The value while a turn is out. It can't be forgotten: only `give` ends it.
pub struct Held<T> {
    pub(crate) value: T,
}
