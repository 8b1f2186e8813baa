//! More owners of entries.
ghost use Rattle.std.specs.Prelude.{◌≡◌, IfOk};

use cert_check::{Entry, Shared};
use outside::NoMemory;
use std::alloc::Global;

/// One owner more of each of these entries.
pub fn owners_of(alloc: Global, entries: &[Shared<Entry>]) -> Result<Vec<Shared<Entry>>, NoMemory>
    ensures { IfOk result (λ owners. owners.items ≡ entries.now) }
{
    let mut owners = Vec::with_capacity(alloc, entries.len())?;
    for entry in entries {
        owners.push(entry.share()?)?;
    }
    Ok(owners)
}
