//! Frozen lists of entries that grow one by one.
use cert_check::{Entry, Shared};
use layers::Version;
use outside::NoMemory;
use row_table::RowFault;
use std::alloc::{AllocError, Global};

/// How many entries the list of a table may have.
const MOST: u32 = 1000;

/// The version without entries.
pub fn no_entries(alloc: Global) -> Result<Version, NoMemory> {
    Version::of(alloc, Vec::new(alloc))
}

/// The version with the entry at its end.
pub fn grown(alloc: Global, version: &Version, entry: Shared<Entry>) -> Result<Version, RowFault> {
    if version.len() >= MOST {
        return Err(RowFault::NoCall);
    }
    Ok(version.add(alloc, entry)?)
}

/// A version of the same entries, made at once.
pub fn made_at_once(alloc: Global, version: &Version) -> Result<Version, RowFault> {
    if version.len() > MOST {
        return Err(RowFault::NoCall);
    }
    Ok(Version::of(alloc, version.entries(alloc)?)?)
}

/// How many entries there are, and in how many layers.
pub fn size_text(alloc: Global, version: &Version) -> Result<String, AllocError> {
    let entries = version.len();
    let layers = version.layer_count();
    format!(in alloc; "{entries} in {layers}")
}
