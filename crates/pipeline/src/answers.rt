//! What is answered to a query.

use cert_check::Reply;
use sqlite_items::Items;

/// The verdict on a query. Atoms are numbered from 0, and so are the slices with variables: a slice without variables,
/// which `slicer::slices` puts in front, has no number here.
#[derive(Debug, Drop)]
pub enum Verdict {
    /// One value per variable, in order of declaration, that makes the query hold as written: that of its slice's
    /// entry.
    Sat(Items<i64>),
    /// The least atom that no integers satisfy.
    UnsatAtom(u32),
    /// The first slice whose reply has a core: no point satisfies it.
    UnsatSlice(u32),
    /// The first slice on which the splits were used up.
    Unknown(u32),
}

/// An answer: the verdict, and one reply for each slice that was asked, in order.
#[derive(Drop)]
pub struct Answer {
    /// What is told of the query.
    pub verdict: Verdict,
    /// The reply to each slice that was asked.
    pub parts: Items<Reply>,
}
