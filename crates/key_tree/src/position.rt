//! Where a kid stands among those of its place.
use crate::branch::Branch;
use crate::kid::Kid;
use lin_model::{KeyAtom, cmp_atoms};
use std::cmp::Ordering;

/// Where the kid of this atom stands among kids in the order of their atoms. That it stands there is for the caller to
/// test.
pub(crate) fn position_of(branches: &[Branch], kids: &[Kid], atom: &KeyAtom) -> usize {
    let mut low = 0;
    let mut high = kids.len();
    while low < high {
        let mid = low + (high - low) / 2;
        match order_of(branches, kids[mid], atom) {
            Ordering::Less => low = mid + 1,
            Ordering::Equal => return mid,
            Ordering::Greater => high = mid,
        }
    }
    low
}

/// How the atom of the branch to a kid's place stands to this one.
fn order_of(branches: &[Branch], kid: Kid, atom: &KeyAtom) -> Ordering {
    match branches.get((kid.place as usize).saturating_sub(1)) {
        Some(branch) => cmp_atoms(&branch.atom, atom),
        None => Ordering::Equal,
    }
}
