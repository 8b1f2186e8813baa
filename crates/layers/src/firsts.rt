//! Which entries are known to be the first that decide their own keys.
ghost use Rattle.std.specs.Prelude.{◌≡◌, ◌<◌, ◌≤◌, [], ◌∷◌, ◌++◌, false, IfOk, MatchOption, length, take, drop, replicate};
ghost use Rattle.std.specs.Prelude.{slice_index_or};
ghost use Rattle.cert_check.specs.Decides.{Decides, IsFirstAt};
ghost use Rattle.cert_check.specs.Machine.{max_entries};
ghost use Rattle.layers.specs.Layers.{joined};
ghost use Rattle.layers.specs.Firsts.{flags_of, AreFirsts, NoneIsKnown};

use crate::layer::Layer;
use crate::sharing::with_last;
use cert_check::{Shared, entries_decide_their_keys};
use lin_model::Key;
use outside::NoMemory;
use std::alloc::Global;
use std::marker::Model;

/// A flag for each entry of a layer, which is set only where no entry before it, in any layer, decides its key.
#[derive(Drop)]
pub(crate) struct Firsts {
    flags: Vec<bool>,
}

impl Model for Firsts {
    ghost use Rattle.std.specs.Prelude.{Bool, List};

    ghost Value = { List Bool };

    ghost view = { λ firsts. firsts.flags.items };
}

impl Firsts {
    /// So many flags, none of which is set.
    pub(crate) fn unset(alloc: Global, count: usize) -> Result<Firsts, NoMemory>
        ensures { IfOk result (λ firsts. firsts ≡ replicate count false) }
    {
        let flags = vec![in alloc; false; count]?;
        Ok(Firsts { flags })
    }

    /// The flags, in the order of the entries.
    fn flags(&self) -> &[bool]
        ensures { result.now ≡ self.now }
    {
        &self.flags
    }

    /// Whether the flag at this place is set.
    fn is_set(&self, place: u32) -> bool
        requires { place < length self.now }
        ensures { result ≡ slice_index_or self.now place false }
    {
        self.flags[place as usize]
    }
}

/// The place of an entry of this key of which it is known that it is the first that decides the key.
pub(crate) fn own_place(
    layers: &[Shared<Layer>],
    firsts: &[Shared<Firsts>],
    key: &Key,
) -> Option<u32>
    requires few { length (joined layers.now) ≤ max_entries }
    requires firsts { AreFirsts layers.now firsts.now }
    ensures { MatchOption result (NoneIsKnown layers.now firsts.now key.now)
        (IsFirstAt (λ e. Decides e key.now) (joined layers.now)) }
{
    entries_decide_their_keys();
    let mut start = 0;
    for (number, layer) in layers.iter().enumerate() {
        let layer = layer.get();
        if let Some(place) = layer.find(key) {
            // This entry decides the key too, so none of the key behind it is the first.
            if !firsts[number].get().is_set(place) {
                return None;
            }
            return Some(start + place);
        }
        start += layer.len();
    }
    None
}

/// The flags with one more at the end. Those of the layers behind the kept ones become one list with it.
pub(crate) fn with_flag(
    alloc: Global,
    firsts: &[Shared<Firsts>],
    kept: usize,
    is_first: bool,
) -> Result<Vec<Shared<Firsts>>, NoMemory>
    requires { kept ≤ length firsts.now }
    ensures { IfOk result (λ more. more.items
        ≡ take kept firsts.now ++ (flags_of (drop kept firsts.now) ++ is_first ∷ []) ∷ []) }
{
    let (front, behind) = firsts.split_at(kept);
    let mut flags = flags_together(alloc, behind)?;
    flags.push(is_first)?;
    let more = with_last(alloc, front, Firsts { flags })?;
    Ok(more)
}

/// The flags of all these layers, in one list.
fn flags_together(alloc: Global, firsts: &[Shared<Firsts>]) -> Result<Vec<bool>, NoMemory>
    ensures { IfOk result (λ flags. flags.items ≡ flags_of firsts.now) }
{
    let mut flags = Vec::new(alloc);
    for layer in firsts {
        flags.extend_from_slice(layer.get().flags())?;
    }
    Ok(flags)
}
