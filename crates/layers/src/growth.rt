//! The layers of a version to which an entry is added.
ghost use Rattle.std.specs.Prelude.{◌≡◌, ◌<◌, ◌≤◌, [], ◌∷◌, ◌++◌, IfOk, length, take, drop};
ghost use Rattle.cert_check.specs.Machine.{max_entries};
ghost use Rattle.layers.specs.Halving.{AreShortFrom, IsLongBefore};
ghost use Rattle.layers.specs.Layers.{joined};

use crate::layer::Layer;
use crate::sharing::{share_into, with_last};
use cert_check::{Entry, Shared};
use outside::NoMemory;
use std::alloc::Global;

/// The layers with the entry at the end. Those behind the kept ones become one with it.
pub(crate) fn with_entry(
    alloc: Global,
    layers: &[Shared<Layer>],
    kept: usize,
    entry: Shared<Entry>,
) -> Result<Vec<Shared<Layer>>, NoMemory>
    requires kept { kept ≤ length layers.now }
    requires room { length (joined layers.now) < max_entries }
    ensures { IfOk result (λ more. more.items
        ≡ take kept layers.now ++ (joined (drop kept layers.now) ++ entry ∷ []) ∷ []) }
{
    let (front, behind) = layers.split_at(kept);
    let last = joined_with(alloc, behind, entry)?;
    let more = with_last(alloc, front, last)?;
    Ok(more)
}

/// How many layers at the front stay when an entry is added: up to the last that is at least twice as long as all that
/// is behind it, with the entry.
pub(crate) fn kept_layers(layers: &[Shared<Layer>]) -> usize
    requires { length (joined layers.now) < max_entries }
    ensures within { result ≤ length layers.now }
    ensures short { AreShortFrom result layers.now }
    ensures long { IsLongBefore result layers.now }
{
    let mut front = layers;
    let mut behind = 1;
    while let [earlier @ .., last] = front {
        let len = last.get().len();
        if len >= 2 * behind {
            break;
        }
        behind += len;
        front = earlier;
    }
    front.len()
}

/// One layer of the entries of these layers, and the entry behind them.
fn joined_with(
    alloc: Global,
    layers: &[Shared<Layer>],
    entry: Shared<Entry>,
) -> Result<Layer, NoMemory>
    requires { length (joined layers.now) < max_entries }
    ensures { IfOk result (λ layer. layer ≡ joined layers.now ++ entry ∷ []) }
{
    let mut entries = entries_of(alloc, layers)?;
    entries.push(entry)?;
    Layer::of(alloc, entries)
}

/// One owner more of each entry of these layers.
pub(crate) fn entries_of(
    alloc: Global,
    layers: &[Shared<Layer>],
) -> Result<Vec<Shared<Entry>>, NoMemory>
    ensures { IfOk result (λ entries. entries.items ≡ joined layers.now) }
{
    let mut entries = Vec::new(alloc);
    for layer in layers {
        share_into(&mut entries, layer.get().entries())?;
    }
    Ok(entries)
}
