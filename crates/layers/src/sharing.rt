//! More owners of shared values.
ghost use Rattle.std.specs.Prelude.{◌≡◌, [], ◌∷◌, ◌++◌, IfOk, OnOk};

use cert_check::Shared;
use outside::NoMemory;
use std::alloc::Global;

/// One owner more of each of these values, and one value behind them.
pub(crate) fn with_last<T: Drop>(
    alloc: Global,
    front: &[Shared<T>],
    last: T,
) -> Result<Vec<Shared<T>>, NoMemory>
    ensures { IfOk result (λ list. list.items ≡ front.now ++ last ∷ []) }
{
    let mut list = Vec::new(alloc);
    share_into(&mut list, front)?;
    list.push(Shared::new(alloc, last)?)?;
    Ok(list)
}

/// Adds one owner more of each of these values.
pub(crate) fn share_into<T: Drop>(
    list: &mut Vec<Shared<T>>,
    values: &[Shared<T>],
) -> Result<(), NoMemory>
    ensures { OnOk result (list.new.items ≡ list.old.items ++ values.now) }
{
    for value in values {
        list.push(value.share()?)?;
    }
    Ok(())
}
