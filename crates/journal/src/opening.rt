//! Opening a file as a journal.
ghost use Rattle.std.specs.Prelude.{◌≡◌, IfOk, IfErr};
ghost use Rattle.journal.specs.Opening.{FailsToOpen, Opens};
ghost use Rattle.journal.specs.Recovery.{IsInOrder};

use crate::copies::owners_of;
use crate::limits::HEADER;
use crate::recovered::{Recovered, StartFault};
use crate::saving::save;
use crate::scanning::scan_begun;
use cert_check::{Entry, Shared};
use outside::Disk;
use std::alloc::Global;

/// What the file recovers to, and its entries once more. A file that wasn't begun has the header then. All memory is
/// taken before that is written.
pub fn open<D: Disk>(
    alloc: Global,
    disk: &mut D,
) -> Result<(Recovered, Vec<Shared<Entry>>), StartFault>
    ensures opens { IfOk result (λ opened. Opens opened.0 (D.state disk.old) (D.state disk.new)) }
    ensures copied { IfOk result (λ opened. opened.1.items ≡ opened.0.entries.items) }
    ensures in_order { IfOk result (λ opened. IsInOrder opened.0) }
    ensures fails { IfErr result (λ fault. FailsToOpen fault (D.state disk.old) (D.state disk.new)) }
{
    let (recovered, begun) = scan_begun(alloc, disk)?;
    let opening = owners_of(alloc, &recovered.entries)?;
    if !begun {
        save(disk, 0, &HEADER)?;
    }
    Ok((recovered, opening))
}
