ghost use Rattle.std.specs.Prelude.{◌⊎◌, length, OnOk, OnErr};
ghost use Rattle.outside.specs.Faults.{HasCause};
ghost use Rattle.disk_port.specs.Crashes.{LeavesOnly};
ghost use Rattle.journal_file.specs.Journals.{Shows, Was, WasTorn, WasWritten};

use disk_port::{Disk, DiskFailed};

/// Writes the bytes at an offset and brings them to rest: two calls of the disk.
pub(crate) fn put<D: Disk>(disk: &mut D, at: u64, bytes: &[u8]) -> Result<(), DiskFailed>
    ensures ok { OnOk result (Shows D.seen D.image disk.new (WasWritten D.seen D.image disk.old at bytes.now)) }
    ensures err { OnErr result (Shows D.seen D.image disk.new (WasTorn D.seen D.image disk.old at (length bytes.now))) }
    ensures during { LeavesOnly D.moment D.image_since disk.old disk.new
        (λ file. Was D.seen D.image disk.old file ⊎ WasTorn D.seen D.image disk.old at (length bytes.now) file) }
    ensures cause { HasCause (D.faults disk.old) (D.faults disk.new) result }
{
    disk.write_at(at, bytes)?;
    disk.sync()?;
    Ok(())
}
