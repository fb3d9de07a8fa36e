ghost use Rattle.std.specs.Prelude.{◌≡◌, ◌≢◌, ◌≤◌, ℕ, [], Err, OnOk, IfSome, length};
ghost use Rattle.outside.specs.Faults.{Rose};
ghost use Rattle.journal_file.specs.Format.{empty_journal, Holds};
ghost use Rattle.journal_file.specs.Journals.{Shows, OnlyRead};
ghost use Rattle.journal_file.specs.declared.fault.InitFault.TheVariants as faults;

use crate::fault::InitFault;
use crate::format::{CLOSED, HEADER};
use crate::rest::put;
use disk_port::Disk;

/// Begins a journal in an empty file: its header and a closed gate, brought to rest. After `Ok` every crash leaves these
/// 17 bytes. A file that has bytes is refused and not written. It takes no memory.
pub fn init<D: Disk>(disk: &mut D) -> Result<(), InitFault>
    ensures made { OnOk result (Shows D.seen D.image disk.new (λ file. file ≡ empty_journal)) }
    ensures holds { OnOk result (Shows D.seen D.image disk.new (Holds [])) }
    ensures empty { OnOk result (IfSome (D.seen disk.old) (λ file. length file ≡ 0)) }
    ensures not_empty { (len : ℕ) → result ≡ Err (faults.NotEmpty len)
        → (len ≢ 0) × IfSome (D.seen disk.old) (λ file. len ≡ length file) }
    ensures unwritten { (len : ℕ) → result ≡ Err (faults.NotEmpty len)
        → OnlyRead D.seen D.image D.moment D.image_since disk.old disk.new }
    ensures later { D.faults disk.old ≤ D.faults disk.new }
    ensures cause { result ≡ Err faults.DiskFault → Rose (D.faults disk.old) (D.faults disk.new) }
{
    let len = disk.len()?;
    if len != 0 {
        return Err(InitFault::NotEmpty { len });
    }
    let mut bytes = [CLOSED; 17];
    bytes[..16].copy_from_slice(&HEADER);
    put(disk, 0, &bytes)?;
    Ok(())
}
