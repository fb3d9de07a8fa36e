//! The body of a request, in blocks.
ghost use Rattle.std.specs.Prelude.{◌≡◌, ◌≢◌, ◌+◌, ◌<◌, ◌≤◌, [], length, IfOk, IfErr, IfSome, OnOk};
ghost use Rattle.http_wire.specs.Devices.{Gives};
ghost use Rattle.outside.specs.Faults.{Rose};
ghost use Rattle.http_wire.specs.Heads.{AddsPiece, TakesFewer, TakesUpTo};

use super::FrameFault;
use crate::source::Source;
use std::alloc::Global;

/// The most bytes of a body that one call takes.
const BLOCK: usize = 1_024;

/// Takes up to `most` further bytes of a body, and at least one.
fn read_block<S: Source>(source: &mut S, body: &mut Vec<u8>, most: usize) -> Result<(), FrameFault>
    requires { 0 < most }
    ensures added { OnOk result
        (AddsPiece (S.left source.old) body.old.items most body.new.items (S.left source.new)) }
    ensures ended { IfErr result (λ e. e ≡ FrameFault.Unframed
        → IfSome (S.left source.old) (λ bytes. bytes ≡ [])) }
    ensures part { IfErr result (λ e. e ≢ FrameFault.OutOfMemory
        → TakesFewer most (S.left source.old) (S.left source.new)) }
    ensures wanting { IfErr result (λ e. e ≡ FrameFault.OutOfMemory
        → TakesUpTo most (S.left source.old) (S.left source.new)) }
    ensures failed { IfErr result (λ e. e ≡ FrameFault.SourceFailed
        → Rose (S.faults source.old) (S.faults source.new)) }
    ensures later { S.faults source.old ≤ S.faults source.new }
    ensures counted { OnOk result (S.supply source.old + length body.old.items
        ≡ S.supply source.new + length body.new.items) }
    ensures bounded { S.supply source.old ≤ S.supply source.new + most }
    ensures falls { S.supply source.new ≤ S.supply source.old }
{
    let mut block = [0; BLOCK];
    let most = most.min(BLOCK);
    match source.read(&mut block[..most]) {
        Ok(0) => Err(FrameFault::Unframed),
        Ok(count) => match body.extend_from_slice(&block[..count]) {
            Ok(()) => Ok(()),
            Err(_) => Err(FrameFault::OutOfMemory),
        },
        Err(_) => Err(FrameFault::SourceFailed),
    }
}

/// Reads a body of so many bytes. `Unframed` says that the source ends before.
pub(super) fn read_body<S: Source>(
    alloc: Global,
    source: &mut S,
    bytes: usize,
) -> Result<Vec<u8>, FrameFault>
    ensures long { IfOk result (λ body. length body.items ≡ bytes) }
    ensures found { IfOk result (λ body. Gives (S.left source.old) body.items (S.left source.new)) }
    ensures cut { IfErr result (λ e. e ≡ FrameFault.Unframed
        → IfSome (S.left source.old) (λ left. length left < bytes)) }
    ensures part { IfErr result (λ e. e ≢ FrameFault.OutOfMemory
        → TakesFewer bytes (S.left source.old) (S.left source.new)) }
    ensures wanting { IfErr result (λ e. e ≡ FrameFault.OutOfMemory
        → TakesUpTo bytes (S.left source.old) (S.left source.new)) }
    ensures failed { IfErr result (λ e. e ≡ FrameFault.SourceFailed
        → Rose (S.faults source.old) (S.faults source.new)) }
    ensures later { S.faults source.old ≤ S.faults source.new }
    ensures bounded { S.supply source.old ≤ S.supply source.new + bytes }
    ensures falls { S.supply source.new ≤ S.supply source.old }
{
    let mut body = Vec::new(alloc);
    'taking: while body.len() < bytes {
        let most = bytes - body.len();
        match read_block(source, &mut body, most) {
            Ok(()) => {}
            Err(fault) => return Err(fault),
        }
    }
    Ok(body)
}
