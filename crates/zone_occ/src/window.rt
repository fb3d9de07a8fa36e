//! The first moments that were found so far, rising and each once.
ghost use Rattle.std.specs.Prelude.{◌≡◌, ◌≤◌, Some, MatchResult, OnOk, vec_len};
ghost use Rattle.std.specs.List.{Contains};
ghost use Rattle.std.specs.List.Sorted.{IsStrictlyIncreasing};
ghost use Rattle.zone_occ.specs.FirstInstants as firsts;
ghost use Rattle.zone_occ.specs.Window.{IsPlace, IsOffered};

use std::alloc::AllocError;

/// How far the first `max` moments are complete: to the last of them where there are so many, and
/// else to the end.
pub fn complete_to(moments: &[u64], max: usize, to: u64) -> u64
    requires { 1 ≤ max }
    ensures { result ≡ firsts.complete_to max to moments.now }
{
    if moments.len() == max {
        moments[max - 1]
    } else {
        to
    }
}

/// Where a moment belongs: `Ok` where it is there already.
fn place_of(moments: &[u64], moment: u64) -> Result<usize, usize>
    requires { IsStrictlyIncreasing moments.now }
    ensures { MatchResult result (λ _. Contains moments.now moment) (IsPlace moments.now moment) }
{
    moments.binary_search(&moment)
}

/// Puts a moment into its place, where it is not there already, and keeps the first `max`.
fn put(moments: &mut Vec<u64>, max: usize, moment: u64) -> Result<(), AllocError>
    requires rising { IsStrictlyIncreasing moments.old.items }
    requires few { vec_len moments.old ≤ max }
    requires low { 1 ≤ max }
    ensures { OnOk result (IsOffered max moments.old.items (Some moment) moments.new.items) }
{
    match place_of(moments.as_slice(), moment) {
        Ok(_) => Ok(()),
        Err(place) => {
            moments.insert(place, moment)?;
            moments.truncate(max);
            Ok(())
        }
    }
}

/// Puts a moment that was found into its place. After want of memory the moments are of no use.
pub fn offer(moments: &mut Vec<u64>, max: usize, found: Option<u64>) -> Result<(), AllocError>
    requires rising { IsStrictlyIncreasing moments.old.items }
    requires few { vec_len moments.old ≤ max }
    requires low { 1 ≤ max }
    ensures { OnOk result (IsOffered max moments.old.items found moments.new.items) }
{
    match found {
        Some(moment) => put(moments, max, moment),
        None => Ok(()),
    }
}
