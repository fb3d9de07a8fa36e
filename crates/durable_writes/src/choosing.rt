//! The moments that an Enter chooses, each by a word of a picker.
ghost use Rattle.std.specs.Prelude.{◌≡◌, ◌≤◌, length, IfOk, OnErr};
ghost use Rattle.std.specs.List.{All};
ghost use Rattle.sched_plain.specs.History.{History};
ghost use Rattle.policy_rules.specs.Given.{Gives};
ghost use Rattle.sched_calls.specs.Serves.{windows_of};
ghost use Rattle.durable_writes.specs.Choosing.{Chooses, Picks, DrewSome, words_for};

use policy_rules::{Picker, chosen};
use sched_plain::{LAST_MOMENT, LONGEST_WINDOW, Pair, Pairs};
use std::alloc::{AllocError, Global};
use step_machine::Machine;

/// The window of an incarnation at an instant, in minutes; 0 for OFF.
fn window_at<M: Machine>(machine: &M, inc: u32, instant: u64) -> u16
    requires lives { (h : History) × M.stands machine.now h }
    ensures window { (h : History) → M.stands machine.now h → result ≡ windows_of h inc instant }
    ensures within { result ≤ LONGEST_WINDOW }
{
    match machine.content(inc, instant) {
        Some(content) => content.window,
        None => 0,
    }
}

/// A word of the picker for a window; none is drawn where it is OFF.
fn word_for<P: Picker>(window: u16, picker: &mut P) -> u64
    ensures { Gives (P.told picker.old) (words_for window result) (P.told picker.new) }
{
    if window == 0 {
        return 0;
    }
    picker.word()
}

/// An instant with its chosen moment.
fn pick<M: Machine, P: Picker>(machine: &M, inc: u32, instant: u64, picker: &mut P) -> Pair
    requires lives { (h : History) × M.stands machine.now h }
    requires moment { instant ≤ LAST_MOMENT }
    ensures { (h : History) → M.stands machine.now h → Picks (windows_of h inc instant) instant (P.told picker.old) (P.told picker.new) result }
{
    let window = window_at(machine, inc, instant);
    let word = word_for(window, picker);
    Pair {
        instant,
        chosen: chosen(instant, window, word),
    }
}

/// The instants of an incarnation, each with its chosen moment. It fails only for want of memory.
pub(crate) fn choose<M: Machine, P: Picker>(
    alloc: Global,
    machine: &M,
    inc: u32,
    instants: &[u64],
    picker: &mut P,
) -> Result<Pairs, AllocError>
    requires lives { (h : History) × M.stands machine.now h }
    requires moments { All (λ i. i ≤ LAST_MOMENT) instants.now }
    ensures chosen { IfOk result (λ pairs. (h : History) → M.stands machine.now h → Chooses (windows_of h inc) instants.now (P.told picker.old) (P.told picker.new) pairs) }
    ensures dropped { OnErr result (DrewSome (length instants.now) (P.told picker.old) (P.told picker.new)) }
{
    let mut pairs = Vec::new(alloc);
    for instant in instants {
        let pair = pick(machine, inc, *instant, picker);
        if pairs.push(pair).is_err() {
            return Err(AllocError);
        }
    }
    Ok(Pairs::from_vec(pairs))
}
