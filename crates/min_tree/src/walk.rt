//! The search in a tree.
ghost use Rattle.std.specs.Prelude.{◌≡◌, ℕ, ◌+◌, ◌*◌, ◌≤◌, ◌<◌, IfSome, IfNone, length};
ghost use Rattle.min_tree.specs.Heap.{IsHeap, IsSized, node};
ghost use Rattle.min_tree.specs.Walk.{IsNode, Passed, IsFirstLeaf, NoLeaf, IsClimbed};

/// A node that is at most the bound, and how many levels it stands above the leaves.
#[derive(Clone, Copy)]
pub struct Spot {
    pub node: usize,
    pub level: usize,
}

/// The first leaf, from a place on, that is at most a bound.
pub fn first_from(
    tree: &[u64],
    leaves: usize,
    levels: usize,
    from: usize,
    bound: u64,
) -> Option<usize>
    requires sized { IsSized tree.now leaves levels }
    requires heap { IsHeap tree.now leaves }
    requires from { from < leaves }
    ensures some { IfSome result (IsFirstLeaf tree.now leaves from bound) }
    ensures none { IfNone result (NoLeaf tree.now leaves from bound) }
{
    match climb(tree, leaves, levels, leaves + from, bound) {
        Some(spot) => Some(descend(tree, leaves, levels, leaves + from, bound, spot) - leaves),
        None => None,
    }
}

/// Goes to the right, and up whenever the next node is a left child, until a node is at most the bound.
fn climb(tree: &[u64], leaves: usize, levels: usize, from: usize, bound: u64) -> Option<Spot>
    requires sized { IsSized tree.now leaves levels }
    requires heap { IsHeap tree.now leaves }
    requires low { leaves ≤ from }
    requires high { from < 2 * leaves }
    ensures some { IfSome result (IsClimbed tree.now leaves levels from bound) }
    ensures none { IfNone result ((j : ℕ) → from ≤ j → j < 2 * leaves → bound < node tree.now j) }
{
    let mut at = from;
    let mut first = leaves;
    let mut level: usize = 0;
    while tree[at] > bound {
        at += 1;
        if at == 2 * first {
            return None;
        }
        if at % 2 == 0 {
            at /= 2;
            first /= 2;
            level += 1;
        }
    }
    let _ = levels;
    Some(Spot { node: at, level })
}

/// Goes down from a node that is at most the bound to the first leaf that is.
fn descend(tree: &[u64], leaves: usize, levels: usize, from: usize, bound: u64, spot: Spot) -> usize
    requires sized { IsSized tree.now leaves levels }
    requires heap { IsHeap tree.now leaves }
    requires climbed { IsClimbed tree.now leaves levels from bound spot }
    ensures leaf { leaves ≤ result }
    ensures within { result < 2 * leaves }
    ensures behind { from ≤ result }
    ensures low { node tree.now result ≤ bound }
    ensures before { (j : ℕ) → from ≤ j → j < result → bound < node tree.now j }
{
    let _ = levels;
    let mut at = spot.node;
    let mut level = spot.level;
    while level > 0 {
        level -= 1;
        at *= 2;
        if tree[at] > bound {
            at += 1;
        }
    }
    at
}
