//! Writing a leaf, and building a tree.
ghost use Rattle.std.specs.Prelude.{◌≡◌, ◌+◌, ◌*◌, ◌/◌, ◌≤◌, ◌<◌, length, IfOk, OnOk, slice_set, take, drop};
ghost use Rattle.min_tree.specs.Heap.{IsHeap, IsHeapBut, IsSized, IsSpareFrom, row};

use std::alloc::{AllocError, Global};

/// The most leaves that a tree may have, so that every node has a place.
const MOST_LEAVES: usize = 1 << 44;

/// What stands at a leaf that is not in use, and is the least number of none. No number is above it.
pub const ABOVE_ALL: u64 = u64::MAX;

/// Writes a leaf, and the minima above it; a leaf that is so already is only read.
pub fn put(tree: &mut Vec<u64>, leaves: usize, levels: usize, place: usize, value: u64)
    requires sized { IsSized tree.old.items leaves levels }
    requires heap { IsHeap tree.old.items leaves }
    requires place { place < leaves }
    ensures sized { IsSized tree.new.items leaves levels }
    ensures heap { IsHeap tree.new.items leaves }
    ensures leaves { drop leaves tree.new.items ≡ slice_set (drop leaves tree.old.items) place value }
{
    let _ = levels;
    if tree[leaves + place] == value {
        return;
    }
    tree[leaves + place] = value;
    lift(tree, leaves, leaves + place);
}

/// Mends the minima above a node, where all others are right.
fn lift(tree: &mut [u64], leaves: usize, at: usize)
    requires size { length tree.old ≡ 2 * leaves }
    requires within { at < 2 * leaves }
    requires heap { IsHeapBut tree.old leaves (at / 2) }
    ensures size { length tree.new ≡ 2 * leaves }
    ensures heap { IsHeap tree.new leaves }
    ensures leaves { drop leaves tree.new ≡ drop leaves tree.old }
{
    let mut node = at;
    while node > 1 {
        node /= 2;
        tree[node] = tree[2 * node].min(tree[2 * node + 1]);
    }
}

/// The leaves of the next larger tree.
pub fn next_leaves(leaves: usize, levels: usize) -> usize
    requires rows { leaves ≡ row levels }
    requires few { leaves < MOST_LEAVES }
    ensures rows { result ≡ row (levels + 1) }
    ensures more { leaves < result }
    ensures bound { result ≤ 2 * leaves + 1 }
{
    if levels == 0 { 1 } else { 2 * leaves }
}

/// The next larger tree, with the same leaves and then others.
pub fn grown(
    tree: &[u64],
    leaves: usize,
    levels: usize,
    alloc: Global,
) -> Result<Vec<u64>, AllocError>
    requires { IsSized tree.now leaves levels }
    ensures sized { IfOk result (λ t. IsSized t.items (row (levels + 1)) (levels + 1)) }
    ensures heap { IfOk result (λ t. IsHeap t.items (row (levels + 1))) }
    ensures more { OnOk result (leaves < row (levels + 1)) }
    ensures leaves { IfOk result (λ t. take leaves (drop (row (levels + 1)) t.items) ≡ drop leaves tree.now) }
    ensures spare { IfOk result (λ t. IsSpareFrom (drop (row (levels + 1)) t.items) leaves) }
{
    if leaves >= MOST_LEAVES / 2 {
        return Err(AllocError);
    }
    let more = next_leaves(leaves, levels);
    let mut larger = laid_out(alloc, &tree[leaves..], more)?;
    build(&mut larger, more);
    Ok(larger)
}

/// So many nodes above, then these leaves, and as many more as make the tree whole.
fn laid_out(alloc: Global, leaves: &[u64], more: usize) -> Result<Vec<u64>, AllocError>
    requires fits { length leaves.now ≤ more }
    requires few { more ≤ MOST_LEAVES }
    ensures size { IfOk result (λ t. length t.items ≡ 2 * more) }
    ensures leaves { IfOk result (λ t. take (length leaves.now) (drop more t.items) ≡ leaves.now) }
    ensures spare { IfOk result (λ t. IsSpareFrom (drop more t.items) (length leaves.now)) }
{
    let mut tree = Vec::with_capacity(alloc, 2 * more)?;
    tree.resize(more, 0)?;
    tree.extend_from_slice(leaves)?;
    tree.resize(2 * more, ABOVE_ALL)?;
    Ok(tree)
}

/// Makes each node that is no leaf the lesser of its children, from the last to the first.
fn build(tree: &mut [u64], leaves: usize)
    requires size { length tree.old ≡ 2 * leaves }
    ensures size { length tree.new ≡ 2 * leaves }
    ensures heap { IsHeap tree.new leaves }
    ensures leaves { drop leaves tree.new ≡ drop leaves tree.old }
{
    let mut node = leaves;
    while node > 1 {
        node -= 1;
        tree[node] = tree[2 * node].min(tree[2 * node + 1]);
    }
}
