//! A forest over numbers, whose trees are joined and asked for their roots. A slice gives each
//! number its parent, which is never above it; a root is its own parent.

ghost use Rattle.std.specs.Prelude.{◌≡◌, ◌<◌, ◌^◌, ℕ, length, slice_index, IfOk};
ghost use Rattle.dr_groups.specs.Forests.{IsForest, root, joined_root};

use std::alloc::{AllocError, Global};

/// The root of this number's tree. On the way each second parent is passed over, so that later
/// walks are short.
pub fn root_of(parents: &mut [u32], number: u32) -> u32
    requires within { number < length parents.old }
    requires forest { IsForest parents.old }

    ensures root { result ≡ root parents.old number }
    ensures forest { IsForest parents.new }
    ensures same_trees { (k : ℕ) → root parents.new k ≡ root parents.old k }
{
    let mut at = number;
    while parents[at as usize] != at {
        let next = parents[parents[at as usize] as usize];
        parents[at as usize] = next;
        at = next;
    }
    at
}

/// Joins the trees of two numbers: the greater root gets the lesser one as its parent.
pub fn join(parents: &mut [u32], a: u32, b: u32)
    requires first { a < length parents.old }
    requires second { b < length parents.old }
    requires forest { IsForest parents.old }

    ensures forest { IsForest parents.new }
    ensures joined { (k : ℕ) → root parents.new k ≡ joined_root (root parents.old a) (root parents.old b) (root parents.old k) }
{
    let x = root_of(parents, a);
    let y = root_of(parents, b);
    parents[x.max(y) as usize] = x.min(y);
}

/// Gives each number its root as its parent.
pub fn flatten(parents: &mut [u32])
    requires { IsForest parents.old }

    ensures { (k : ℕ) → k < length parents.new → slice_index parents.new k ≡ root parents.old k }
{
    for i in 0..parents.len() {
        parents[i] = parents[parents[i] as usize];
    }
}

/// A forest of so many numbers, each a tree of its own.
pub fn singletons(alloc: Global, count: usize) -> Result<Vec<u32>, AllocError>
    requires { count < 2 ^ 32 }

    ensures length { IfOk result (λ parents. length parents.items ≡ count) }
    ensures forest { IfOk result (λ parents. IsForest parents.items) }
    ensures apart { IfOk result (λ parents. (k : ℕ) → k < count → root parents.items k ≡ k) }
{
    let mut parents = Vec::new(alloc);
    for i in 0..count {
        parents.push(i as u32)?;
    }
    Ok(parents)
}
