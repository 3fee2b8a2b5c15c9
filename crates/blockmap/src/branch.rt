// Where a block of a file stands behind the addresses of its inode.
ghost use Rattle.std.specs.Prelude.{◌≡◌, ◌≢◌, ◌<◌, ◌≤◌, suc};
ghost use Rattle.model.specs.Format.{addresses_per_block};
ghost use Rattle.model.specs.Layout.{reach};
ghost use Rattle.blockmap.specs.Branch.{block_limit, branch_of, entry_under, node_at, rest_under};

use layout::{direct_count, reach};
use model::types::Form;

/// Where a block of a file stands: behind which of the 13 addresses of its inode, and there.
#[derive(Clone, Copy)]
pub struct Branch {
    /// The address's index.
    pub index: usize,
    /// Through how many blocks of addresses it leads to the data, from 0 to 2.
    pub depth: u32,
    /// Which of the blocks behind it, the first being 0.
    pub rest: u32,
}

/// Where block `k` of a file stands in an image of that form.
pub fn branch_of(form: Form, k: u32) -> Branch
    requires within { k < block_limit form }
    ensures branch { result ≡ branch_of form k }
    ensures index { result.index < 13 }
{
    let direct = direct_count(form);
    if k < direct as u32 {
        return Branch {
            index: k as usize,
            depth: 0,
            rest: 0,
        };
    }
    let rest = k - direct as u32;
    if rest < reach(1) {
        return Branch {
            index: direct,
            depth: 1,
            rest,
        };
    }
    Branch {
        index: direct + 1,
        depth: 2,
        rest: rest - reach(1),
    }
}

/// A block of addresses on the way to a block of a file.
#[derive(Clone, Copy)]
pub struct Node {
    /// The block of addresses.
    pub block: u32,
    /// Through how many more of them its entries lead to the data: 0 or 1.
    pub level: u32,
    /// Which of the file's blocks below it is sought, the first being 0.
    pub rest: u32,
}

impl Node {
    // A block of addresses, from which one goes through so many of them to the data, itself
    // included.
    pub(crate) fn at(block: u32, depth: u32, rest: u32) -> Node
        requires { depth ≢ 0 }
        ensures { result ≡ node_at depth rest block }
    {
        Node {
            block,
            level: depth - 1,
            rest,
        }
    }

    // The entry below which it is sought.
    pub(crate) fn entry(&self) -> u32
        requires shallow { self.now.level ≤ 1 }
        requires reached { self.now.rest < reach (suc self.now.level) }
        ensures entry { result ≡ entry_under self.now }
        ensures within { result < addresses_per_block }
    {
        self.rest / reach(self.level)
    }

    // Which of the blocks below that entry.
    pub(crate) fn rest_below(&self) -> u32
        requires shallow { self.now.level ≤ 1 }
        ensures { result ≡ rest_under self.now }
    {
        self.rest % reach(self.level)
    }
}
