// The search: live prefixes are visited depth first and counted, until all are or the budget is
// passed.
ghost use Rattle.std.specs.Prelude.{◌≤◌};
ghost use Rattle.frame.specs.Symbols.{DataBits};
ghost use Rattle.repair.specs.Search.{SearchFound};

use super::best::Best;
use super::{cost, prefix};

// What a search found: the live count, or one more than the budget, and the nearest word. No Option for
// what is over the budget: `SearchFound` says of it no more than that it is.
#[derive(Clone, Copy)]
pub(crate) struct Found {
    pub live: u32,
    pub best: Best,
}

// Visits each live prefix before the longer ones that begin with it, depth first, and stops at once
// when they are more than the budget. Labelled loops over depth and branch, left from inside: a project
// rule names that form, so the branches are counted by hand and no range is gone through.
pub(crate) fn search(received: &[u8; 162], limit: u32, budget: u32) -> Found
    requires data_bits { DataBits received.now }
    requires limit_bound { limit ≤ 12 }
    requires budget_bound { budget ≤ 65_536 }
    ensures { SearchFound received.now limit budget result }
{
    // The search stands at the prefix of `depth` bits with this number and these disagreements, and
    // takes its branches from `branch` on. costs[d] is what a 0 adds after its first d bits;
    // it is no stack beside `depth`, which the prefix has too.
    let mut costs = cost::root_costs(received);
    let mut best = Best::none_found(limit);
    let mut live: u32 = 0;
    let mut depth = 0;
    let mut number: u64 = 0;
    let mut disagreements: u32 = 0;
    let mut branch: u64 = 0;
    'depths: loop {
        while branch < prefix::branches(depth) {
            let longer = disagreements + cost::branch_cost(costs[depth], branch);
            if longer <= limit {
                live += 1;
                if budget < live {
                    break 'depths;
                }
                if depth < 80 {
                    number = prefix::child(depth, number, branch);
                    disagreements = longer;
                    branch = 0;
                    depth += 1;
                    costs[depth] = cost::zero_cost(received, depth, number);
                    continue 'depths;
                }
                best = best.with_word(number, longer);
            }
            branch += 1;
        }
        if depth == 0 {
            break 'depths;
        }
        depth -= 1;
        branch = prefix::last_branch(depth, number);
        number = prefix::parent(depth, number);
        disagreements -= cost::branch_cost(costs[depth], branch);
        branch += 1;
    }
    Found { live, best }
}
