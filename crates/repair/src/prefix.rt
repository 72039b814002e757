// Prefixes by their numbers, as the search goes from one to the next: longer by a branch, and back.
// Only the bits of the word branch; the bits of the tail are zeros.
ghost use Rattle.std.specs.Prelude.{◌≡◌, ◌^◌, ◌≤◌, ◌<◌};
ghost use Rattle.distance.specs.Steps.{branches_of, child_of, parent_of, last_branch, register_of};

// How many prefixes are one bit longer.
pub(crate) fn branches(depth: usize) -> u64
    ensures { result ≡ branches_of depth }
{
    if depth < 50 { 2 } else { 1 }
}

// The number of the prefix that is longer by a branch.
pub(crate) fn child(depth: usize, number: u64, branch: u64) -> u64
    requires number_bound { number < 2 ^ 50 }
    requires branch_bound { branch < 2 }
    ensures { result ≡ child_of depth number branch }
{
    if depth < 50 {
        2 * number + branch
    } else {
        number
    }
}

// The number of the prefix, `depth` bits long, that this one makes longer.
pub(crate) fn parent(depth: usize, number: u64) -> u64
    ensures { result ≡ parent_of depth number }
{
    if depth < 50 { number / 2 } else { number }
}

// The branch by which a prefix is longer than one of `depth` bits.
pub(crate) fn last_branch(depth: usize, number: u64) -> u64
    ensures { result ≡ last_branch depth number }
{
    if depth < 50 { number % 2 } else { 0 }
}

// The register after the bits of a prefix.
pub(crate) fn register(depth: usize, number: u64) -> u32
    requires { depth ≤ 81 }
    ensures { result ≡ register_of depth number }
{
    let lowest = (number % (1 << 32)) as u32;
    if depth < 50 {
        lowest
    } else {
        lowest << (depth - 50)
    }
}
