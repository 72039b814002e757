// The disagreements that a step adds.
ghost use Rattle.std.specs.Prelude.{◌≡◌, ◌*◌, ◌≤◌, ◌<◌, drop, replicate, set};
ghost use Rattle.distance.specs.Steps.{step_cost, zero_cost, branch_cost};

use super::prefix;

// The disagreements of the two coded bits that a register gives after `depth` bits and one more.
// The received bits and the depth are no struct: the depth is another at each step, the bits aren't.
fn step_cost(received: &[u8; 162], depth: usize, register: u32) -> u32
    requires { depth < 81 }
    ensures { result ≡ step_cost (drop (2 * depth) received.now) register }
{
    u32::from(convolution::first_coded(register) != received[2 * depth])
        + u32::from(convolution::second_coded(register) != received[2 * depth + 1])
}

// What a 0 after a prefix adds to its disagreements.
pub(crate) fn zero_cost(received: &[u8; 162], depth: usize, number: u64) -> u32
    requires { depth < 81 }
    ensures { result ≡ zero_cost received.now depth number }
{
    step_cost(
        received,
        depth,
        convolution::clock(prefix::register(depth, number), 0),
    )
}

// The costs at the start of a search: only that of a 0 after the empty prefix is known.
pub(crate) fn root_costs(received: &[u8; 162]) -> [u32; 81]
    ensures { result ≡ set (replicate 81 0) 0 (zero_cost received.now 0 0) }
{
    let mut costs = [0u32; 81];
    costs[0] = zero_cost(received, 0, 0);
    costs
}

// What a branch adds, given what a 0 does: the coded bits of a 1 are the others.
pub(crate) fn branch_cost(zero: u32, branch: u64) -> u32
    requires { zero ≤ 2 }
    ensures { result ≡ branch_cost zero branch }
{
    if branch == 0 { zero } else { 2 - zero }
}
