ghost use Rattle.std.specs.Prelude.{◌≡◌};
ghost use Rattle.cep_load.specs.Draw.{drawn, step};

/// What a draw multiplies the state by.
const MULTIPLIER: u64 = 6364136223846793005;

/// What it adds then.
const INCREMENT: u64 = 1442695040888963407;

/// The state that a draw leaves.
pub(crate) fn step(state: u64) -> u64
    ensures { result ≡ step state }
{
    state.wrapping_mul(MULTIPLIER).wrapping_add(INCREMENT)
}

/// The number that a draw gives.
pub(crate) fn drawn(state: u64) -> u64
    ensures { result ≡ drawn state }
{
    step(state) / (1 << 33)
}
