//! The generator of the script's numbers.

ghost use Rattle.std.specs.Prelude.{◌≡◌, ◌<◌, ◌≤◌};
ghost use Rattle.script_maker.specs.Script.{drawn, given_of};

const MULTIPLIER: u64 = 6_364_136_223_846_793_005;

const INCREMENT: u64 = 1_442_695_040_888_963_407;

/// The next state of the generator: a linear congruence of 64 bits.
pub(crate) fn drawn(state: u64) -> u64
    ensures { result ≡ drawn state }
{
    state.wrapping_mul(MULTIPLIER).wrapping_add(INCREMENT)
}

/// What a state gives of the numbers below `count`: by its upper 31 bits.
pub(crate) fn given_of(count: u64, state: u64) -> u64
    requires { 1 ≤ count }
    ensures { result ≡ given_of count state }
{
    (state / 0x2_0000_0000) % count
}
