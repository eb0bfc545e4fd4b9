//! The generator of `random`.

ghost use Rattle.std.specs.Prelude.{◌≡◌};
ghost use Rattle.ax_sched.specs.Mix.{mix};

/// Number n, counted from 0, of the generator SplitMix64 with this seed (Steele, Lea, Flood, "Fast
/// splittable pseudorandom number generators").
pub fn mix(seed: u64, n: u64) -> u64
    ensures { result ≡ mix seed n }
{
    let place = n.wrapping_add(1).wrapping_mul(0x9E37_79B9_7F4A_7C15);
    let z = seed.wrapping_add(place);
    let z = (z ^ z >> 30).wrapping_mul(0xBF58_476D_1CE4_E5B9);
    let z = (z ^ z >> 27).wrapping_mul(0x94D0_49BB_1331_11EB);
    z ^ z >> 31
}
