//! How far apart the machines of a trail are held.
ghost use Rattle.std.specs.Prelude.{◌≡◌, ◌<◌, ◌≤◌, ◌*◌, ◌/◌};
ghost use Rattle.checkpoints.specs.Work.{spacing_for};

/// Returns how far apart machines are held where a step may be chosen up to a greatest one: the least power of two from 1,024 on of which
/// 4,096 reach it, 1,048,576 at the most.
#[tactic(auto, using(crate::proofs::SpacingSteps::fitting))]
pub fn spacing_for(limit: u32) -> u32
    ensures spacing { result ≡ spacing_for limit }
    ensures apart { 0 < result }
    ensures small { result ≤ 1048576 }
    ensures whole { result * (4294967296 / result) ≡ 4294967296 }
{
    match limit {
        0..=4_194_304 => 1 << 10,
        ..=8_388_608 => 1 << 11,
        ..=16_777_216 => 1 << 12,
        ..=33_554_432 => 1 << 13,
        ..=67_108_864 => 1 << 14,
        ..=134_217_728 => 1 << 15,
        ..=268_435_456 => 1 << 16,
        ..=536_870_912 => 1 << 17,
        ..=1_073_741_824 => 1 << 18,
        ..=2_147_483_648 => 1 << 19,
        _ => 1 << 20,
    }
}
