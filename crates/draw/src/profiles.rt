// What a draw repeats under each profile (02): passes, or round trips of a pass out and a pass back.
// Both count from 1.
ghost use Rattle.std.specs.Prelude.{◌≡◌, ◌≤◌};
ghost use Rattle.draw.specs.Profile.{passes_fit, volume_count, first_pass};

use crate::Profile;
use crate::passing::Judged;

// 3 to 20 passes; of round trips an even number, from 6 to 20.
pub(crate) fn accepts(profile: Profile, passes: u64) -> bool
    ensures { result ≡ passes_fit profile passes }
{
    match profile {
        Profile::Unidirectional => ranges::are_passes(passes),
        Profile::Bidirectional => (passes % 2 == 0) & ranges::are_paired_passes(passes),
    }
}

// As many as there are passes, or pairs of passes.
pub(crate) fn count_volumes(profile: Profile, judged: &Judged) -> u8
    ensures { result ≡ volume_count profile judged.now.records.now }
{
    let passes = judged.count_passes();
    match profile {
        Profile::Unidirectional => passes,
        Profile::Bidirectional => passes / 2,
    }
}

// The pass that a volume begins with, by the volume's number: of a round trip the pass out, which is odd.
pub(crate) fn first_pass(profile: Profile, number: u8) -> u8
    requires { (1 ≤ number) × (number ≤ 21) }
    ensures { result ≡ first_pass profile number }
{
    match profile {
        Profile::Unidirectional => number,
        Profile::Bidirectional => 2 * number - 1,
    }
}
