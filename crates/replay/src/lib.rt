// Replay: from the bytes of a manifest to the state at its end.
#![tactic(auto)]

ghost use Rattle.replay.specs.Replay.{replay_of, ReplayIs};

use ids::limits::LONGEST_MANIFEST;
use ids::refusal::Refusal;
use text::ByteClasses;
use version_state::VersionManagerInner;

pub mod changes;
pub mod finish;
pub mod frame;
pub mod lines;
pub mod said;
pub mod sets;

pub use sets::Sets;

// From the bytes of a manifest to the state at its end.
pub fn replay(src: &[u8]) -> Result<VersionManagerInner, Refusal>
    ensures { ReplayIs (replay_of src.now) result }
{
    if LONGEST_MANIFEST < src.len() {
        return Err(Refusal::ManifestTooLong);
    }
    let manifest = said::Manifest {
        src,
        classes: ByteClasses::new(),
    };
    let mut sets = Sets::new();
    sets.read(&manifest)?;
    sets.finish()
}
