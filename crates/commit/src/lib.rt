// Commit: operations at the next epoch, and the bytes to append to the manifest.
#![tactic(auto)]

ghost use Rattle.std.specs.Prelude.{◌≡◌, ◌≤◌, length};
ghost use Rattle.ids.specs.Limits.{longest_manifest};
ghost use Rattle.ids.specs.Verdicts.{judged};
ghost use Rattle.version_state.specs.State.{state_of};
ghost use Rattle.operations.specs.Ready.{Ready};
ghost use Rattle.commit.specs.Commit.{last_rules, commit_of, CommitIs};
ghost use Rattle.commit.specs.Lent.{operations_in};
ghost use Rattle.commit.specs.Laws.{CommitLaws};

use ids::limits::{LAST_EPOCH, LONGEST_MANIFEST, MOST_OPERATIONS};
use ids::refusal::Refusal;
use operations::working::Working;
use text::ByteClasses;
use version_state::VersionManagerInner;

pub mod lines;
pub mod typed;

// The laws of an accepted commit.
pub fn holds()
    ensures { CommitLaws }
{}

// Internal, as is what follows. What is judged after the operations, for an append of `size` bytes and a lent buffer of `room`.
fn ending(working: &Working<'_>, size: usize, room: usize) -> Result<(), Refusal>
    requires { working.now.inner.now.manifest ≤ longest_manifest }
    ensures { result ≡ judged (last_rules working.now.epoch (state_of working.now.inner.now) size room) }
{
    if working.inner.left_behind(working.epoch) {
        return Err(Refusal::LeftBehind);
    }
    if LONGEST_MANIFEST - working.inner.manifest < size {
        return Err(Refusal::ManifestFull);
    }
    if room < size {
        return Err(Refusal::OutputTooShort);
    }
    Ok(())
}

// Operations lent as lines; answers how many bytes there are to append: `!`, `B`, the lent bytes, `E`. After a refusal the state is not to be used.
pub fn commit_lines(
    inner: &mut VersionManagerInner,
    ops: &[u8],
    out: &mut [u8],
) -> Result<usize, Refusal>
    requires ready { Ready inner.old }
    requires manifest { inner.old.manifest ≤ longest_manifest }
    ensures { CommitIs (commit_of (state_of inner.old) (length (operations_in ops.now)) (operations_in ops.now) (length out.old)) (operations_in ops.now) out.old result inner.new out.new }
{
    if MOST_OPERATIONS < lines::count(ops) {
        return Err(Refusal::TooManyOperations(0));
    }
    if LAST_EPOCH <= inner.epoch {
        return Err(Refusal::EpochsFull);
    }
    let epoch = inner.epoch + 1;
    let mut working = Working { inner, epoch };
    lines::steps(&mut working, &ByteClasses::new(), ops)?;
    let size = ops.len() + 6;
    ending(&working, size, out.len())?;
    frames::put_append(out, ops);
    working.inner.epoch = epoch;
    working.inner.manifest += size;
    Ok(size)
}
