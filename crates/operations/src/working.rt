// What the operations of a commit alter.
ghost use Rattle.operations.specs.Ready.{Ready};

use version_state::VersionManagerInner;

// A state that operations alter one after another, and the epoch that they are of. Each leaves it ready for the next.
#[derive(Drop)]
pub struct Working<'a> {
    pub inner: &'a mut VersionManagerInner,
    pub epoch: u32,
    pub ghost ready: { Ready inner.now },
}
