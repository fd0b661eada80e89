// A state that has passed 29, lent.
ghost use Rattle.std.specs.Prelude.{◌≡◌, false};
ghost use Rattle.version_state.specs.Sound.{bad_inner};

use crate::VersionManagerInner;

// What is called below a judged manager takes this, and asks nothing of the state.
#[derive(Clone, Copy)]
pub struct SoundState<'a> {
    pub inner: &'a VersionManagerInner,
    pub ghost sound: { bad_inner inner.now ≡ false },
}
