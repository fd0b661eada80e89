// Reopen: a manifest is replayed, and what it holds is handed out with a manifest written anew.
#![tactic(auto)]

ghost use Rattle.std.specs.Prelude.{◌≡◌, [], length, Err};
ghost use Rattle.ids.specs.Answers.{told};
ghost use Rattle.version_state.specs.State.{start, state_of, Fit};
ghost use Rattle.version_manager.specs.Managers.{Manages};
ghost use Rattle.pins.specs.Book.{Keeps};
ghost use Rattle.storage.specs.Reopen.{opened_of, reopen_told, ReopenIs, ReopenSays};

use ids::refusal::Refusal;
use pins::PinBook;
use version_manager::{Opened, VersionManager};
use version_state::VersionManagerInner;

// What a reopen hands out. The C interface has such a struct of its own, in numbers.
#[derive(Drop)]
pub struct Reopened {
    pub manager: VersionManager,
    pub book: PinBook,
    // How many bytes the rewritten manifest has.
    pub answer: Result<usize, Refusal>,
}

fn refused(refusal: Refusal) -> Reopened
    ensures { (reopen_told result.answer ≡ told (Err refusal) []) × Manages result.manager start × Keeps result.book [] }
{
    let Opened { manager, book } = VersionManager::fresh();
    Reopened {
        manager,
        book,
        answer: Err(refusal),
    }
}

// Internal: what was replayed is handed out with its manifest.
// The structs of the C interface cannot say that their counts are within the columns.
fn opened(replayed: VersionManagerInner, out: &mut [u8]) -> Reopened
    requires { Fit replayed }
    ensures { ReopenIs (opened_of (length out.old) (state_of replayed)) out.old result out.new }
{
    let mut inner = replayed;
    match rewrite::rewrite_into(&mut inner, out) {
        Ok(length) => Reopened {
            manager: version_manager::handed(inner),
            book: PinBook::none(),
            answer: Ok(length),
        },
        Err(short) => refused(Refusal::from(short)),
    }
}

pub fn bootstrap(src: &[u8], out: &mut [u8]) -> Reopened
    ensures { ReopenSays src.now out.old result out.new }
{
    match replay::replay(src) {
        Ok(inner) => opened(inner, out),
        Err(refusal) => refused(refusal),
    }
}
