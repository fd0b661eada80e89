// Pin and unpin, lent the pin book and altering it there.
#![tactic(auto)]

ghost use Rattle.std.specs.Prelude.{◌≡◌, ◌&&◌, [], ◌∷◌, leb, eqb};
ghost use Rattle.ids.specs.declared.refusal.Refusal.TheVariants.{BadManager, BadPinBook, PinAtEpochZero, PinsFull, PinnedEpochsFull};
ghost use Rattle.ids.specs.Verdicts.{◌⇒◌, judged};
ghost use Rattle.pins.specs.Book.{most_pins, bad_book};
ghost use Rattle.version_manager.specs.Managers.{bad_manager};
ghost use Rattle.pinning.specs.Says.{current, PinSays, UnpinSays};
ghost use Rattle.pinning.specs.Laws.{PinLaws};

use ids::refusal::Refusal;
use pins::{MOST_PINS, PinBook, Place};
use version_manager::VersionManager;

// For callers that go by value: the book afterwards, beside the answer. The C interface has such a struct of its own, in numbers.
#[derive(Drop)]
pub struct Stepped<T> {
    pub book: PinBook,
    pub answer: Result<T, Refusal>,
}

// The epoch that is pinned.
pub type PinStep = Stepped<u32>;

pub type UnpinStep = Stepped<Readiness>;

// Whether a vacuum is due, and how many deletions it would list: two answers of the specification, for which an Option of the second
// would be no plainer.
#[derive(Clone, Copy)]
pub struct Readiness {
    pub due: bool,
    pub ready: usize,
}

// A book that passes 28 passes it after a pin or an unpin.
pub fn holds()
    ensures { PinLaws }
{}

// Refusals 29 and 28, in this order.
fn judge(manager: &VersionManager, book: &PinBook) -> Result<(), Refusal>
    ensures { result ≡ judged ((bad_manager manager.now ⇒ BadManager) ∷ (bad_book (current manager.now) book.now ⇒ BadPinBook) ∷ []) }
{
    if manager.bad() {
        return Err(Refusal::BadManager);
    }
    if book.bad(manager.inner.epoch) {
        return Err(Refusal::BadPinBook);
    }
    Ok(())
}

// Refusals 10, 18 and 19, in this order, for an epoch with `pins` pins. One without pins needs a place in the book.
fn judge_pin(epoch: u32, pins: u16, full: bool) -> Result<(), Refusal>
    ensures { result ≡ judged ((eqb epoch 0 ⇒ PinAtEpochZero) ∷ (leb most_pins pins ⇒ PinsFull) ∷ ((eqb pins 0 && full) ⇒ PinnedEpochsFull) ∷ []) }
{
    if epoch == 0 {
        return Err(Refusal::PinAtEpochZero);
    }
    if MOST_PINS <= pins {
        return Err(Refusal::PinsFull);
    }
    if pins == 0 && full {
        return Err(Refusal::PinnedEpochsFull);
    }
    Ok(())
}

pub fn pin(manager: VersionManager, book: &mut PinBook) -> Result<u32, Refusal>
    ensures { PinSays manager book.old result book.new }
{
    judge(&manager, book)?;
    let epoch = manager.inner.epoch;
    let place = Place { epoch };
    let pins = book.pins_at(place);
    judge_pin(epoch, pins, book.is_full())?;
    book.recount(place, pins + 1);
    Ok(epoch)
}

pub fn unpin(manager: VersionManager, book: &mut PinBook, epoch: u32) -> Result<Readiness, Refusal>
    ensures { UnpinSays manager epoch book.old result book.new }
{
    judge(&manager, book)?;
    let place = Place { epoch };
    let pins = book.pins_at(place);
    if pins == 0 {
        return Err(Refusal::EpochNotPinned);
    }
    let left = pins - 1;
    book.recount(place, left);
    let current = manager.inner.epoch;
    if left != 0 || epoch == current {
        return Ok(Readiness {
            due: false,
            ready: 0,
        });
    }
    // The rowsets are copied out: lent, they keep a copy of the whole manager, measured as 0.5 of 2.7 us.
    let held = manager.inner.rowsets;
    let bound = book.bound(current);
    let ready = vacuum::counted(&held, bound);
    Ok(Readiness { due: true, ready })
}

// For callers that go by value: a book of one's own is lent to `pin`, and handed back beside the answer.
pub fn pinned(manager: VersionManager, old: PinBook) -> PinStep
    ensures { PinSays manager old result.answer result.book }
{
    let mut book = old;
    let answer = pin(manager, &mut book);
    Stepped { book, answer }
}

pub fn unpinned(manager: VersionManager, old: PinBook, epoch: u32) -> UnpinStep
    ensures { UnpinSays manager epoch old result.answer result.book }
{
    let mut book = old;
    let answer = unpin(manager, &mut book, epoch);
    Stepped { book, answer }
}
