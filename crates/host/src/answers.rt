// Each answer of the library as numbers.
ghost use Rattle.std.specs.Prelude.{◌≡◌, ℕ, List, [], ◌∷◌, take};
ghost use Rattle.pinning.specs.Says.{flag};
ghost use Rattle.host.specs.Numbers.{said_by, told_by};

use ids::refusal::Refusal;
use ids::{RowsetNo, VectorNo};
use pinning::Readiness;
use version_manager::{Appended, NewTable, NewVectors, TakenBack};

// The refusal's number, or 0 where the call was accepted; the refusal's place; and the first `count` values of an accepted call. C reads it,
// which has neither `Result` nor slices.
#[repr(C)]
#[derive(Clone, Copy)]
pub struct Answer {
    pub number: u32,
    pub place: usize,
    pub count: usize,
    pub values: [u64; 3],
}

// What an accepted call gives, as numbers. Each type's one line names its own fields, so that those of two numbers look alike.
pub(crate) trait Values {
    ghost numbers: { Self → List ℕ };

    // Three places, and how many of them count.
    fn values(self) -> ([u64; 3], usize)
        ensures { take result.1 result.0 ≡ numbers self };
}

impl Values for () {
    ghost numbers = { λ _. [] };

    fn values(self) -> ([u64; 3], usize) {
        ([0; 3], 0)
    }
}

impl Values for u32 {
    ghost numbers = { λ n. n ∷ [] };

    fn values(self) -> ([u64; 3], usize) {
        ([u64::from(self), 0, 0], 1)
    }
}

impl Values for usize {
    ghost numbers = { λ n. n ∷ [] };

    fn values(self) -> ([u64; 3], usize) {
        ([self as u64, 0, 0], 1)
    }
}

impl Values for RowsetNo {
    ghost numbers = { λ id. id.0 ∷ [] };

    fn values(self) -> ([u64; 3], usize) {
        self.0.values()
    }
}

impl Values for VectorNo {
    ghost numbers = { λ id. id.0 ∷ [] };

    fn values(self) -> ([u64; 3], usize) {
        ([self.0, 0, 0], 1)
    }
}

impl Values for NewVectors {
    ghost numbers = { λ made. made.count ∷ made.first.0 ∷ [] };

    fn values(self) -> ([u64; 3], usize) {
        ([self.count as u64, self.first.0, 0], 2)
    }
}

// Its own two fields: a shared function would take both, and be no plainer.
impl Values for Appended {
    ghost numbers = { λ done. done.epoch ∷ done.length ∷ [] };

    fn values(self) -> ([u64; 3], usize) {
        ([u64::from(self.epoch), self.length as u64, 0], 2)
    }
}

impl Values for NewTable {
    ghost numbers = { λ made. made.table.0 ∷ made.epoch ∷ made.length ∷ [] };

    fn values(self) -> ([u64; 3], usize) {
        (
            [
                u64::from(self.table.0),
                u64::from(self.epoch),
                self.length as u64,
            ],
            3,
        )
    }
}

// As of `Appended`, its own two fields: a shared function would be no plainer.
impl Values for TakenBack {
    ghost numbers = { λ back. back.epoch ∷ back.manifest ∷ [] };

    fn values(self) -> ([u64; 3], usize) {
        ([u64::from(self.epoch), self.manifest as u64, 0], 2)
    }
}

// As of `Appended`, its own two fields: a shared function would be no plainer.
impl Values for Readiness {
    ghost numbers = { λ told. flag told.due ∷ told.ready ∷ [] };

    fn values(self) -> ([u64; 3], usize) {
        ([u64::from(self.due), self.ready as u64, 0], 2)
    }
}

impl<T: Values> From<Result<T, Refusal>> for Answer {
    ghost from_gives = { λ answer told. said_by told ≡ told_by T.numbers answer };

    fn from(answer: Result<T, Refusal>) -> Answer {
        match answer {
            Ok(given) => {
                let (values, count) = given.values();
                Answer {
                    number: 0,
                    place: 0,
                    count,
                    values,
                }
            }
            Err(why) => Answer {
                number: why.number(),
                place: why.place(),
                count: 0,
                values: [0; 3],
            },
        }
    }
}
