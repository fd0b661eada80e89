// Why a call is refused.
ghost use Rattle.std.specs.Prelude.{◌≡◌, Some};
ghost use Rattle.ids.specs.Refusals.{number_of, place_of, text_of};

use std::fmt;

// The refusals of the specification by their numbers, each with its place where it has one.
#[derive(Clone, Copy, Debug, PartialEq, Eq)]
pub enum Refusal {
    // 1: manifest too long.
    ManifestTooLong,
    // 2: bad line or field.
    Malformed(usize),
    // 3: `T` with a live id or name, `X` unknown.
    TableConflict(usize),
    // 4: over 16 tables, 256 pairs or vectors after an `E`.
    OverLimit(usize),
    // 5: live rowset without table at the end.
    RowsetWithoutTable,
    // 6: over 600 operations.
    TooManyOperations(usize),
    // 7: bad record.
    BadRecord(usize),
    // 8: over 4,096 handles or records, or sizes not one a rowset.
    WrongCount,
    // 9: lent output too short.
    OutputTooShort,
    // 10: pin at epoch 0.
    PinAtEpochZero,
    // 11: table not live.
    TableNotLive(usize),
    // 12: pair not shown.
    PairNotShown(usize),
    // 13: vector not shown.
    VectorNotShown(usize),
    // 14: id not drawn.
    IdNotDrawn(usize),
    // 15: name taken.
    NameTaken(usize),
    // 16: pair, or vector id of any table, held.
    StillHeld(usize),
    // 17: a vector left without its rowset or a rowset without its table.
    LeftBehind,
    // 18: pins of an epoch full.
    PinsFull,
    // 19: pinned epochs full.
    PinnedEpochsFull,
    // 20: epochs full.
    EpochsFull,
    // 21: tables full.
    TablesFull(usize),
    // 22: 256 pairs or vectors held.
    HeldFull(usize),
    // 23: manifest would pass 65,536.
    ManifestFull,
    // 24: epoch not pinned.
    EpochNotPinned,
    // 25: lock held.
    LockHeld,
    // 26: ids used up.
    IdsUsedUp,
    // 27: lock not held.
    LockNotHeld,
    // 28: a pin book out of order or beyond its limits.
    BadPinBook,
    // 29: a manager out of order or beyond its limits.
    BadManager,
    // 31: a report of a short write that takes nothing back: as many bytes landed as were appended, no commit is kept, or the
    // current epoch is pinned. There is no 30.
    NotReportable,
}

impl Refusal {
    // A method, as `place` is: `u32::from` would not say which of the two numbers it is, and be no plainer.
    pub fn number(self) -> u32
        ensures { result ≡ number_of self }
    {
        match self {
            Refusal::ManifestTooLong => 1,
            Refusal::Malformed(_) => 2,
            Refusal::TableConflict(_) => 3,
            Refusal::OverLimit(_) => 4,
            Refusal::RowsetWithoutTable => 5,
            Refusal::TooManyOperations(_) => 6,
            Refusal::BadRecord(_) => 7,
            Refusal::WrongCount => 8,
            Refusal::OutputTooShort => 9,
            Refusal::PinAtEpochZero => 10,
            Refusal::TableNotLive(_) => 11,
            Refusal::PairNotShown(_) => 12,
            Refusal::VectorNotShown(_) => 13,
            Refusal::IdNotDrawn(_) => 14,
            Refusal::NameTaken(_) => 15,
            Refusal::StillHeld(_) => 16,
            Refusal::LeftBehind => 17,
            Refusal::PinsFull => 18,
            Refusal::PinnedEpochsFull => 19,
            Refusal::EpochsFull => 20,
            Refusal::TablesFull(_) => 21,
            Refusal::HeldFull(_) => 22,
            Refusal::ManifestFull => 23,
            Refusal::EpochNotPinned => 24,
            Refusal::LockHeld => 25,
            Refusal::IdsUsedUp => 26,
            Refusal::LockNotHeld => 27,
            Refusal::BadPinBook => 28,
            Refusal::BadManager => 29,
            Refusal::NotReportable => 31,
        }
    }

    // The place of a refusal that has one, else 0.
    pub fn place(self) -> usize
        ensures { result ≡ place_of self }
    {
        match self {
            Refusal::Malformed(p)
            | Refusal::TableConflict(p)
            | Refusal::OverLimit(p)
            | Refusal::TooManyOperations(p)
            | Refusal::BadRecord(p)
            | Refusal::TableNotLive(p)
            | Refusal::PairNotShown(p)
            | Refusal::VectorNotShown(p)
            | Refusal::IdNotDrawn(p)
            | Refusal::NameTaken(p)
            | Refusal::StillHeld(p)
            | Refusal::TablesFull(p)
            | Refusal::HeldFull(p) => p,
            _ => 0,
        }
    }
}

// As an answer in text has it.
impl fmt::Display for Refusal {
    ghost output = { λ why. Some (text_of why) };

    fn fmt<W: fmt::Write>(&self, f: &mut fmt::Formatter<W>) -> fmt::Result {
        write!(f, "refused,{},{}", self.number(), self.place())
    }
}
