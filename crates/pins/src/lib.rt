// The pin book: what the specification's 28 judges of it, the epochs that it guards, and its counts.
#![tactic(auto)]

ghost use Rattle.std.specs.Prelude.{◌≡◌, [], take};
ghost use Rattle.pins.specs.Book.{pin_entry, pins_of, place_on, valid_pin, bad_book, GoodBook, pinned};
ghost use Rattle.pins.specs.Guards.{guards_by, may_show, bound};
ghost use Rattle.pins.specs.Laws.{BookLaws};

pub mod counts;

// The specification's limits: epochs that are pinned at a time, and the pins that an epoch may have.
pub const MOST_PINNED: usize = 64;

pub const MOST_PINS: u16 = u16::MAX;

#[repr(C)]
#[derive(Clone, Copy, Default)]
pub struct Pin {
    pub epoch: u32,
    pub count: u16,
}

// The place of a book for the pins on an epoch: a type of its own, so that what tells places apart stands here alone; one type with the tests of
// epochs in `snapshot` would be no plainer.
#[derive(Clone, Copy, PartialEq, Eq, PartialOrd, Ord)]
pub struct Place {
    pub epoch: u32,
}

// Pinned epochs with their counts, ascending. An array and a count, which may be any number: the C interface hands it over so.
#[repr(C)]
#[derive(Clone, Copy, Default)]
pub struct PinBook {
    pub items: [Pin; MOST_PINNED],
    pub count: usize,
}

// The laws of counts, of 28 and of what guards an epoch.
pub fn holds()
    ensures { BookLaws }
{}

impl Pin {
    fn place(&self) -> Place
        ensures { result ≡ place_on self.now.epoch }
    {
        Place { epoch: self.epoch }
    }

    // A count that is not 0, and an epoch that is neither 0 nor above the current one.
    fn is_valid(&self, current: u32) -> bool
        ensures { result ≡ valid_pin current (pin_entry self.now) }
    {
        self.count != 0 && self.epoch != 0 && self.epoch <= current
    }
}

impl PinBook {
    pub fn none() -> PinBook
        ensures { (result.count ≡ 0) × (pins_of result ≡ []) }
    {
        PinBook::default()
    }

    // A count above the array stands for all of it.
    fn pins(&self) -> &[Pin]
        ensures { result.now ≡ take self.now.count self.now.items }
    {
        &self.items[..self.count.min(MOST_PINNED)]
    }

    // The specification's 28 at an epoch, of any value whatsoever.
    pub fn bad(&self, current: u32) -> bool
        ensures { result ≡ bad_book current self.now }
    {
        let pins = self.pins();
        let valid = pins.iter().all(|pin| pin.is_valid(current));
        let rises = pins.is_sorted_by(|a, b| a.place() < b.place());
        MOST_PINNED < self.count || !(valid && rises)
    }

    // Whether the epoch is pinned.
    pub fn is_pinned(&self, epoch: u32) -> bool
        ensures { result ≡ pinned epoch (pins_of self.now) }
    {
        self.pins().iter().any(|pin| pin.epoch == epoch)
    }

    // Whether pairs and vectors of the epoch may be shown.
    pub fn may_show(&self, current: u32, epoch: u32) -> bool
        ensures { result ≡ may_show (guards_by current (pins_of self.now)) epoch }
    {
        epoch == current || self.is_pinned(epoch)
    }

    // Internal: the book has passed 28. The epoch up to which a vacuum lets go: the first of an ascending book is the smallest.
    pub fn bound(&self, current: u32) -> u32
        requires { GoodBook current self.now }
        ensures { result ≡ bound (guards_by current (pins_of self.now)) }
    {
        self.pins().first().map_or(current, |first| first.epoch)
    }
}
