// The counts of a book, and a change of one of them. All here is internal: the C interface hands over any book, so that each function asks for
// one whose places are in order.
ghost use Rattle.std.specs.Prelude.{◌≡◌, true, false, ◌+◌, ◌≤◌, ◌<◌, leb, length};
ghost use Rattle.lists.specs.Keyed.{ascending};
ghost use Rattle.lists.specs.Places.{insert_at, remove_at};
ghost use Rattle.pins.specs.Book.{pin_entry, pins_of, by_place, most_pinned, Keeps};
ghost use Rattle.pins.specs.Counts.{pins_at, recounted, places_full, Placed};

use crate::{MOST_PINNED, Pin, PinBook, Place};

impl PinBook {
    // Where a place stands, or else would. One call of std, as in `replay_lists`: a shared function would be no plainer.
    pub fn find(&self, place: Place) -> Result<usize, usize>
        requires { ascending by_place (pins_of self.now) ≡ true }
        ensures { Placed place (pins_of self.now) result }
    {
        self.pins().binary_search_by_key(&place, |pin| pin.place())
    }

    pub fn pins_at(&self, place: Place) -> u16
        requires { ascending by_place (pins_of self.now) ≡ true }
        ensures { result ≡ pins_at place (pins_of self.now) }
    {
        match self.find(place) {
            Ok(at) => self.items[at].count,
            Err(_) => 0,
        }
    }

    // Whether every place is taken.
    pub fn is_full(&self) -> bool
        ensures { result ≡ leb most_pinned (length (pins_of self.now)) }
    {
        MOST_PINNED <= self.pins().len()
    }

    fn insert(&mut self, at: usize, pin: Pin)
        requires { (at ≤ self.old.count) × (self.old.count < most_pinned) }
        ensures { (self.new.count ≡ self.old.count + 1) × (pins_of self.new ≡ insert_at at (pin_entry pin) (pins_of self.old)) }
    {
        self.items.copy_within(at..self.count, at + 1);
        self.items[at] = pin;
        self.count += 1;
    }

    fn remove(&mut self, at: usize)
        requires { (at < self.old.count) × (self.old.count ≤ most_pinned) }
        ensures { (self.new.count + 1 ≡ self.old.count) × (pins_of self.new ≡ remove_at at (pins_of self.old)) }
    {
        self.items.copy_within(at + 1..self.count, at);
        self.count -= 1;
    }

    // The place has `count` pins from now on. There is room for it.
    pub fn recount(&mut self, place: Place, count: u16)
        requires { (self.old.count ≤ most_pinned) × (ascending by_place (pins_of self.old) ≡ true) × (places_full place (pins_of self.old) ≡ false) }
        ensures { Keeps self.new (recounted place count (pins_of self.old)) }
    {
        let pin = Pin {
            epoch: place.epoch,
            count,
        };
        match self.find(place) {
            Ok(at) if count == 0 => self.remove(at),
            Ok(at) => self.items[at] = pin,
            Err(at) if count != 0 => self.insert(at, pin),
            Err(_) => {}
        }
    }
}
