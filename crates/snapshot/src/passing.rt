// What an epoch shows, or what is gone by it, one after another.
ghost use Rattle.std.specs.Prelude.{◌≤◌};
ghost use Rattle.ids.specs.Limits.{most_held};

use crate::counted::Counted;
use crate::epoch::EpochTest;
use crate::held::{Held, HeldColumns};

// Those from place `next` on and before `end` that pass a test, in order.
#[derive(Drop)]
pub struct Passing<'a, H: Counted, T: EpochTest> {
    pub(crate) columns: &'a H,
    pub(crate) test: T,
    pub(crate) next: usize,
    pub(crate) end: usize,
    ghost inside: { end ≤ H.count columns.now },
    ghost fits: { H.count columns.now ≤ most_held },
}

impl<'a, H: HeldColumns, T: EpochTest> Iterator for Passing<'a, H, T> {
    ghost use Rattle.std.specs.Iterator.{YieldsFirstBy, item_count};
    ghost use Rattle.snapshot.specs.Views.{entry_of};
    ghost use Rattle.snapshot.specs.Passing.{to_come};

    type Item = Held<H::Ids>;

    ghost next_gives = { YieldsFirstBy (entry_of H.Ids.numbers) to_come };

    ghost remaining = { item_count to_come };

    fn next(&mut self) -> Option<Held<H::Ids>> {
        let i = self.columns.next_passing(self.next, self.end, self.test)?;
        self.next = i + 1;
        Some(self.columns.get(i))
    }
}
