// The tests of 29 that look at one list at a time. All here is internal. The structs of the C interface cannot say that their counts are
// within the columns, so that each test asks for it.
ghost use Rattle.std.specs.Prelude.{◌≡◌};
ghost use Rattle.lists.specs.Keyed.{all_of};
ghost use Rattle.text.specs.Name.{is_name};
ghost use Rattle.version_state.specs.State.{State, state_of, lengthened, Fit};
ghost use Rattle.version_state.specs.Sound.{beyond_limits, out_of_order, above_own};

use crate::VersionManagerInner;
use ids::limits::{LONGEST_MANIFEST, MOST_HELD, MOST_TABLES};
use snapshot::held::HeldColumns;
use text::ByteClasses;

impl VersionManagerInner {
    // Whether each live table's name is a name.
    fn names_valid(&self) -> bool
        requires { Fit self.now }
        ensures { result ≡ all_of (λ t. is_name t.name) (state_of self.now).tables }
    {
        let classes = ByteClasses::new();
        (0..self.tables.count).all(|i| classes.is_name(self.tables.name(i)))
    }

    // A list too long, a manifest too long with `bytes` more bytes, or a name that is none.
    pub(crate) fn beyond_limits(&self, bytes: usize) -> bool
        ensures { result ≡ beyond_limits (lengthened bytes self.now) }
    {
        // Each length is judged before the sum, which might wrap.
        MOST_TABLES < self.tables.count
            || MOST_HELD < self.rowsets.count
            || MOST_HELD < self.vectors.count
            || LONGEST_MANIFEST < bytes
            || LONGEST_MANIFEST < self.manifest
            || LONGEST_MANIFEST < self.manifest + bytes
            || !self.names_valid()
    }

    // A list that does not rise strictly by its ids.
    pub(crate) fn out_of_order(&self) -> bool
        requires { Fit self.now }
        ensures { result ≡ out_of_order (state_of self.now) }
    {
        !(self.tables.is_ascending() && self.rowsets.is_ascending() && self.vectors.is_ascending())
    }

    // An epoch above the state's own, or an id that is not below the next one.
    pub(crate) fn above_own(&self) -> bool
        requires { Fit self.now }
        ensures { result ≡ above_own (state_of self.now) }
    {
        let next = self.next.ids();
        !(self.tables.all_below(next.table)
            && self.rowsets.within(self.epoch, next.pair())
            && self.vectors.within(self.epoch, next))
    }
}
