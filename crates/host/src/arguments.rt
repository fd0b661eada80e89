// What crosses as numbers and is an enum, an array or a name in the library.
ghost use Rattle.std.specs.Prelude.{◌≡◌};
ghost use Rattle.ids.specs.Names.{name_of};
ghost use Rattle.compaction.specs.New.{new_of};
ghost use Rattle.transaction.specs.Groups.{handle_of};
ghost use Rattle.host.specs.Arguments.{name_in, new_in, handle_in, HandlesIn};

use ids::limits::LONGEST_NAME;
use ids::name::Name;
use ids::{RowNo, RowsetNo, SecondaryRowHandler};
use transaction::{Handles, MOST_HANDLES};

// A name that is too long becomes the empty one, which is refused alike.
pub fn name(bytes: &[u8]) -> Name
    ensures { name_of result ≡ name_in bytes.now }
{
    if LONGEST_NAME < bytes.len() {
        return Name::default();
    }
    Name::of(bytes)
}

// The C interface says by a flag whether there is one.
pub fn new_rowset(has_new: bool, new: u32) -> Option<RowsetNo>
    ensures { new_of result ≡ new_in has_new new }
{
    has_new.then_some(RowsetNo(new))
}

// The C interface hands a handle over as one number.
fn handle(n: u64) -> SecondaryRowHandler
    ensures { handle_of result ≡ handle_in n }
{
    let rowset = (n / 4294967296) as u32;
    let row = (n % 4294967296) as u32;
    SecondaryRowHandler(RowsetNo(rowset), RowNo(row))
}

// Handles past the first 4,096 are counted and not read.
pub fn handles(numbers: &[u64]) -> Handles
    ensures { HandlesIn numbers.now result }
{
    let count = numbers.len();
    let mut items = [SecondaryRowHandler(RowsetNo(0), RowNo(0)); MOST_HANDLES];
    for (i, n) in numbers[..count.min(MOST_HANDLES)].iter().enumerate() {
        items[i] = handle(*n);
    }
    Handles { items, count }
}
