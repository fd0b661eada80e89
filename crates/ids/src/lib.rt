// Ids, names and refusals: the types that every call's arguments and answers are made of.
#![tactic(auto)]

ghost use Rattle.std.specs.Prelude.{◌≡◌};
ghost use Rattle.ids.specs.Ids.{is_id32, is_id64};

pub mod limits;
pub mod name;
pub mod refusal;

// A type for each kind of id, so that none is taken for another: one type with a marker would need the marker named wherever it stands, and be no
// plainer.
#[repr(C)]
#[derive(Clone, Copy, PartialEq, Eq, PartialOrd, Ord, Default)]
pub struct TableNo(pub u32);

// As `TableNo`: one type with a marker would be no plainer.
#[repr(C)]
#[derive(Clone, Copy, PartialEq, Eq, PartialOrd, Ord, Default)]
pub struct RowsetNo(pub u32);

// As `TableNo`: one type with a marker would be no plainer.
#[repr(C)]
#[derive(Clone, Copy, PartialEq, Eq, PartialOrd, Ord, Default)]
pub struct RowNo(pub u32);

// As `TableNo`: one type with a marker would be no plainer.
#[repr(C)]
#[derive(Clone, Copy, PartialEq, Eq, PartialOrd, Ord, Default)]
pub struct VectorNo(pub u64);

// A row of a rowset.
#[derive(Clone, Copy, PartialEq, Eq, PartialOrd, Ord, Default)]
pub struct SecondaryRowHandler(pub RowsetNo, pub RowNo);

// Each is one comparison with its width's own limit: a trait over the widths would be longer than the three, and no plainer.
impl TableNo {
    pub fn is_id(self) -> bool
        ensures { result ≡ is_id32 self.0 }
    {
        self.0 < limits::LARGEST_32
    }
}

// With its own width's limit, as above: a trait would be no plainer.
impl RowsetNo {
    pub fn is_id(self) -> bool
        ensures { result ≡ is_id32 self.0 }
    {
        self.0 < limits::LARGEST_32
    }
}

// With its own width's limit, as above: a trait would be no plainer.
impl VectorNo {
    pub fn is_id(self) -> bool
        ensures { result ≡ is_id64 self.0 }
    {
        self.0 < limits::LARGEST_64
    }
}

impl SecondaryRowHandler {
    pub fn rowset_id(self) -> RowsetNo
        ensures { result ≡ self.0 }
    {
        self.0
    }

    pub fn row_id(self) -> RowNo
        ensures { result ≡ self.1 }
    {
        self.1
    }
}
