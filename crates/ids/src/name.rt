// Names of tables.
ghost use Rattle.std.specs.Prelude.{◌≡◌, ◌≤◌, [], length, nat_eq};
ghost use Rattle.std.specs.Cmp.Rules.{comparing};
ghost use Rattle.std.specs.Ordering.{on};
ghost use Rattle.std.specs.Cmp.Lexicographic.{pointwise};
ghost use Rattle.std.proofs.Common.{rules};
ghost use Rattle.ids.specs.Names.{longest_name, name_of};

use crate::limits::LONGEST_NAME;

// A table's name: the first `len` bytes; none where `len` is larger than the array. No `ArrayVec`, which is not Copy, as an operation is: it would be
// no plainer.
#[repr(C)]
#[derive(Clone, Copy)]
pub struct Name {
    pub bytes: [u8; LONGEST_NAME],
    pub len: usize,
}

impl Name {
    // Internal: the caller has checked the length.
    #[tactic(auto, unfolding(crate::specs::Names::name_of))]
    pub fn of(src: &[u8]) -> Name
        requires { length src.now ≤ longest_name }
        ensures { name_of result ≡ src.now }
    {
        let mut bytes = [0u8; LONGEST_NAME];
        bytes[..src.len()].copy_from_slice(src);
        Name {
            bytes,
            len: src.len(),
        }
    }

    // The bytes of the name; none where `len` is larger than the array.
    #[tactic(auto, unfolding(crate::specs::Names::name_of))]
    pub fn as_slice(&self) -> &[u8]
        ensures { result.now ≡ name_of self.now }
    {
        self.bytes.get(..self.len).unwrap_or(&[])
    }

    pub fn length(self) -> usize
        ensures { result ≡ length (name_of self) }
    {
        self.as_slice().len()
    }
}

// The empty name, which is no table's: for a name that is too long, and in free places. By hand, so that its promise speaks of the name's bytes: a
// derive would promise the fields, and be no plainer.
impl Default for Name {
    #[tactic(auto, unfolding(crate::specs::Names::name_of))]
    fn default() -> Name
        ensures { name_of result ≡ [] }
    {
        Name {
            bytes: [0u8; LONGEST_NAME],
            len: 0,
        }
    }
}

impl PartialEq for Name {
    ghost eq = { on name_of (pointwise nat_eq) };

    ghost laws = { Prim.search (comparing, rules) };

    fn eq(&self, other: &Name) -> bool {
        self.as_slice() == other.as_slice()
    }
}

impl Eq for Name {
    ghost laws = { Prim.search (comparing, rules) };
}
