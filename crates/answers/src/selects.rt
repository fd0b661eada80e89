// Selection: which of a table's rowsets a compaction is to take.
use crate::call::Call;
use crate::say;
use crate::say::NO_CALL;
use ids::TableNo;
use ids::limits::MOST_HELD;
use ids::refusal::Refusal;
use version_manager::VersionManager;

// One more size than a table may have rowsets, so that too many are seen.
const MOST_SIZES: usize = MOST_HELD + 1;

impl Call<'_> {
    pub fn select(mut self, manager: VersionManager) -> Result<(), Refusal> {
        let mut sizes = [0u64; MOST_SIZES];
        let mut out = [0u32; MOST_HELD];
        let table = TableNo(self.number()?);
        let target = self.number()?;
        let count = script::sizes(self.rest, &mut sizes).ok_or(NO_CALL)?;
        let count = count.min(MOST_SIZES);
        let room = self.room.min(MOST_HELD);
        let n = manager.select(table, target, &sizes[..count], &mut out[..room])?;
        say::list("selected", n, out.iter(), self.output);
        Ok(())
    }
}
