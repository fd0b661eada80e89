// The plain record, and the first theorem: after every list of calls the manager agrees with it. Only the calls in `steps` are code; the
// functions here pin what is claimed to the check.
#![tactic(auto)]

ghost use Rattle.version_state.specs.Widths.{Narrow};
ghost use Rattle.version_manager.specs.Managers.{held_by};
ghost use Rattle.plain_record.specs.Run.{port, BatchCounted};
ghost use Rattle.plain_record.specs.Claim.{Claim};
ghost use Rattle.plain_record.specs.Story.{Story};
ghost use Rattle.plain_record.specs.Either.{EitherStands};
ghost use Rattle.plain_record.specs.ShortWrite.{ShortWrite};
ghost use Rattle.plain_record.specs.Examples.{Examples};
ghost use Rattle.plain_record.specs.Wrong.{WrongRefuted};

use version_manager::VersionManager;

pub mod steps;

pub fn agrees()
    ensures { Claim port }
{}

// Every typed commit is a step of the claim: its batch has no more operations than its count.
pub fn batch_counted()
    ensures { BatchCounted }
{}

// What the links of a drop, a compaction and a checkpoint ask of a manager, every one has: its next ids are of their widths.
pub fn narrow(manager: VersionManager)
    ensures { Narrow (held_by manager) }
{}

// After a compaction, cut off anywhere, and a reopen: the rowsets that were merged are shown, or the merged one, never both.
pub fn never_both()
    ensures { Story port }
{}

// After a checkpoint a reopen finds the same sets, from the manifest that it replaced and from the one that it handed out.
pub fn either_stands()
    ensures { EitherStands port }
{}

// A report takes back the commit that came short, and nothing else.
pub fn short_writes()
    ensures { ShortWrite port }
{}

// The claim is no empty one: it is false of managers that are wrong in one call.
pub fn tells_apart()
    ensures { WrongRefuted }
{}

// What the port and the record rest on alike, worked out by hand.
pub fn examples()
    ensures { Examples }
{}
