// Recovery: what a reopened store finds is what was committed. No code is here; the function pins the laws to the check.
#![tactic(auto)]

ghost use Rattle.recovery.specs.Laws.{AppendLaws, ShortLaws, RewriteLaws, ReplaceLaws, ReopenLaws};

// The laws of a manifest and what is appended to it, whole or in part, of one that is written anew, by a checkpoint too, and of what is read.
pub fn holds()
    ensures { AppendLaws × ShortLaws × RewriteLaws × ReplaceLaws × ReopenLaws }
{}
