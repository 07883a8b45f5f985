//! The law of a power cut before the second sync (`specs/Laws.antt`). The function here does nothing: its contract is the law.
ghost use Rattle.flash_store.specs.Laws.{SyncsLeaveNoMore};

/// Where the power stops a call before its second sync, it leaves no more than there was before the call, and nothing was shown.
pub fn syncs_leave_no_more()
    ensures { SyncsLeaveNoMore }
{}
