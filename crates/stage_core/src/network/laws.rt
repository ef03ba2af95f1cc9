//! Laws over the network. Each is a function that does nothing, whose contract is the law.

ghost use Rattle.stage_core.specs.Network.Laws.{StartIsConsistent, StepsKeepConsistency};
ghost use Rattle.stage_core.specs.Network.Laws.{SchedulesKeepConsistency, ConsistentStatesGoOn};
ghost use Rattle.stage_core.specs.Network.Laws.{NoScheduleIsStuck, RingsCarryBeginnings};
ghost use Rattle.stage_core.specs.Network.Laws.{RingsHoldTheirCapacity};
ghost use Rattle.stage_core.specs.Network.Laws.{SecondLevelIsGivenNoMore, FinishedMeansAllGiven};
ghost use Rattle.stage_core.specs.Network.Laws.{StepsAreBounded, FinishedMeansAllSteps};
ghost use Rattle.stage_core.specs.Network.Laws.{CompleteSchedulesAreAsLong};

/// The network starts in a consistent state, and each step leads from such a state to such a
/// state; so does every schedule.
pub fn steps_keep_consistency()
    ensures start { StartIsConsistent }
    ensures step { StepsKeepConsistency }
    ensures schedule { SchedulesKeepConsistency }
{}

/// A state that a schedule leads to, or any consistent one, has a machine whose next step is
/// possible, or all have finished: whatever each ring holds, from one message on.
pub fn no_schedule_is_stuck()
    ensures reached { NoScheduleIsStuck }
    ensures consistent { ConsistentStatesGoOn }
{}

/// No ring of a network that a schedule moves ever holds more messages than its capacity.
pub fn rings_hold_their_capacity()
    ensures { RingsHoldTheirCapacity }
{}

/// What each ring has carried is the beginning of its stream.
pub fn rings_carry_beginnings()
    ensures { RingsCarryBeginnings }
{}

/// The second level is never given more than it is to see in all, and just that in the end.
pub fn second_level_is_given_no_more()
    ensures bound { SecondLevelIsGivenNoMore }
    ensures finished { FinishedMeansAllGiven }
{}

/// Each message is pushed once and popped once: so no state has made more steps than two for each
/// message, and every schedule that ends where all have finished has made just these.
pub fn complete_schedules_are_as_long()
    ensures bound { StepsAreBounded }
    ensures finished { FinishedMeansAllSteps }
    ensures schedule { CompleteSchedulesAreAsLong }
{}
