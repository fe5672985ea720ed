//! What holds after every list of calls, and of commands.

ghost use Rattle.coil_guard.specs.Laws.{CommandsAreWithinLimits, StretchesAreWithinLimits, AnswersAreByCommands};
ghost use Rattle.coil_guard.specs.Laws.{StatesSayWhatIsOn, StatesSayWhoHolds, LowestIsOn, LowestIsReleased};
ghost use Rattle.coil_guard.specs.Follows.{NewFollows, CallsFollow, LaterFollows, FollowersSendWhatIsDue};
ghost use Rattle.coil_guard.specs.Slower.{LimitsHoldOnSlowerClock};
ghost use Rattle.coil_guard.specs.Boards.{MemoryKeepsLatest, MemoryTellsAll, FuseFaultsFromKth};

/// The law of what `Coils` sends. It is about every list of calls on a new guard whose moments do
/// not go back.
///
/// Each pulse that is sent is within its coil's limits, and so is each enable. A coil that may not
/// be held is never on at more moments in a row than its greatest pulse has milliseconds:
/// neither now, nor earlier, nor later if no more is sent.
///
/// It does nothing: its contract is the law, over the steps that the calls take.
pub fn commands_are_within_limits()
    ensures commands { CommandsAreWithinLimits }
    ensures stretches { StretchesAreWithinLimits }
{}

/// The law of commands that are carried out late, for the same lists of calls. Let the sent commands be
/// carried out in order, each at least as long after the one before it as it was sent after that, and
/// let each pulse end by itself. Then a coil that may not be held is on for no longer than its greatest
/// pulse by these moments too.
///
/// So a clock may stop while a command is late, and go on from where it was. It must not go faster
/// between two commands than the time by which they are carried out.
///
/// It does nothing: its contract is the law, over the steps that the calls take.
pub fn limits_hold_on_a_slower_clock()
    ensures { LimitsHoldOnSlowerClock }
{}

/// The law of what `Coils` skips and finds, for the same lists of calls.
///
/// What the next call sends follows from the limits and from the sent commands with their moments:
/// a pulse and an enable are skipped exactly by their rules, and a disable exactly if the coil is
/// off. From the last call on, `next_on` gives the lowest coil that is on by the sent commands, and
/// `release` turns off the lowest coil that was enabled for the owner and not disabled after that.
///
/// It does nothing: its contract is the law, over the steps that the calls take.
pub fn answers_are_by_commands()
    ensures answers { AnswersAreByCommands }
    ensures on { StatesSayWhatIsOn }
    ensures holds { StatesSayWhoHolds }
    ensures next_on { LowestIsOn }
    ensures release { LowestIsReleased }
{}

/// The law for what drives a guard: its state follows the commands that it has sent. A new guard
/// follows the empty list, a call keeps that, and so does time that passes. What a call sends then
/// follows from the limits and from the commands that were sent before.
///
/// It does nothing: its contract is the law, over the steps that the calls take.
pub fn guard_follows_commands()
    ensures at_first { NewFollows }
    ensures after_call { CallsFollow }
    ensures later { LaterFollows }
    ensures due { FollowersSendWhatIsDue }
{}

/// The law of `MemoryBoard`, for every list of commands that a new one takes: it keeps the latest
/// 1,024 of them, counts them up to 1,025, and reports all as long as they are at most 1,024.
///
/// It does nothing: its contract is the law, over the steps that `send` takes.
pub fn memory_board_keeps_latest()
    ensures keeps { MemoryKeepsLatest }
    ensures tells { MemoryTellsAll }
{}

/// The law of `FuseBoard`: after any number of commands, the next one is a fault exactly if it is
/// the `k`-th, or, with `onwards`, if it is the `k`-th or a later one.
///
/// It does nothing: its contract is the law, over the steps that `send` takes.
pub fn fuse_board_faults_from_kth()
    ensures { FuseFaultsFromKth }
{}
