//! What holds of the steps that the calls take.

ghost use Rattle.mode_stack.specs.Modes.{StartingKeepsWhoRuns};

/// The law of `start` and of `stop`: neither makes a mode begin to run, or cease to run. So what handles
/// an event stays the same. It holds for all states, and whether a game goes on or not.
///
/// It does nothing: its contract is the law, over the steps that the calls take.
pub fn starting_keeps_who_runs()
    ensures { StartingKeepsWhoRuns }
{}
