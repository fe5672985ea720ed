//! What holds after every list of inputs.

ghost use Rattle.pin_rig.specs.Steps.{StepsAreRun, HaltedStepsAreRun, SentIsShown, OffIsByCommands, TakesWhatMayCome};

/// The law of `Rig`, for every list of inputs on a new rig.
///
/// Of the inputs that are taken, the lines of the steps, one after the other, are the trace of a
/// run of the plan with these inputs. The state after the steps is that of the run, and no event
/// waits. A board that reports its list has added exactly the commands of this trace to it, in
/// order, or no longer reports a list (`run`).
///
/// If the board has not taken a command of the last input, a board that reports its list has added
/// exactly the commands of the lines that were shown, or no longer reports a list. These lines are
/// the beginning of the trace (`halt`).
///
/// The guard of what the board has taken follows from the commands of the lines that were shown
/// (`sends`). The coils to which `shut_down` sends a disable are those that are on by these commands
/// at the moment of the latest stimulus, and the one whose command the board has not taken (`off`).
///
/// An input is taken exactly if the rig is not halted and the input is a stimulus that may come
/// (`takes`).
///
/// It does nothing: its contract is the law, over what `Rig::step` promises of each step.
pub fn steps_are_run()
    ensures run { StepsAreRun }
    ensures halt { HaltedStepsAreRun }
    ensures sends { SentIsShown }
    ensures off { OffIsByCommands }
    ensures takes { TakesWhatMayCome }
{}
