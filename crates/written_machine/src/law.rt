//! What holds of every run of what is accepted, of the guard of the coils, and of alarms.

ghost use Rattle.written_machine.specs.AcceptedRuns.{AcceptedIsGood};
ghost use Rattle.written_machine.specs.Devices.{DevicesKeepTheirShape};
ghost use Rattle.written_machine.specs.GuardRuns.{GuardsFollowCommands};
ghost use Rattle.written_machine.specs.AlarmsEnd.{StimuliArmLater, AlarmsAreDone, AlarmsEnd};

/// The law of what is accepted, for every plan, weights and bound: if they are accepted
/// (`IsAccepted`), as `check` and `check_with` promise of what they give, every run of the plan is
/// good. It does not matter who found the weights.
///
/// Two parts of that ask for less. Any weights that `cascade_rank::verify` takes for a valid plan
/// bound every run of it. After each event step, the lines since the stimulus and the weights of the
/// waiting events add up to no more than what the stimulus costs by these weights. No stimulus causes
/// more lines or event steps than the bound that `verify` gives (`cascades`). And in every run of a
/// valid plan each switch has the level that follows from its raw changes (`levels`).
///
/// It does nothing: its contract is the law, over all runs of the written machine.
pub fn accepted_is_good()
    ensures { AcceptedIsGood }
{}

/// The law of the guard of the coils, for every valid plan in which no action asks for more than its
/// coil may: in every run, what the guard remembers of a coil follows from the commands that were
/// sent. So the coils that are on by these commands are the ones that the guard says are on. What a
/// rig turns off when it is shut down rests on this.
///
/// It does nothing: its contract is the law, over all runs of the written machine.
pub fn guards_follow_commands()
    ensures { GuardsFollowCommands }
{}

/// The law of alarms, for every valid plan. A stimulus and its event steps arm nothing for its own
/// moment or an earlier one: what is due after them was due before, or is due later (`arms_later`).
/// An alarm is that of one part of its source, such as one ball switch of a ball device. If that part
/// is due again, it is due later than the alarm came, if each device has a state of its kind
/// (`done`), as it has in every run (`shapes`). So each part comes at most once at each moment, and
/// alarms come to an end: in a run of the plan, after at most as many alarms as `most_alarms` says,
/// none is due by the moment (`end`).
///
/// It does nothing: its contract is the law, over the written machine.
pub fn alarms_end()
    ensures arms_later { StimuliArmLater }
    ensures done { AlarmsAreDone }
    ensures shapes { DevicesKeepTheirShape }
    ensures end { AlarmsEnd }
{}
