//! What holds of every step of a device.

ghost use Rattle.device_objects.specs.Laws.{AnswersAreOutcomes, ArmsLaterMoments, DevicesAreDueWithTheirParts};
ghost use Rattle.device_objects.specs.Laws.{FirstPartsFire, NothingIsDue, OutcomesAreOfTheRow, OutcomesComeAbout};
ghost use Rattle.device_objects.specs.Laws.{StatesKeepTheirShape, StopsAreSilent};

/// The first state of a device has the shape of its row, and each step leaves it so.
///
/// It does nothing: its contract is the law, over all steps.
#[tactic(auto, using(crate::proofs::Lawful::states_keep_their_shape))]
pub fn states_keep_their_shape()
    ensures { StatesKeepTheirShape }
{}

/// Whatever its state, a device answers one of the call's outcomes.
///
/// It does nothing: its contract is the law, over all steps.
#[tactic(auto, using(crate::proofs::Lawful::answers_are_outcomes))]
pub fn answers_are_outcomes()
    ensures { AnswersAreOutcomes }
{}

/// Each outcome of a call is the answer of some state, if the settings are within their limits.
///
/// It does nothing: its contract is the law, over all outcomes.
#[tactic(auto, using(crate::proofs::Lawful::outcomes_come_about))]
pub fn outcomes_come_about()
    ensures { OutcomesComeAbout }
{}

/// Every list that a device answers is one of its row.
///
/// It does nothing: its contract is the law, over all outcomes.
#[tactic(auto, using(crate::proofs::Lawful::outcomes_of_row))]
pub fn outcomes_are_of_the_row()
    ensures { OutcomesAreOfTheRow }
{}

/// A device is due at the first of the moments at which its parts are due. No device has more than 17
/// parts: the ball switches of a ball device, and its attempt to eject a ball.
///
/// It does nothing: its contract is the law, over all states.
#[tactic(auto, using(crate::proofs::Lawful::devices_are_due_with_their_parts))]
pub fn devices_are_due_with_their_parts()
    ensures { DevicesAreDueWithTheirParts }
{}

/// What a step arms is due after the moment of the step. When a device fires, one of its parts that
/// were due is done: it is due later, or not at all.
///
/// It does nothing: its contract is the law, over all steps.
#[tactic(auto, using(crate::proofs::Lawful::arms_later_moments))]
pub fn arms_later_moments()
    ensures { ArmsLaterMoments }
{}

/// When a device fires, the part of it fires that is due first. Of parts that are due at one moment it is
/// the one with the lowest number: so of a ball device the ball switches by their numbers, from 0 to 15,
/// and then the attempt to eject a ball, which is part 16.
///
/// It does nothing: its contract is the law, over all steps.
#[tactic(auto, using(crate::proofs::Lawful::first_parts_fire))]
pub fn first_parts_fire()
    ensures { FirstPartsFire }
{}

/// Nothing of a device is due at first, and nothing after its mode has stopped.
///
/// It does nothing: its contract is the law, over all steps.
#[tactic(auto, using(crate::proofs::Lawful::nothing_is_due))]
pub fn nothing_is_due()
    ensures { NothingIsDue }
{}

/// A device whose mode stops answers no list.
///
/// It does nothing: its contract is the law, over all settings.
pub fn stops_are_silent()
    ensures { StopsAreSilent }
{}
