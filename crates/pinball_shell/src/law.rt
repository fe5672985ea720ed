//! What holds of all that is printed and played.

ghost use Rattle.std.specs.Prelude.{◌^◌};
ghost use Rattle.pinball_shell.specs.CheckVerified.{AcceptedIsAcceptedAgain, AcceptedIsPrintedAgain, AcceptedIsShort};
ghost use Rattle.pinball_shell.specs.RunGiven.{GivesChangesAndWaits, GivesOnePlay};
ghost use Rattle.pinball_shell.specs.SamePlay.{PlaysTheSame};
ghost use Rattle.pinball_shell.specs.FixedPlay.{TakenIsPlayedOut, AnswersFixThePlay};

/// The law of printed certificates, for all bundles. If `check_text` says yes to a bundle, it
/// prints the notes, `yes` and a certificate. With that certificate `verify_text` says yes to the
/// same bundle, and prints the same notes, `yes` and the certificate's bound. The certificate is
/// within the limit of `verify_text`, 1 MiB.
///
/// It does nothing: its contract is the law, over the outputs that the calls write.
pub fn printed_certificate_is_verified()
    ensures accepted { AcceptedIsAcceptedAgain }
    ensures prints { AcceptedIsPrintedAgain }
    ensures short { AcceptedIsShort (2 ^ 20) }
{}

/// The law of certificates in play. If a log is played out, the lines of its trace and of the log
/// lines that are refused are the same, and so is the verdict, whatever weights and bound the plan was
/// accepted with: those that `check` found, or those of a certificate.
///
/// It does nothing: its contract is the law, over `printed_for_log`, which is what `play_text` prints
/// for a log that is played out.
pub fn any_certificate_plays_the_same()
    ensures { PlaysTheSame }
{}

/// The law of logs. Every run that a log gives a plan has the same changes and waits, in their
/// order. Which alarms come between them may depend on the order of handlers of equal priority,
/// since a handler may start or stop a timer. In plan order, which is that of `play_text`, the log
/// gives one run: the alarms and the lines are fixed too.
///
/// It does nothing: its contract is the law, over the runs that a log gives.
pub fn log_gives_one_play()
    ensures gives { GivesChangesAndWaits }
    ensures play { GivesOnePlay }
{}

/// The law of boards that report their answers. On two boards that report the same answers to all
/// commands to come, `play_text` writes the same for a log, turns off the same coils, and gives the
/// same verdict: all this follows from the plan, the log and the answers. On a board that takes all
/// commands, as a `MemoryBoard` does, every log is played out.
///
/// It does nothing: its contract is the law, over the plays that `play_text` ensures.
pub fn answers_fix_the_play()
    ensures takes { TakenIsPlayedOut }
    ensures same { AnswersFixThePlay }
{}
