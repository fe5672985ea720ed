//! What holds of every live run.

ghost use Rattle.live_machine.specs.LiveLaws.{AnswersComeFirst, RoundsGoOn, AnswersArePlay, LiveIsPlay, LiveIsRun};
ghost use Rattle.live_machine.specs.LiveLaws.{TranscriptsLoseNothing};

/// The law of the answers: the first ones depend on the first lines alone. So no answer waits for a
/// line to come, and what is heard and told goes on from where it is (`rounds`).
///
/// It does nothing: its contract is the law, over what is answered to a list of lines.
pub fn answers_come_first()
    ensures answers { AnswersComeFirst }
    ensures rounds { RoundsGoOn }
{}

/// The law of live runs: each is a play of the lines that were heard.
///
/// Without their lines `due`, the answers to the lines of a log are what `play_text` writes for the
/// log (`answers`). If a live run heard the lines of a log, it is a play of this log: what was told
/// without the lines `due`, the coils that were turned off, what the board has taken, and the verdict
/// are those of such a play (`end`). If all its lines were answered, and the configuration is
/// accepted, the trace that was told is a run of the plan (`run`).
///
/// It does nothing: its contract is the law, over what `run_live` promises.
pub fn live_is_play()
    ensures answers { AnswersArePlay }
    ensures end { LiveIsPlay }
    ensures run { LiveIsRun }
{}

/// The law of transcripts: of talks of bytes they lose nothing. A transcript says which lines were heard,
/// and what was told before and after each.
///
/// It does nothing: its contract is the law, over what a transcript is.
pub fn transcripts_lose_nothing()
    ensures { TranscriptsLoseNothing }
{}
