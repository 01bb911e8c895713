use collector::Progress;
use model::Answer;

/// The answer of a STEP.
pub fn of_step((progress, (scanned, copied)): (Progress, (u32, u32))) -> Answer {
    Answer::Stepped(progress == Progress::Ended, scanned, copied)
}

/// The answer of a RESOLVE.
pub fn of_resolve((scanned, copied): (u32, u32)) -> Answer {
    Answer::Scanned(scanned, copied)
}
