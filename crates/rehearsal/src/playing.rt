use play::answered::Answered;
use play::challenged::Challenged;
use play::level::Level;

/// A play, whichever call it waits for.
#[derive(Drop, Debug)]
pub enum Play {
    Level(Level),
    Challenged(Challenged),
    Answered(Answered),
}
