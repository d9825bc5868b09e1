// A job, read from its row: its mode is one value, which in mode 5 has the words of colour inside (document 02, request (v)).
use colour_words::ColourWords;
use job::job::Job;

// A job of the first library, in one of its modes, or colour.
#[derive(Clone, Copy)]
pub enum TowerMode {
    Base(Job),
    Colour(ColourWords),
}

// `plane` is the plane that the job writes.
#[derive(Clone, Copy)]
pub struct TowerJob {
    pub plane: u16,
    pub mode: TowerMode,
}
