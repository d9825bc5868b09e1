// How many jobs of a run are done, and how many samples of two pictures are equal.
use numbers::answer::DONE;

pub fn count_done(answers: &[u16]) -> usize {
    answers
        .iter()
        .filter(|answer| u32::from(**answer) == DONE)
        .count()
}

pub fn count_equal(a: &[f32], b: &[f32]) -> usize {
    a.iter().zip(b).filter(|(x, y)| *x == *y).count()
}
