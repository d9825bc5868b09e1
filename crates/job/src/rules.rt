// "then each job 1 to 7" (document 01, Refusal numbers, in order of checking): a row is tested and read into a job.
ghost use Rattle.std.specs.Prelude.{◌≡◌, length};
ghost use Rattle.job.specs.Rules.{row_answer};
ghost use Rattle.job.specs.Job.{job_with, read_row};

use crate::job::Job;
use crate::{mode, row};
use block_spec::answer;
use block_spec::spec::IntraRefSpec;
use numbers::answer::{Answer, Refusal};
use row_words::flag::Flags;
use row_words::mode::Mode;
use row_words::word::Word;

// The job of a row, whose spec and mode are read.
fn job_of(spec: IntraRefSpec, mode: Mode, row: &[u16]) -> Job
    requires { length row.now ≡ 16 }
    ensures { result ≡ job_with spec mode row.now }
{
    Job {
        spec,
        mode,
        flags: Flags::of(row::word(row, Word::FlagWord)),
        max_width: row::word(row, Word::MaxWidth),
        max_height: row::word(row, Word::MaxHeight),
        start: row::start_of(row),
    }
}

// The job of a row that names it, or the refusal.
pub fn read_row(width: usize, height: usize, n: usize, row: &[u16]) -> Result<Job, Refusal>
    requires { length row.now ≡ 16 }
    ensures { result ≡ read_row width height n row.now }
{
    let s = row::spec_of(row);
    answer::size_answer(s)?;
    let mode = mode::mode_of(row)?;
    answer::place_answer(width, height, s)?;
    if !row::has_differences(n, row) {
        return Err(Refusal::NoDifferences);
    }
    Ok(job_of(s, mode, row))
}

// What the rules 1 to 7 answer.
pub fn row_answer(width: usize, height: usize, n: usize, row: &[u16]) -> Answer
    requires { length row.now ≡ 16 }
    ensures { result ≡ row_answer width height n row.now }
{
    read_row(width, height, n, row)?;
    Ok(())
}
