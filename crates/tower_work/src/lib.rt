// One job over a tower's three planes (document 02, request (v)): a job of the first library on its plane, or a colour job.
#![tactic(auto)]

pub mod base;
pub mod colour;

ghost use Rattle.std.specs.Prelude.{◌≡◌, length};
ghost use Rattle.tower_work.specs.Done.{TowerDone};
ghost use Rattle.tower_work.specs.Granted.{three, ArePlanes, OnePlane, TowerRead, TowerLeft};

use numbers::answer::Answer;
use tower_job::tower::{TowerJob, TowerMode};

// A job that no rule before 8 refuses. In the modes of the first library the edges have room at the front of the windows.
fn do_read(
    p0: &mut [f32],
    p1: &mut [f32],
    p2: &mut [f32],
    width: usize,
    job: TowerJob,
    differences: &[i16],
    luma: &mut [i32],
    chroma: &mut [i32],
    block: &mut [i32],
    out: &mut [f32],
) -> Answer
    requires one_plane { OnePlane p0.old p1.old p2.old job.plane × TowerRead width (length differences.now) (length p0.old) job.mode job.plane }
    requires luma_len { (length luma.old ≡ 65536) × (length chroma.old ≡ 65536) × (length block.old ≡ 16384) × (length out.old ≡ 4096) }
    ensures { TowerLeft width differences.now job.mode job.plane (three p0.old p1.old p2.old) (three p0.new p1.new p2.new) result }
{
    let k = job.plane;
    let mode = job.mode;
    let start = 0;
    let end = 128;
    match mode {
        TowerMode::Base(base) => base::on_plane(
            p0,
            p1,
            p2,
            k,
            width,
            base,
            differences,
            &mut luma[start..end],
            &mut chroma[start..end],
            out,
        ),
        TowerMode::Colour(c) => colour::on_plane(p0, p1, p2, k, width, c, luma, chroma, block),
    }
}

// A job of a run: the rules by its row, 8 and 14, and then its block.
pub fn do_job(
    p0: &mut [f32],
    p1: &mut [f32],
    p2: &mut [f32],
    width: usize,
    height: usize,
    row: &[u16],
    differences: &[i16],
    luma: &mut [i32],
    chroma: &mut [i32],
    block: &mut [i32],
    out: &mut [f32],
) -> Answer
    requires are_planes { ArePlanes width height p0.old p1.old p2.old × (length row.now ≡ 32) }
    requires luma_len { (length luma.old ≡ 65536) × (length chroma.old ≡ 65536) × (length block.old ≡ 16384) × (length out.old ≡ 4096) }
    ensures { TowerDone width height differences.now row.now (three p0.old p1.old p2.old) (three p0.new p1.new p2.new) result }
{
    let job = tower_job::rules::read_row(width, height, differences.len(), row)?;
    do_read(
        p0,
        p1,
        p2,
        width,
        job,
        differences,
        luma,
        chroma,
        block,
        out,
    )
}
