// "Modes: 0 Paeth, 1 smooth, 2 smooth_v, 3 smooth_h, 4 a direction with its delta." (document 01, Ranges and numbers that name things)
#![tactic(auto)]

ghost use Rattle.std.specs.Prelude.{◌≡◌, length};
ghost use Rattle.modes.specs.Ready.{Ready, predicted_block};

use job::job::Job;
use row_words::mode::Mode;

// The block of the job's mode, in out[..b * b].
pub fn predict_into(job: Job, above: &[i32], left: &[i32], corner: i32, out: &mut [f32])
    requires { Ready job above.now left.now corner (length out.old) }
    ensures { out.new ≡ predicted_block job above.now left.now corner out.old }
{
    let s = job.spec;
    let bs = s.b as usize;
    let mode = job.mode;
    match mode {
        Mode::Paeth => paeth::block::paeth_into(bs, above, left, corner, out),
        Mode::Smooth => smooth::block::smooth_into(bs, above, left, out),
        Mode::SmoothV => smooth::block::smooth_v_into(bs, above, left, out),
        Mode::SmoothH => smooth::block::smooth_h_into(bs, above, left, out),
        Mode::Directional(dir, delta) => {
            let flags = job.flags;
            directional::turned::turned_into(
                s.b,
                s.d,
                dir,
                delta,
                flags,
                job.max_width,
                job.max_height,
                above,
                left,
                corner,
                out,
            );
        }
    }
}
