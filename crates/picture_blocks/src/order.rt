// Two orders of a plan's jobs.
use crate::Spot;
use greymap::Greymap;

// The plan's own.
pub fn in_rows(order: &mut [u16]) {
    for (i, job) in order.iter_mut().enumerate() {
        *job = (i % 65536) as u16;
    }
}

// The job of a row of blocks in a wave, which may have none: the one whose column and two times its row add up to the wave's number.
fn job_of(g: Greymap, wave: u16, row: u8) -> Option<u16> {
    let column = wave.checked_sub(2 * u16::from(row))?;
    if u16::from(g.across) <= column {
        return None;
    }
    let at = Spot {
        column: column as u8,
        row,
    };
    Some(at.index(g.across))
}

// A wavefront: a block reads the one to its left and the three above it, up to the right, all of which lie in earlier waves. The order has as many of
// the jobs as there is room for.
pub fn in_waves(g: Greymap, order: &mut [u16]) {
    let waves = u16::from(g.across) + 2 * u16::from(g.down);
    let mut places = order.iter_mut();
    for wave in 0..waves {
        for row in 0..g.down {
            if let Some(job) = job_of(g, wave, row)
                && let Some(place) = places.next()
            {
                *place = job;
            }
        }
    }
}
