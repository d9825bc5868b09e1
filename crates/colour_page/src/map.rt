// The map of jobs: a letter for each block of chroma, Cb beside Cr.
use picture_blocks::Spot;
use rebuild::Plan;
use tower_blocks::plane::Plane;
use tower_blocks::{PlaneBlock, row};

// The letter of a job's number: P, S, V and H as on a grey still's page; from luma C, A and L.
fn letter(number: u8) -> char {
    match number {
        0 => 'P',
        1 => 'S',
        2 => 'V',
        3 => 'H',
        4 => 'C',
        5 => 'A',
        _ => 'L',
    }
}

// The letters of a plane's row of blocks.
fn print_row(rt: &impl Print, plan: Plan<'_, 32>, plane: Plane, row: u8) {
    let _ = print!(rt; "    ");
    for column in 0..plan.g.across {
        let b = PlaneBlock {
            plane,
            at: Spot { column, row },
        };
        let _ = print!(rt; " {}", letter(row::number_of(plan.rows, b.job(plan.g))));
    }
}

fn print_legend(rt: &impl Print) {
    let _ = print!(rt;
        "\n     jobs of Cb, and of Cr: with differences P Paeth, S smooth, V smooth_v, H smooth_h;"
    );
    let _ = println!(rt; "\n     from luma C at the sample, A above it, L left of it");
}

pub fn print_map(rt: &impl Print, plan: Plan<'_, 32>) {
    print_legend(rt);
    for row in 0..plan.g.down {
        print_row(rt, plan, Plane::Cb, row);
        print_row(rt, plan, Plane::Cr, row);
        let _ = println!(rt;);
    }
}
