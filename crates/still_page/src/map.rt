// The page's map: the letter of the predictor that each block took.
use crate::legend;
use greymap::Greymap;
use picture_blocks::Spot;
use picture_blocks::candidate::Choice;

// The letters of a row of blocks, of those that have a choice.
fn print_row(rt: &impl Print, g: Greymap, choices: &[Choice], row: u8) {
    let _ = print!(rt; "    ");
    for column in 0..g.across {
        let block = Spot { column, row }.index(g.across);
        if let Some(choice) = choices.get(usize::from(block)) {
            let _ = print!(rt; " {}", legend::letter(choice.number));
        }
    }
    let _ = println!(rt;);
}

// The map of letters, a line for each row of blocks.
pub fn print_map(rt: &impl Print, g: Greymap, choices: &[Choice]) {
    let _ = println!(rt;);
    for row in 0..g.down {
        print_row(rt, g, choices, row);
    }
}
