// A block, row after row: "a missing neighbour is the centre" (document 01, Colour parameters).
ghost use Rattle.std.specs.Prelude.{◌≡◌, true, ◌+◌, ◌*◌, length};
ghost use Rattle.numbers.specs.Colour.{is_colour};
ghost use Rattle.lists.specs.Fill.{tab, filled};
ghost use Rattle.lists.specs.Block.{rows};
ghost use Rattle.colour_row.specs.Mixed.{MixReady, mixed};
ghost use Rattle.colour_row.specs.Runs.{at};
ghost use Rattle.colour_row.specs.Wides.{Wides};
ghost use Rattle.colour_block.specs.Accepted.{BlockAccepted};
ghost use Rattle.colour_block.specs.Lines.{lead_of, up_at, step_of, direction_entry, LumaRow, found};
ghost use Rattle.colour_block.specs.Predicted.{chroma_block};

use colour_row::mix::Mix;
use colour_row::row;
use colour_rules::block::Block;
use colour_terms::reference::Reference;

// How many samples of a row take the centre for want of a neighbour.
fn lead_of(b: Block) -> usize
    requires { is_colour b.direction ≡ true }
    ensures { result ≡ lead_of b }
{
    if b.have_left {
        0
    } else {
        b.colour().columns_left()
    }
}

// So many rows above row j the direction's luma is: none where they are missing.
fn up_at(b: Block, j: usize) -> usize
    requires { is_colour b.direction ≡ true }
    ensures { result ≡ up_at b j }
{
    let up = b.colour().rows_up();
    if b.have_top {
        return up;
    }
    if j < up { 0 } else { up }
}

// How far before the centre the direction's luma is, in row j.
fn step_of(b: Block, j: usize) -> usize
    requires { is_colour b.direction ≡ true }
    ensures { result ≡ step_of b j }
{
    up_at(b, j) * Reference::STRIDE + b.colour().columns_left()
}

// A row in two parts: `lead` samples that take the centre, and the others.
fn led_line(
    luma: &[i32],
    s: usize,
    step: usize,
    lead: usize,
    k: Mix,
    t0: &[i64],
    t1: &[i64],
    row: &mut [i32],
)
    requires { MixReady k × Wides k t0.now t1.now × LumaRow k luma.now s step lead (length row.old) }
    ensures { row.new ≡ tab (length row.old) (λ i. mixed k (at luma.now (direction_entry s step lead i)) (at luma.now (s + i))) }
{
    let n = row.len();
    let o = 0;
    row::row_at(luma, s, s, k, t0, t1, &mut row[o..lead]);
    let from = s + lead;
    row::row_at(luma, from - step, from, k, t0, t1, &mut row[lead..n]);
}

// One row, which starts at s of luma.
fn line(
    luma: &[i32],
    s: usize,
    step: usize,
    lead: usize,
    k: Mix,
    t0: &[i64],
    t1: &[i64],
    row: &mut [i32],
)
    requires { MixReady k × Wides k t0.now t1.now × LumaRow k luma.now s step lead (length row.old) }
    ensures { row.new ≡ tab (length row.old) (λ i. mixed k (at luma.now (direction_entry s step lead i)) (at luma.now (s + i))) }
{
    if lead == 0 {
        row::row_at(luma, s - step, s, k, t0, t1, row);
    } else {
        led_line(luma, s, step, lead, k, t0, t1, row);
    }
}

// The block's rows, in out[..width * height]; t0 and t1 are its parameters' tables.
fn lines(luma: &[i32], b: Block, k: Mix, t0: &[i64], t1: &[i64], out: &mut [i32])
    requires block_accepted { BlockAccepted luma.now b (length out.old) }
    requires mix_ready { MixReady k × (k.bits ≡ b.d) × Wides k t0.now t1.now }
    ensures { out.new ≡ filled (b.height * b.width) (rows b.width (found k luma.now b)) out.old }
{
    let width = b.width;
    let height = b.height;
    let lead = lead_of(b);
    let mut s = b.above_lines * Reference::STRIDE + b.left_lines;
    let mut o = 0;
    let mut j = 0;
    while j < height {
        let e = o + width;
        line(luma, s, step_of(b, j), lead, k, t0, t1, &mut out[o..e]);
        s += Reference::STRIDE;
        o = e;
        j += 1;
    }
}

// The same with tables, which are worked out first, in the room that t0 and t1 lend.
fn wide_lines(luma: &[i32], b: Block, k: Mix, t0: &mut [i64], t1: &mut [i64], out: &mut [i32])
    requires block_accepted { BlockAccepted luma.now b (length out.old) }
    requires mix_ready { MixReady k × (k.bits ≡ b.d) × (length t0.old ≡ 24) × (length t1.old ≡ 24) }
    ensures { out.new ≡ filled (b.height * b.width) (rows b.width (found k luma.now b)) out.old }
{
    product_table::fill(k.p0, t0);
    product_table::fill(k.p1, t1);
    lines(luma, b, k, t0, t1, out);
}

// The same, with room for the tables.
fn tabled(luma: &[i32], b: Block, k: Mix, out: &mut [i32])
    requires block_accepted { BlockAccepted luma.now b (length out.old) }
    requires mix_ready { MixReady k × (k.bits ≡ b.d) }
    ensures { out.new ≡ filled (b.height * b.width) (rows b.width (found k luma.now b)) out.old }
{
    let mut t0 = [0i64; 24];
    let mut t1 = [0i64; 24];
    wide_lines(luma, b, k, &mut t0, &mut t1, out);
}

// The block, in out[..width * height].
pub fn predict_into(luma: &[i32], b: Block, p0: i32, p1: i32, p2: i32, out: &mut [i32])
    requires { BlockAccepted luma.now b (length out.old) }
    ensures { out.new ≡ chroma_block luma.now b p0 p1 p2 out.old }
{
    let k = Mix::of(b.d, p0, p1, p2);
    if k.short {
        let none = [0i64; 1];
        lines(luma, b, k, &none, &none, out);
    } else {
        tabled(luma, b, k, out);
    }
}
