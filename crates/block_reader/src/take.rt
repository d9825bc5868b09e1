// The words of a file's rows, taken into a plan (document 02, request (iv)).
ghost use Rattle.std.specs.Prelude.{◌≡◌, ◌+◌, ◌*◌, ◌≤◌, ◌<◌, length};
ghost use Rattle.lists.specs.Fill.{tab, filled};
ghost use Rattle.block_image.specs.Bytes.{word16};
ghost use Rattle.block_image.specs.Rules.{bytes_from};
ghost use Rattle.block_image.specs.Taken.{blocks_in, word_in};

use block_words::bytes::word_16;

// Words of two bytes each, from place o on.
fn take_words(bytes: &[u8], o: usize, words: &mut [u16])
    requires { o + 2 * length words.old ≤ length bytes.now }
    ensures { words.new ≡ tab (length words.old) (λ i. word16 (bytes_from bytes.now o) (2 * i)) }
{
    for (i, word) in words.iter_mut().enumerate() {
        *word = word_16(bytes, o, 2 * i);
    }
}

// The words of the first `full` blocks of a file whose blocks have `area` words from place `lead` on, block by block.
fn take_full(bytes: &[u8], area: usize, lead: usize, full: usize, plan: &mut [u16])
    requires { (lead + 2 * area ≤ 512) × (full ≤ blocks_in bytes.now) × (full * area ≤ length plan.old) }
    ensures { plan.new ≡ filled (full * area) (word_in area lead bytes.now) plan.old }
{
    for k in 0..full {
        let start = k * area;
        let end = start + area;
        take_words(bytes, 512 * k + lead, &mut plan[start..end]);
    }
}

// The first `total` words of such a file.
pub fn take_plan(bytes: &[u8], area: usize, lead: usize, total: usize, plan: &mut [u16])
    requires { (0 < area) × (lead + 2 * area ≤ 512) × (total ≤ length plan.old) × (total ≤ blocks_in bytes.now * area) }
    ensures { plan.new ≡ filled total (word_in area lead bytes.now) plan.old }
{
    let full = total / area;
    let start = full * area;
    take_full(bytes, area, lead, full, plan);
    if start < total {
        take_words(bytes, 512 * full + lead, &mut plan[start..total]);
    }
}
