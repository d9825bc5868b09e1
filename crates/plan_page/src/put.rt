// Bytes and numbers, put into a lent list from a place on. Each function answers the place after them.
ghost use Rattle.std.specs.Prelude.{[], ◌∷◌, ◌+◌, ◌≤◌, ◌<◌, length};
ghost use Rattle.plan_page.specs.Page.{decimal};
ghost use Rattle.plan_page.specs.Put.{Put};

// One byte.
pub fn put_byte(b: u8, out: &mut [u8], at: usize) -> usize
    requires { at < length out.old }
    ensures { Put (b ∷ []) at out.old result out.new }
{
    out[at] = b;
    at + 1
}

// A text.
fn put_text(text: &[u8], out: &mut [u8], at: usize) -> usize
    requires { at + length text.now ≤ length out.old }
    ensures { Put text.now at out.old result out.new }
{
    let mut i = 0;
    while i < text.len() {
        out[at + i] = text[i];
        i += 1;
    }
    at + i
}

// A number in decimal.
pub fn put_number(n: u64, out: &mut [u8], at: usize) -> usize
    requires { (n < 100000) × (at + 5 ≤ length out.old) }
    ensures { Put (decimal n) at out.old result out.new }
{
    let mut text = [0u8; 20];
    let k = io::decimal(n, &mut text);
    put_text(&text[..k], out, at)
}
