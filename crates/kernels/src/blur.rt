// "Kernels: 0 4 8 4 0; 0 5 6 5 0; 2 4 4 4 2; then + 8, >> 4" (document 01, Directions)
ghost use Rattle.std.specs.Prelude.{◌≡◌, [], ◌<◌, ◌≤◌, ◌+◌, ◌-◌, length, get_or, pos};
ghost use Rattle.signed.specs.Range.{Edge};
ghost use Rattle.lists.specs.Fill.{tab};
ghost use Rattle.kernels.specs.Kernel.{kernels as kernels_of, kernel, tap, five, Five};

const KERNELS: [[i32; 5]; 3] = [[0, 4, 8, 4, 0], [0, 5, 6, 5, 0], [2, 4, 4, 4, 2]];

// The kernel of a strength. Each arm names its row, so that the compiler copies the row and not the table.
fn kernel_of(s: usize) -> [i32; 5]
    requires { (0 < s) × (s ≤ 3) }
    ensures { result ≡ get_or kernels_of (s - 1) [] }
{
    match s {
        1 => KERNELS[0],
        2 => KERNELS[1],
        _ => KERNELS[2],
    }
}

// The five entries of a list from i on by a kernel, rounded.
fn blurred(k: &[i32; 5], pad: &[i32], i: usize) -> i32
    requires five { Five k.now }
    requires i_in_bounds { (i + 5 ≤ length pad.now) × Edge 4095 (i + 5) pad.now }
    ensures { result ≡ five (tap k.now 0) (tap k.now 1) (tap k.now 2) (tap k.now 3) (tap k.now 4) (λ j. get_or pad.now j (pos 0)) i }
{
    let sum = k[0] * pad[i]
        + k[1] * pad[i + 1]
        + k[2] * pad[i + 2]
        + k[3] * pad[i + 3]
        + k[4] * pad[i + 4];
    (sum + 8) >> 4
}

// A part of a list by the kernel of a strength: entry i from the five of another list from i on.
pub fn blur_by(s: usize, pad: &[i32], to: &mut [i32])
    requires { (0 < s) × (s ≤ 3) × (length to.old + 4 ≤ length pad.now) × Edge 4095 (length to.old + 4) pad.now }
    ensures { to.new ≡ tab (length to.old) (λ i. five (kernel s 0) (kernel s 1) (kernel s 2) (kernel s 3) (kernel s 4) (λ k. get_or pad.now k (pos 0)) i) }
{
    let k = kernel_of(s);
    rows::fill_long(to, |i| blurred(&k, pad, i));
}
