// Lists of the numbers of a text, for the programs.
#![tactic(auto)]

pub mod checked;
pub mod kind;
pub mod room;

ghost use Rattle.std.specs.Prelude.{◌≤◌, length};

// The first n entries of a list, or all where it has fewer.
pub fn first<T>(list: &[T], n: usize) -> &[T]
    ensures { length result.now ≤ length list.now }
{
    list.get(..n).unwrap_or(list)
}

// The same, to be written.
pub fn first_mut<T>(list: &mut [T], n: usize) -> &mut [T]
    ensures { length result.now ≤ length list.old }
{
    let n = n.min(list.len());
    &mut list[..n]
}

// Fills a list with what the numbers at a text's front stand for, and hands back the text after them.
pub fn fill<'a, T: Copy, F: Fn(u32) -> T>(s: &'a [u8], list: &mut [T], stands_for: F) -> &'a [u8]
    requires { F.IsAlwaysCallable stands_for }
{
    let mut rest = s;
    for x in list.iter_mut() {
        let (n, tail) = text::number(rest);
        *x = stands_for(n);
        rest = tail;
    }
    rest
}

// The text after a list's entries, if they are what the numbers at its front stand for.
pub fn same<'a, T: PartialEq + Drop, F: Fn(u32) -> T>(
    s: &'a [u8],
    list: &[T],
    stands_for: F,
) -> Option<&'a [u8]>
    requires { F.IsAlwaysCallable stands_for }
{
    let mut rest = s;
    for x in list {
        let (n, tail) = text::number(rest);
        if *x != stands_for(n) {
            return None;
        }
        rest = tail;
    }
    Some(rest)
}
