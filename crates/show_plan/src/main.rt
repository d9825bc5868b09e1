// Reads a plan's file from standard input and prints "a line a job, its index and sixteen words in decimal, one space between, or else only the refusal
// number" (document 02, request (iv)). What text a file has is `page`'s promise. Nothing is printed before the whole file is read and tested.
#![tactic(auto)]

fn main(rt: HostRuntime) {
    // more bytes than any plan's file has: an input that fills the room is refused by 40, whatever follows
    let mut file = [0; 65536];
    // 1,024 rows of 16 words
    let mut plan = [0; 1024 * 16];
    // 1,024 lines of 17 numbers, each of at most five digits and with one byte after it
    let mut text = [0; 1024 * 17 * 6];
    show_streams::show(&rt, &mut file, &mut plan, &mut text, plan_page::page);
}
