// Reads a file of request (v) from standard input and prints "all thirty-two words" of each job, as `show_plan` prints sixteen (document 02, requests
// (iv) and (v)). The bytes alone do not tell which of the two formats they have, so each has its program. What text a file has is `tower_page`'s
// promise. Nothing is printed before the whole file is read and tested.
#![tactic(auto)]

fn main(rt: HostRuntime) {
    // 160 blocks, more than any file has: an input that fills the room is refused by 40, whatever follows
    let mut file = [0; 160 * 512];
    // 1,024 rows of 32 words
    let mut plan = [0; 1024 * 32];
    // 1,024 lines of 33 numbers, each of at most five digits and with one byte after it
    let mut text = [0; 1024 * 33 * 6];
    show_streams::show(&rt, &mut file, &mut plan, &mut text, plan_page::tower_page);
}
