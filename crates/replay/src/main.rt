// Replays the list of the original's answers, data/*.txt (oracle/record made it), and prints how many cases there are and how many differ.
#![tactic(auto)]

mod list;

use crate::list::Tally;
use std::fs::{File, Files};

// The list's files.
const NAMES: [&str; 10] = [
    "0.txt", "1.txt", "2.txt", "3.txt", "4.txt", "5.txt", "6.txt", "7.txt", "8.txt", "9.txt",
];

// One file of the list after the other, until one is not there.
fn replay_files(rt: &impl Files, buffer: &mut [u8]) -> Tally {
    let mut tally = Tally::default();
    for name in NAMES {
        let Ok(mut file) = File::open(rt, name) else {
            break;
        };
        let n = file_bytes::read_full(&mut file, buffer);
        list::replay(&buffer[..n], &mut tally);
    }
    tally
}

// Where the output cannot be written, nobody is left to be told.
fn main(rt: HostRuntime) {
    let mut buffer = [0; 65536];
    let tally = replay_files(&rt, &mut buffer);
    let _ = print!(rt; "{}", tally.cases);
    let _ = print!(rt; " cases, ");
    let _ = print!(rt; "{}", tally.wrong);
    let _ = println!(rt; " differ");
}
