// A file that cannot be opened: one line on standard error, the file's name and why.
use arrayvec::ArrayString;
use std::fmt::Write;
use std::io;
use still_page::print;

// The system's words alone: std puts the error's number behind them.
fn without_number(text: &str) -> &str {
    match text.split_once(" (os error ") {
        Some((words, _)) => words,
        None => text,
    }
}

pub fn tell(err: &impl Print, name: &str, error: io::Error) {
    let mut text = ArrayString::<320>::new();
    let _ = write!(text, "{error}");
    let why = without_number(text.as_str());
    print::say(err, format_args!("{name}: {why}\n"));
}
