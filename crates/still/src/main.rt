// Reads a finish-line still, one plain greymap or a colour still's three: those that ship, or the one that is named. Makes a plan of jobs, one for
// each block by the predictor that comes nearest, much of a colour still's chroma from its luma. Rebuilds the picture from nothing by the plan in
// two orders, and prints what came of it.
#![tactic(auto)]

mod named;
mod show;
mod unopened;

use greymap::fault::Fault;
use greymap::still;
use greymap::still::{Still, StillFault};
use std::fs::{File, Files};
use std::io::Read;
use still_page::print;
use tower_blocks::plane::Planes;

// The file's still, its samples in the planes' first places. The file's bytes are off the stack once it is read.
#[inline(never)]
fn load<R: Read>(file: &mut R, planes: &mut Planes) -> Result<Still, StillFault> {
    let Planes { luma, cb, cr, .. } = planes;
    let mut buffer = [0; 65536];
    match file_bytes::read_full(file, &mut buffer) {
        0 => Err(Fault::Empty.of(1)),
        65536 => Err(Fault::TooLong.of(1)),
        n => still::read(&buffer[..n], luma, cb, cr),
    }
}

// What an open file has, or what is wrong with it.
fn show_open<F: Read>(out: &impl Print, err: &impl Print, name: &str, file: &mut F) {
    let mut planes = Planes::EMPTY;
    match load(file, &mut planes) {
        Ok(Still::Grey(g)) => show::show(out, name, series::first(&planes.luma, g.area()), g),
        Ok(Still::Colour(g)) => {
            planes.g = g;
            colour_still::show(out, name, &planes);
        }
        Err(why) => print::say(err, format_args!("{name}: {why}\n")),
    }
}

// What a file has. Nothing is told of a write that fails.
fn show_file<R: Files + Print>(rt: &R, err: &impl Print, name: &str) {
    match File::open(rt, name) {
        Ok(mut file) => show_open(rt, err, name, &mut file),
        Err(error) => unopened::tell(err, name, error),
    }
}

// The one file that is named, or those that ship.
fn main(rt: HostRuntime) {
    let mut name = [0; 4096];
    let err = rt.stderr();
    match named::name(&rt, &mut name) {
        Ok(Some(name)) => show_file(&rt, &err, name),
        Ok(None) => {
            show_file(&rt, &err, "finish.pgm");
            let _ = println!(rt;);
            show_file(&rt, &err, "helmets.pgm");
        }
        Err(why) => why.tell(&err),
    }
}
