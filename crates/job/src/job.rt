// A job, read from its row: "A job in the program carries its mode as one value" (document 01, Ranges and numbers that name things).
use block_spec::spec::IntraRefSpec;
use row_words::flag::Flags;
use row_words::mode::Mode;

// `spec` has what the edges are built from; `start` is where its differences start.
#[derive(Clone, Copy)]
pub struct Job {
    pub spec: IntraRefSpec,
    pub mode: Mode,
    pub flags: Flags,
    pub max_width: u16,
    pub max_height: u16,
    pub start: u32,
}
