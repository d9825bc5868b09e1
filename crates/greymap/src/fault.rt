// What can be wrong with a file, and how it is told. The numbers are the wrong sample's, from 1 on.
use series::checked::SampleFault;
use text::word::WordFault;
use thiserror::Error;

#[derive(Clone, Copy, Debug, PartialEq, Eq, Error)]
pub enum Fault {
    #[error("empty, or it cannot be read")]
    Empty,
    #[error("65536 bytes or more, too long")]
    TooLong,
    #[error("no plain greymap, it does not begin with P2")]
    NoGreymap,
    #[error("no width, height and largest value after P2")]
    NoHeader,
    #[error("its width is not 8, 16, 24 and so on to 64")]
    BadWidth,
    #[error("its height is not 8, 16, 24 and so on to 64")]
    BadHeight,
    #[error("its largest value is not 255, 1023 or 4095")]
    BadLargest,
    #[error("too many samples for the room there is")]
    NoRoom,
    #[error("sample {0} is no whole number")]
    NoSample(usize),
    #[error("sample {0} is above its largest value")]
    TooBright(usize),
    #[error("it ends before sample {0}")]
    Short(usize),
    #[error("more follows after its last sample")]
    TooMuch,
    #[error("its sides and its largest value are not those of the first")]
    OtherSize,
    #[error("no third follows, a still has one greymap or three")]
    Two,
}

impl From<SampleFault> for Fault {
    fn from(bad: SampleFault) -> Fault {
        match bad.why {
            WordFault::NoNumber => Fault::NoSample(bad.number),
            WordFault::TooLarge => Fault::TooBright(bad.number),
            WordFault::Nothing => Fault::Short(bad.number),
        }
    }
}
