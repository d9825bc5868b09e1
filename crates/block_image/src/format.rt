// What a block holds besides its index, its count of rows and its check: so many rows of so many 16-bit words after so many zero bytes; and how many
// blocks a file has at the most.
ghost use Rattle.std.specs.Prelude.{◌≡◌};
ghost use Rattle.block_image.specs.Image.{plan_format, tower_format};

#[derive(Clone, Copy)]
pub struct Format {
    pub rows: usize,
    pub words: usize,
    pub zeros: usize,
    pub most: usize,
}

impl Format {
    // Request (iv)'s: fifteen rows of sixteen words after twenty zero bytes, and 69 blocks at the most.
    pub fn plan() -> Format
        ensures { result ≡ plan_format }
    {
        Format {
            rows: 15,
            words: 16,
            zeros: 20,
            most: 69,
        }
    }

    // Request (v)'s: seven rows of thirty-two words after fifty-two zero bytes, and 147 blocks at the most.
    pub fn tower() -> Format
        ensures { result ≡ tower_format }
    {
        Format {
            rows: 7,
            words: 32,
            zeros: 52,
            most: 147,
        }
    }
}
