// Parts of a block, filled (document 02, request (iv)).
ghost use Rattle.std.specs.Prelude.{◌≡◌, ◌*◌, ◌/◌, ◌%◌, length, get_or};
ghost use Rattle.lists.specs.Fill.{tab};
ghost use Rattle.block_image.specs.Bytes.{byte_of};

// A word's four bytes.
pub fn put_word(w: u32, part: &mut [u8])
    requires { length part.old ≡ 4 }
    ensures { part.new ≡ tab (length part.old) (byte_of w) }
{
    part.copy_from_slice(&w.to_le_bytes());
}

// The two bytes of each word.
pub fn put_words(words: &[u16], part: &mut [u8])
    requires { length part.old ≡ 2 * length words.now }
    ensures { part.new ≡ tab (length part.old) (λ i. byte_of (get_or words.now (i / 2) 0) (i % 2)) }
{
    for (i, word) in words.iter().enumerate() {
        part[2 * i..2 * i + 2].copy_from_slice(&word.to_le_bytes());
    }
}
