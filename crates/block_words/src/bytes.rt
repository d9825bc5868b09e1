// Little-endian words of a list of bytes (document 02, request (iv)); place i is counted from place o.
ghost use Rattle.std.specs.Prelude.{◌≡◌, ◌+◌, ◌*◌, ◌≤◌, length};
ghost use Rattle.block_image.specs.Bytes.{word16, word32};
ghost use Rattle.block_image.specs.Rules.{bytes_from};

pub fn word_32(bytes: &[u8], o: usize, i: usize) -> u32
    requires { o + i + 4 ≤ length bytes.now }
    ensures { result ≡ word32 (bytes_from bytes.now o) i }
{
    u32::from_le_bytes([
        bytes[o + i],
        bytes[o + (i + 1)],
        bytes[o + (i + 2)],
        bytes[o + (i + 3)],
    ])
}

pub fn word_16(bytes: &[u8], o: usize, i: usize) -> u16
    requires { o + i + 2 ≤ length bytes.now }
    ensures { result ≡ word16 (bytes_from bytes.now o) i }
{
    u16::from_le_bytes([bytes[o + i], bytes[o + (i + 1)]])
}
