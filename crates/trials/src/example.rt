// The sheet file of the paper's example: the root with tape 500 and its leaves 501 and 502, D = 3, half-widths 0.
ghost use Rattle.std.specs.Prelude.{◌<◌};

// Stores a word, low byte first.
fn put(file: &mut [u8; 1024], word: usize, value: u16)
    requires { word < 512 }
{
    file[2 * word..2 * word + 2].copy_from_slice(&value.to_le_bytes());
}

// A node's row, from a word on.
fn put_row(file: &mut [u8; 1024], word: usize, child: u16, sibling: u16, tape: u16)
    requires { word < 508 }
{
    put(file, word, child);
    put(file, word + 1, sibling);
    put(file, word + 2, tape);
}

pub fn file() -> [u8; 1024] {
    let mut file = [0u8; 1024];
    put(&mut file, 1, 1);
    put(&mut file, 2, 3);
    put(&mut file, 3, 3);
    put(&mut file, 254, 23);
    put(&mut file, 255, 65506);
    put(&mut file, 256, 1);
    put(&mut file, 257, 3);
    put_row(&mut file, 258, 1, 65535, 500);
    put_row(&mut file, 263, 65535, 2, 501);
    put_row(&mut file, 268, 65535, 65535, 502);
    put(&mut file, 510, 15029);
    put(&mut file, 511, 49001);
    file
}
