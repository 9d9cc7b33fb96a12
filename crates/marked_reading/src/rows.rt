// Packed rows with their marked bits cleared or set.
ghost use Rattle.std.specs.Prelude.{◌≡◌};
ghost use Rattle.bits.specs.Bits.{unpack};
ghost use Rattle.marks.specs.Marked.{differences as differences_of};
ghost use Rattle.marked_reading.specs.Parts.{cleared, filled_row};

// The marked bits of the row become 0, as far as both go.
pub fn clear_marked(row: &mut [u8], marks: &[u8])
    ensures { row.new ≡ cleared row.old marks.now }
{
    let n = bits::smaller(marks.len(), row.len());
    let mut i = 0;
    while i < n {
        row[i] ^= row[i] & marks[i];
        i += 1;
    }
}

// The word with its marked bits 1 or 0, and zeros behind it.
pub fn with_marked(word: &[u8], marks: &[u8], one: bool) -> [u8; 1024]
    ensures { result ≡ filled_row one word.now marks.now }
{
    let mut row = [0u8; 1024];
    packed::xor_row(&mut row, word);
    clear_marked(&mut row, marks);
    if one {
        packed::xor_row(&mut row, marks);
    }
    row
}

// The number of ones of a pattern of n bits at unmarked places.
pub fn differences(pattern: [u8; 1024], marks: &[u8], n: usize) -> usize
    ensures { result ≡ differences_of (unpack n marks.now) (unpack n pattern) }
{
    let mut row = pattern;
    clear_marked(&mut row, marks);
    bits::weight(&row, n)
}
