// Bytes and words of a file, at any position.
ghost use Rattle.case_model.specs.Bytes.{byte_at, word_at};
ghost use Rattle.case_reader.specs.Read.{Is};

// The byte at a position, 0 past the end.
// No Option: the readers could never fail, and the model reads 0 there too (case_model Bytes, `byte_at`).
pub fn byte(file: &[u8], at: usize) -> usize
    ensures { Is (byte_at file.now at) 256 result }
{
    file.get(at).map_or(0, |byte| usize::from(*byte))
}

// Two bytes, low byte first; 0 past the end. No file reaches the last position, so that it stands for the one after it too.
// Not by `from_le_bytes`: the second byte can lie past the end where the first does not.
pub fn word(file: &[u8], at: usize) -> usize
    ensures { Is (word_at file.now at) 65536 result }
{
    byte(file, at) + 256 * byte(file, at.saturating_add(1))
}
