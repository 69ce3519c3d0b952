// Short texts, put together from their ends.
ghost use Rattle.std.specs.Prelude.{◌≡◌, ◌+◌, ◌≤◌, ◌++◌, [], ◌∷◌, drop, decimal};

use itoa::write_digits;

/// Room for any output line: three numbers of at most 20 digits, a word of two letters, three spaces, the byte at the end.
const ROOM: usize = 66;

/// The end of a line, in the value itself. What comes before is put in front, as the digits of a number come, so each part is
/// written straight to its place.
#[derive(Drop)]
pub(crate) struct LineEnd {
    bytes: [u8; ROOM],
    start: usize,
    ghost within: { start ≤ 66 },
}

impl LineEnd {
    /// The byte that ends a line.
    pub(crate) fn new() -> LineEnd
        ensures text { drop result.start result.bytes ≡ 10 ∷ [] }
        ensures start { result.start ≡ 65 }
    {
        LineEnd {
            bytes: [b'\n'; ROOM],
            start: ROOM - 1,
        }
    }

    /// Puts a number in front, which has at most 20 digits.
    pub(crate) fn prepend_number(&mut self, number: u64)
        requires { 20 ≤ self.old.start }
        ensures text { drop self.new.start self.new.bytes ≡ decimal number ++ drop self.old.start self.old.bytes }
        ensures start { self.old.start ≤ self.new.start + 20 }
    {
        self.start = write_digits(number, &mut self.bytes, self.start);
    }

    /// Puts a word in front.
    pub(crate) fn prepend_word<const N: usize>(&mut self, word: &[u8; N])
        requires { N ≤ self.old.start }
        ensures text { drop self.new.start self.new.bytes ≡ word.now ++ drop self.old.start self.old.bytes }
        ensures start { self.new.start + N ≡ self.old.start }
    {
        let start = self.start - N;
        self.bytes[start..self.start].copy_from_slice(word);
        self.start = start;
    }

    /// What has been put together.
    pub(crate) fn as_bytes(&self) -> &[u8]
        ensures { result.now ≡ drop self.now.start self.now.bytes }
    {
        &self.bytes[self.start..]
    }
}
