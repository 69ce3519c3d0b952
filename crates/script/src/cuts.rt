// Cutting a script into its lines.
ghost use Rattle.std.specs.Prelude.{length};
ghost use Rattle.std.specs.Iterator.{YieldsFirstRef, at_most};
ghost use Rattle.script.specs.Grammar.{lines};

/// What is left of a script. It gives the lines, each without the byte that ends it, which the last may lack.
// `split` gives an empty line at the end, and with `split_inclusive` the proof did not close: the check fails in what it generates.
#[derive(Drop)]
pub(crate) struct Lines<'s>(pub(crate) &'s [u8]);

impl<'s> Iterator for Lines<'s> {
    type Item = &'s [u8];

    ghost next_gives = { YieldsFirstRef (λ s. lines s.0.now) };

    ghost remaining = { λ s. at_most (length s.0.now) };

    fn next(&mut self) -> Option<&'s [u8]> {
        let script = self.0;
        if script.is_empty() {
            return None;
        }
        match script.iter().position(|b| *b == b'\n') {
            Some(end) => {
                self.0 = &script[end + 1..];
                Some(&script[..end])
            }
            None => {
                self.0 = &[];
                Some(script)
            }
        }
    }
}
