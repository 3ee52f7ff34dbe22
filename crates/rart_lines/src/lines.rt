//! The lines of a text.
ghost use Rattle.std.specs.Prelude.{◌≡◌, ◌<◌, ◌^◌, ◌==◌, length, position};

/// The parts of a text between its newlines, in order.
#[derive(Drop)]
pub struct Lines<'a> {
    // The text after the newline of the previous line; nothing once the last line is returned.
    rest: Option<&'a [u8]>,
}

impl<'a> Lines<'a> {
    ghost use Rattle.rart_lines.specs.Lines.{lines_of, lines_left};

    /// Returns the lines of `text`. A text that ends in a newline has an empty last line.
    pub fn new(text: &'a [u8]) -> Self
        ensures left { lines_left result ≡ lines_of text.now }
        // So they can be numbered.
        ensures fits { length (lines_left result) < 2 ^ 64 }
    {
        Lines { rest: Some(text) }
    }
}

impl<'a> Iterator for Lines<'a> {
    ghost use Rattle.std.specs.Iterator.{YieldsFirstBy, item_count};
    ghost use Rattle.rart_lines.specs.Lines.{lines_left};

    type Item = &'a [u8];

    ghost next_gives = { YieldsFirstBy (λ line. line.now) lines_left };

    ghost remaining = { item_count lines_left };

    fn next(&mut self) -> Option<&'a [u8]> {
        let text = self.rest?;
        match line_end(text) {
            Some(end) => {
                self.rest = Some(&text[end + 1..]);
                Some(&text[..end])
            }
            None => {
                self.rest = None;
                Some(text)
            }
        }
    }
}

/// Returns the position of the first newline of a text.
fn line_end(text: &[u8]) -> Option<usize>
    ensures { result ≡ position (λ b. b == 10) text.now }
{
    text.iter().position(|byte| *byte == b'\n')
}
