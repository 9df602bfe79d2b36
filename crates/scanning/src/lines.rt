ghost use Rattle.std.specs.Prelude.{◌≡◌, ℕ, ◌+◌, ◌<◌, ◌≤◌, true, [], ◌∷◌, length, take, drop};
ghost use Rattle.std.specs.Iterator.{YieldsFirstRef, item_count};
ghost use Rattle.notation.specs.Scanning.{lines, blank, in_word, skipped, front, behind};
ghost use Rattle.scanning.specs.Firsts.{IsFirstLine};

// The first word of what is left of a line, and what follows it. The word is empty at the end of the line and at a comment.
#[derive(Clone, Copy, Debug, PartialEq, Eq)]
pub struct FirstWord<'a> {
    pub word: &'a [u8],
    pub rest: &'a [u8],
}

// The first line of a text, and what follows its line feed. A struct of its own beside that of a word, so that each field's name says
// what it holds.
#[derive(Clone, Copy, Debug, PartialEq, Eq)]
pub struct FirstLine<'a> {
    pub line: &'a [u8],
    pub rest: &'a [u8],
}

// The lines of a text, one after the other.
// An iterator of our own: the items of `split_inclusive` on slices keep the line feed, and no clause of it speaks of `lines`, as the definitions do.
#[derive(Clone, Debug, Drop)]
pub struct Lines<'a>(pub &'a [u8]);

impl<'a> Iterator for Lines<'a> {
    type Item = &'a [u8];

    ghost next_gives = { YieldsFirstRef (λ s. lines s.0.now) };

    ghost remaining = { item_count (λ s. lines s.0.now) };

    fn next(&mut self) -> Option<&'a [u8]> {
        let first = first_line(self.0)?;
        self.0 = first.rest;
        Some(first.line)
    }
}

fn is_blank(byte: u8) -> bool
    ensures { result ≡ blank byte }
{
    matches!(byte, b' ' | b'\t' | b'\r')
}

fn is_in_word(byte: u8) -> bool
    ensures { result ≡ in_word byte }
{
    !is_blank(byte) && byte != b';'
}

// What is left of a line after the blanks at its front.
fn skip_blanks(line: &[u8]) -> &[u8]
    ensures { result.now ≡ skipped line.now }
{
    let blanks = line.iter().take_while(|byte| is_blank(**byte)).count();
    &line[blanks..]
}

// The first word after the blanks at the front, and what follows it.
pub fn first_word(line: &[u8]) -> FirstWord<'_>
    ensures word { result.word.now ≡ front (skipped line.now) }
    ensures rest { result.rest.now ≡ behind (skipped line.now) }
    ensures left { length result.word.now + length result.rest.now ≡ length (skipped line.now) }
{
    let line = skip_blanks(line);
    let length = line.iter().take_while(|byte| is_in_word(**byte)).count();
    let (word, rest) = line.split_at(length);
    FirstWord { word, rest }
}

// The first line of a text, and what follows its line feed; none where the text is empty.
pub fn first_line(text: &[u8]) -> Option<FirstLine<'_>>
    ensures { IsFirstLine text.now result }
{
    match text.iter().position(|byte| *byte == b'\n') {
        Some(feed) => Some(FirstLine {
            line: &text[..feed],
            rest: &text[feed + 1..],
        }),
        None if text.is_empty() => None,
        None => Some(FirstLine {
            line: text,
            rest: &[],
        }),
    }
}
