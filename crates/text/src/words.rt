// Parts: the words of a line, separated by single spaces.
ghost use Rattle.std.specs.Prelude.{◌≡◌};
ghost use Rattle.text.specs.Words.{word_of, Counts};

// 0 is a count like any other to who asks: no command has so many words (`Counts`).
// How many words a line has, 0 where one of them is empty.
pub fn count(line: &[u8]) -> usize
    ensures { Counts line.now result }
{
    let mut words = 0;
    for word in line.split(|b| *b == b' ') {
        if word.is_empty() {
            return 0;
        }
        words += 1;
    }
    words
}

// A word, by its number from 0; the empty one where there is none.
pub fn word(line: &[u8], number: usize) -> &[u8]
    ensures { result.now ≡ word_of line.now number }
{
    line.split(|b| *b == b' ').nth(number).unwrap_or(&[])
}
