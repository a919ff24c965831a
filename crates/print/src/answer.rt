// What a rehearsal prints.
ghost use Rattle.print.specs.Answer.{answer_text};
ghost use Rattle.std.specs.Prelude.{Some};

use std::fmt;

// The answer to a line.
#[derive(Clone, Copy, PartialEq, Eq, Debug)]
pub enum Answer {
    Word(u32),
    // its number, whichever enum of refusals it comes from: that is all that is printed
    Refused(u8),
    Show,
}

impl fmt::Display for Answer {
    ghost output = { λ a. Some (answer_text a) };

    fn fmt<W: fmt::Write>(&self, f: &mut fmt::Formatter<W>) -> fmt::Result {
        match self {
            Answer::Word(word) => write!(f, "word {word}"),
            Answer::Refused(number) => write!(f, "refused {number}"),
            Answer::Show => f.write_str("show"),
        }
    }
}
