//! Fields of a text: the parts before, between and after the marks of one kind.
ghost use Rattle.drawing.specs.Fields.{Cuts};

// Stays: texts are bytes and no `str`, since a line that is no UTF-8 is refused by its number like any other.

/// The first field, and what follows its mark; none where no mark comes.
pub fn cut_at<'a>(text: &'a [u8], mark: u8) -> Option<(&'a [u8], &'a [u8])>
    ensures { Cuts mark text.now result }
{
    let place = text.iter().position(|byte| *byte == mark)?;
    Some((&text[..place], &text[place + 1..]))
}
