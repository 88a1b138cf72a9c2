// Lines that ask for nothing.
ghost use Rattle.std.specs.Prelude.{Decides};
ghost use Rattle.command.specs.Lines.{texts, Silent};

// Whether a line asks for nothing: it has no words, or its first word begins with #.
pub fn passed_over(words: &[&str]) -> bool
    ensures { Decides result (Silent (texts words.now)) }
{
    match words {
        [] => true,
        [first, ..] => matches!(first.as_bytes(), [] | [b'#', ..]),
    }
}
