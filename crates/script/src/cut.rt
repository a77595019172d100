// Where lines, words and the parts of addresses end.
ghost use Rattle.std.specs.Prelude.{◌≡◌, ◌≤◌, length, ◌==◌};
ghost use Rattle.script.specs.Cuts.{blank, inked, trimmed, split_at};
ghost use Rattle.std.specs.Option.{option_map};
ghost use Rattle.std.specs.List.{prefix_len, position};

// Words are separated by spaces and tabs.
pub(crate) fn is_blank(byte: u8) -> bool
    ensures { result ≡ blank byte }
{
    matches!(byte, b' ' | b'\t')
}

// The place of the first blank, or the text's length.
pub(crate) fn word_length(text: &[u8]) -> usize
    ensures value { result ≡ prefix_len inked text.now }
    ensures within { result ≤ length text.now }
{
    text.iter().take_while(|byte| !is_blank(**byte)).count()
}

// How many blanks stand before the first byte that is none.
fn margin(text: &[u8]) -> usize
    ensures value { result ≡ prefix_len blank text.now }
    ensures within { result ≤ length text.now }
{
    text.iter().take_while(|byte| is_blank(**byte)).count()
}

// The text from its first byte that is no blank.
pub(crate) fn trim_front(text: &[u8]) -> &[u8]
    ensures { result.now ≡ trimmed text.now }
{
    &text[margin(text)..]
}

fn place_of(text: &[u8], byte: u8) -> Option<usize>
    ensures { result ≡ position (λ c. c == byte) text.now }
{
    text.iter().position(|other| *other == byte)
}

// The part before the first such byte, and the part behind it; nothing where it does not stand there.
pub(crate) fn split_once(text: &[u8], byte: u8) -> Option<(&[u8], &[u8])>
    ensures { option_map (λ p. (p.0.now, p.1.now)) result ≡ split_at byte text.now }
{
    let place = place_of(text, byte)?;
    Some((&text[..place], &text[place + 1..]))
}
