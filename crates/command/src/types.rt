// The representation types of the TYPE command.
ghost use Rattle.std.specs.Prelude.{◌≡◌, ◌+◌, ◌≤◌, [], ◌∷◌, ◌++◌, length, Some};
ghost use Rattle.arrayvec.specs.ArrayString.{array_string_len};
ghost use Rattle.command.specs.Types.{format_letter, type_text};

use arrayvec::ArrayString;
use std::fmt;

// How a text is prepared for printing.
#[derive(Clone, Copy, PartialEq, Eq, Debug)]
pub enum FormatControl {
    // As NonPrint.
    Default,
    NonPrint,
    Telnet,
    Asa,
}

#[derive(Clone, Copy, PartialEq, Eq, Debug)]
pub enum FileType {
    Ascii(FormatControl),
    Ebcdic(FormatControl),
    Image,
    // Another name for Image.
    Binary,
    // With the number of bits in a byte.
    Local(u8),
}

impl FormatControl {
    fn letter(self) -> &'static str
        ensures { result.now ≡ format_letter self ∷ [] }
    {
        match self {
            FormatControl::Default | FormatControl::NonPrint => "N",
            FormatControl::Telnet => "T",
            FormatControl::Asa => "C",
        }
    }
}

impl FileType {
    // TYPE's argument.
    pub fn text(self) -> ArrayString<8>
        ensures text { result.bytes ≡ type_text self }
        ensures short { array_string_len result ≤ 5 }
    {
        match self {
            FileType::Ascii(control) => joined("A ", control.letter()),
            FileType::Ebcdic(control) => joined("E ", control.letter()),
            FileType::Image | FileType::Binary => joined("I", ""),
            FileType::Local(bits) => joined("L ", itoa::Buffer::new().format(bits)),
        }
    }
}

impl fmt::Display for FileType {
    ghost output = { λ file_type. Some (type_text file_type) };

    fn fmt<W: fmt::Write>(&self, f: &mut fmt::Formatter<W>) -> fmt::Result {
        f.write_str(self.text().as_str())
    }
}

fn joined(front: &str, back: &str) -> ArrayString<8>
    requires { length front.now + length back.now ≤ 5 }
    ensures { result.bytes ≡ front.now ++ back.now }
{
    let mut text = ArrayString::new();
    text.push_str(front);
    text.push_str(back);
    text
}
