// Why a line is bad.
use std::fmt;

#[derive(Clone, Copy, Debug, PartialEq, Eq)]
pub enum Why {
    // its first word is none of the format's
    Word,
    // it ends where a word should stand
    Ends,
    // words are left over
    Left,
    // a character stands where it cannot
    Character,
    // no number stands where one should
    Number,
    // a number does not fit its field
    Field,
    // no two hexadecimal digits stand where they should
    Hex,
    // there are too many bytes, or not as many as are asked for
    Bytes,
    // no link message is of that kind
    Kind,
    // the input could not be read to its end
    Unread,
    // it parses, but its slot is none of the table's
    Slot,
    // it parses, but its bytes do not lie within the memory
    Memory,
}

impl fmt::Display for Why {
    fn fmt<W: fmt::Write>(&self, f: &mut fmt::Formatter<W>) -> fmt::Result {
        f.write_str(match self {
            Why::Word => "unknown word",
            Why::Ends => "it ends where a word should stand",
            Why::Left => "words are left over",
            Why::Character => "a character stands where it cannot",
            Why::Number => "no number stands where one should",
            Why::Field => "a number does not fit its field",
            Why::Hex => "no two hexadecimal digits (0-9, A-F) stand where they should",
            Why::Bytes => "too many bytes, or not as many as are asked for",
            Why::Kind => "no link message is of that kind",
            Why::Unread => "it could not be read to its end",
            Why::Slot => "the table has no such slot",
            Why::Memory => "bytes outside of the memory",
        })
    }
}
