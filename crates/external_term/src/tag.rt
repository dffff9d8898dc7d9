//! Tags: the first byte of each encoded term. The names in capitals are those of the External Term Format.
ghost use Rattle.std.specs.Prelude.{◌≡◌};
ghost use Rattle.external_term.specs.Tags.{tag_of as meaning};

use crate::field::Width;

/// The version of the format, which comes before the first tag.
pub(crate) const VERSION: u8 = 131;

/// NIL_EXT, the tag of the empty list.
pub(crate) const NIL_EXT: u8 = 106;

/// STRING_EXT, the tag of a list of bytes.
pub(crate) const STRING_EXT: u8 = 107;

/// LIST_EXT, the tag of any other list.
pub(crate) const LIST_EXT: u8 = 108;

/// The meaning of a tag: the form of the bytes after it. A width is that of the length that follows the tag.
#[derive(Clone, Copy)]
pub(crate) enum Tag {
    /// SMALL_INTEGER_EXT, an integer of one byte without a sign.
    SmallInteger,
    /// INTEGER_EXT, an integer of 32 bits with a sign.
    Integer,
    /// SMALL_BIG_EXT, an integer of at most 255 bytes, and a byte for the sign.
    SmallBig,
    /// SMALL_ATOM_UTF8_EXT, ATOM_UTF8_EXT, SMALL_ATOM_EXT or ATOM_EXT.
    Atom(Width),
    /// SMALL_TUPLE_EXT or LARGE_TUPLE_EXT.
    Tuple(Width),
    /// NIL_EXT, the empty list.
    Nil,
    /// STRING_EXT, a list of bytes.
    String,
    /// LIST_EXT, a list of any elements, with its tail.
    List,
    /// BINARY_EXT.
    Binary,
    /// NEW_PID_EXT, a pid with a creation of 4 bytes.
    NewPid,
    /// PID_EXT, a pid with a creation of 1 byte.
    Pid,
    /// NEWER_REFERENCE_EXT, a reference of a number of words with a creation of 4 bytes.
    NewerReference,
    /// NEW_REFERENCE_EXT, a reference of a number of words with a creation of 1 byte.
    NewReference,
    /// REFERENCE_EXT, a reference of one word with a creation of 1 byte.
    Reference,
    /// Any other byte.
    Unknown,
}

/// Returns the meaning of a byte as a tag. The numbers are the tags of the External Term Format.
pub(crate) fn tag_of(b: u8) -> Tag
    ensures { result ≡ meaning b }
{
    match b {
        97 => Tag::SmallInteger,
        98 => Tag::Integer,
        110 => Tag::SmallBig,
        // SMALL_ATOM_UTF8_EXT or SMALL_ATOM_EXT.
        119 | 115 => Tag::Atom(Width::One),
        // ATOM_UTF8_EXT or ATOM_EXT.
        118 | 100 => Tag::Atom(Width::Two),
        // SMALL_TUPLE_EXT.
        104 => Tag::Tuple(Width::One),
        // LARGE_TUPLE_EXT.
        105 => Tag::Tuple(Width::Four),
        // `NIL_EXT`, `STRING_EXT` and `LIST_EXT`.
        106 => Tag::Nil,
        107 => Tag::String,
        108 => Tag::List,
        109 => Tag::Binary,
        88 => Tag::NewPid,
        103 => Tag::Pid,
        90 => Tag::NewerReference,
        114 => Tag::NewReference,
        101 => Tag::Reference,
        _ => Tag::Unknown,
    }
}
