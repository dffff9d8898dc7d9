//! The reader of `term_text`, compared with the plain reader of `reference`, on each prefix of good texts and on texts
//! with one byte changed.
use super::has_result;
use super::reference::read_by_rules;
use std::alloc::{AllocError, Global};
use std::process::Abort;

/// Returns the result of a text by the plain reader, as `result_of` spells it.
fn reference_result(alloc: Global, text: &[u8]) -> Result<String, AllocError> {
    match read_by_rules(alloc, text) {
        Ok((printed, taken)) => {
            let result = format!(in alloc; "{printed} {taken}");
            drop(printed);
            result
        }
        Err(fault) => format!(in alloc; "{fault:?}"),
    }
}

/// Returns whether the reader and the plain reader have the same result for a text.
fn agrees_with_reference(alloc: Global, text: &[u8]) -> Result<bool, AllocError> {
    let wanted = reference_result(alloc, text)?;
    let agrees = has_result(alloc, text, wanted.as_str());
    drop(wanted);
    agrees
}

/// Texts of terms. The test reads each prefix of each text.
const GOOD: [&str; 30] = [
    "0",
    " -170141183460469231731687303715884105728",
    "170141183460469231731687303715884105727",
    "007",
    "-00",
    "a@B_9",
    "and",
    "'Hello World'",
    "'\\\\\\'\"'",
    "''",
    "\"\"",
    "\"a\\\"'\\\\\"",
    "{}",
    "[ ]",
    "{a}",
    "[1,-2 , 3]",
    "{ 'A' ,\"bc\",[]\t}",
    "[[[]],{{}}]",
    "<<>>",
    "<< >>",
    "<<0>>",
    "<<255, 007\n,1 >>",
    "<<\"\">>",
    "<< \"h'\\\"\" >>",
    "<0.7.0>",
    "<0.4294967295.0>",
    "#Tid<0>",
    "#Tid<4294967295>",
    "\r\n{<0.1.0>,#Tid<2>,<<3>>}",
    "[{k,1},{'K',\"v\"}]",
];

/// Texts of terms. The test changes each byte of each text to each other byte.
const TEXTS_TO_CHANGE: [&str; 10] = [
    "-17",
    "ab",
    "'a\\''",
    "\"x\\\\\"",
    "{a, 1}",
    "[[],\"\"]",
    "<<1,25>>",
    "<<\"y\">>",
    "<0.42.0>",
    "#Tid<3>",
];

/// Returns whether both readers have the same result for each prefix of a text.
fn prefixes_agree(alloc: Global, text: &[u8]) -> Result<bool, AllocError> {
    for length in 0..=text.len() {
        // `get` succeeds, because `length` is at most the length of the text.
        if !agrees_with_reference(alloc, text.get(..length).unwrap_or(text))? {
            return Ok(false);
        }
    }
    Ok(true)
}

/// Returns the first text with a prefix for which the readers differ.
fn first_prefix_mismatch(
    alloc: Global,
    texts: &[&'static str],
) -> Result<Option<&'static str>, AllocError> {
    for text in texts {
        if !prefixes_agree(alloc, text.as_bytes())? {
            return Ok(Some(*text));
        }
    }
    Ok(None)
}

#[test]
fn prefixes_of_good_texts_are_read_by_the_rules(rt: HostRuntime) {
    assert_eq!(rt; first_prefix_mismatch(rt.alloc(), &GOOD), Ok(None));
}

/// Changes the byte at an offset.
fn set_byte(text: &mut [u8], at: usize, byte: u8) {
    if let Some(old) = text.get_mut(at) {
        *old = byte;
    }
}

/// Returns whether both readers have the same result with each of the 256 bytes at this offset, and restores the text.
fn changed_bytes_at_agree(alloc: Global, text: &mut [u8], at: usize) -> Result<bool, AllocError> {
    let original = text.get(at).copied().unwrap_or(0);
    let mut all_agree = true;
    for byte in 0..=255 {
        set_byte(text, at, byte);
        all_agree = agrees_with_reference(alloc, text)? && all_agree;
    }
    set_byte(text, at, original);
    Ok(all_agree)
}

/// Returns whether both readers have the same result with each byte at each offset.
fn changed_bytes_agree(alloc: Global, text: &mut [u8]) -> Result<bool, AllocError> {
    let mut all_agree = true;
    for at in 0..text.len() {
        all_agree = changed_bytes_at_agree(alloc, text, at)? && all_agree;
    }
    Ok(all_agree)
}

/// Copies a text, and returns whether both readers have the same result with any one byte changed.
fn changed_copies_agree(alloc: Global, text: &[u8]) -> Result<bool, AllocError> {
    let mut bytes = text.to_vec(alloc)?;
    let agrees = changed_bytes_agree(alloc, bytes.as_mut_slice());
    drop(bytes);
    agrees
}

/// Returns the first text for which the readers differ when one byte is changed.
fn first_change_mismatch(
    alloc: Global,
    texts: &[&'static str],
) -> Result<Option<&'static str>, AllocError> {
    for text in texts {
        if !changed_copies_agree(alloc, text.as_bytes())? {
            return Ok(Some(*text));
        }
    }
    Ok(None)
}

#[test]
fn changed_texts_are_read_by_the_rules(rt: HostRuntime) {
    assert_eq!(rt;
        first_change_mismatch(rt.alloc(), &TEXTS_TO_CHANGE),
        Ok(None)
    );
}
