//! Reads lines on its standard input. Each is a term in the External Term Format, as hexadecimal digits. Writes each
//! term again in this form, or the fault. Each term is also sent to a writer, which must get the same bytes.
//! `.ci/external` compares the lines with Erlang's.
#![tactic(auto)]

ghost use Rattle.std.specs.Prelude.{◌<◌};

use ets_term::Term;
use external_term::{ExternalFault, read_external, write_external, write_external_to};
use std::alloc::{AllocError, Global};
use std::io::{self, Read, Write};

/// Reads the standard input to its end, and writes an answer to each line on the standard output.
fn main(rt: HostRuntime) -> io::Result<()> {
    let alloc = rt.alloc();
    let mut input = Vec::new(alloc);
    rt.reader().read_to_end(&mut input)?;
    let mut output = Vec::new(alloc);
    reply_to_lines(alloc, input.as_slice(), &mut output)?;
    io::writer(&rt).write_all(output.as_slice())
}

/// Appends an answer for each line of the input that ends with a newline.
fn reply_to_lines(alloc: Global, input: &[u8], output: &mut Vec<u8>) -> Result<(), AllocError> {
    let mut rest = input;
    // An input has at most as many lines as bytes, which bounds the loop.
    for _ in 0..input.len() {
        let Some(end) = rest.iter().position(|b| *b == b'\n') else {
            return Ok(());
        };
        reply_to_line(alloc, &rest[..end], output)?;
        output.push(b'\n')?;
        rest = &rest[end + 1..];
    }
    Ok(())
}

/// Appends the answer to one line of hexadecimal digits.
fn reply_to_line(alloc: Global, line: &[u8], output: &mut Vec<u8>) -> Result<(), AllocError> {
    let bytes = bytes_of(alloc, line)?;
    reply_to(alloc, bytes.as_slice(), output)
}

/// Appends the answer to the bytes of a term: the term, written again, or the fault, such as `UnsupportedTag(1)`. Bytes
/// after the term are ignored.
fn reply_to(alloc: Global, bytes: &[u8], output: &mut Vec<u8>) -> Result<(), AllocError> {
    match read_external(alloc, bytes) {
        Ok((term, _size)) => {
            let outcome = append_term(alloc, &term, output);
            drop(term);
            outcome
        }
        Err(ExternalFault::Memory) => Err(AllocError),
        Err(fault) => append_fault(alloc, fault, output),
    }
}

/// Writes a term into a buffer, and also sends it to a writer. Appends the bytes of the buffer in digits, or `Differ`
/// if the writer gets other bytes.
fn append_term(alloc: Global, term: &Term, output: &mut Vec<u8>) -> Result<(), AllocError> {
    let mut written = Vec::new(alloc);
    let mut sent = Vec::new(alloc);
    if write_external(term, &mut written).is_err() {
        return Err(AllocError);
    }
    if write_external_to(alloc, term, &mut sent).is_err() {
        return Err(AllocError);
    }
    if sent.as_slice() != written.as_slice() {
        return output.extend_from_slice(b"Differ");
    }
    append_digits(written.as_slice(), output)
}

/// Appends the name of a fault, as `Debug` prints it.
fn append_fault(
    alloc: Global,
    fault: ExternalFault,
    output: &mut Vec<u8>,
) -> Result<(), AllocError> {
    let text = format!(in alloc; "{fault:?}")?;
    output.extend_from_slice(text.as_bytes())
}

/// Returns the bytes that a line of hexadecimal digits spells, two digits each. A single last digit is ignored.
fn bytes_of(alloc: Global, line: &[u8]) -> Result<Vec<u8>, AllocError> {
    let mut bytes = Vec::new(alloc);
    for pair in line.chunks(2) {
        if let [high, low] = pair {
            bytes.push(hex_value(*high) * 16 + hex_value(*low))?;
        }
    }
    Ok(bytes)
}

/// Returns the value of a hexadecimal digit in upper case, and 0 for any other byte.
fn hex_value(digit: u8) -> u8
    ensures { result < 16 }
{
    match digit {
        b'0'..=b'9' => digit - b'0',
        b'A'..=b'F' => digit - b'A' + 10,
        _ => 0,
    }
}

/// Appends two hexadecimal digits for each byte, in upper case.
fn append_digits(bytes: &[u8], output: &mut Vec<u8>) -> Result<(), AllocError> {
    for byte in bytes {
        output.push(hex_digit(*byte / 16))?;
        output.push(hex_digit(*byte % 16))?;
    }
    Ok(())
}

/// Returns the hexadecimal digit of a value below 16.
fn hex_digit(value: u8) -> u8 {
    if value < 10 {
        value.wrapping_add(b'0')
    } else {
        value.wrapping_add(b'A' - 10)
    }
}
