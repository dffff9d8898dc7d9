//! Reads a term from its text, and prints it.
use std::alloc::Global;
use term_text::{print_term, read_term};

/// The text that is read and printed: a tuple of an atom, an integer, a list and a quoted atom.
const TEXT: &str = "{key123,456,[1,2,3],'Hello World'}";

/// Reads one text `turns` times. Returns how many bytes it read in all, modulo 2^64, or 0 if memory runs out. Its
/// contract promises safety and an end; the driver compares the number.
#[unsafe(no_mangle)]
pub extern "C" fn bench_layers_read(alloc: Global, turns: u64) -> u64 {
    let mut bytes: u64 = 0;
    for _turn in 0..turns {
        let Ok((_term, taken)) = read_term(alloc, TEXT) else {
            return 0;
        };
        bytes = bytes.wrapping_add(taken as u64);
    }
    bytes
}

/// Reads the text once, and prints its term `turns` times into one `String`. Returns how many bytes it printed in all,
/// modulo 2^64, or 0 if memory runs out. Its contract promises safety and an end; the driver compares the number.
#[unsafe(no_mangle)]
pub extern "C" fn bench_layers_print(alloc: Global, turns: u64) -> u64 {
    let Ok((term, _taken)) = read_term(alloc, TEXT) else {
        return 0;
    };
    let mut out = String::new(alloc);
    let mut bytes: u64 = 0;
    for _turn in 0..turns {
        out.clear();
        if print_term(alloc, &term, &mut out).is_err() {
            return 0;
        }
        bytes = bytes.wrapping_add(out.len() as u64);
    }
    bytes
}
