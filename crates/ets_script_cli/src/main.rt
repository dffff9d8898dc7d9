//! The program: it answers the script on its standard input.
#![tactic(auto)]

mod waiting;

use crate::waiting::Waiting;
use ets_script::options::Options;
use ets_script::{Streams, answer_with_options, parse_options, refuse};
use std::alloc::Global;
use std::process::ExitCode;
use std::random::RandomSource;
use std::rt::Env;
use std::{env, io};

/// The size in bytes of the block that `keep_freed_memory` takes and frees: 1 MiB. It must exceed glibc's first
/// threshold of 128 KiB, because only a larger block raises that when it is freed.
const KEPT_BLOCK: usize = 1 << 20;

/// Answers the standard input as the command line says, and returns the status. It is 1 after a fault, and 2 for a
/// command line that is refused.
fn main(rt: HostRuntime) -> ExitCode {
    let alloc = rt.alloc();
    keep_freed_memory(alloc);
    let ended = match read_options(&rt, alloc) {
        Ok(Ok(options)) => answer_with_options(
            &rt,
            alloc,
            &options,
            &mut Streams {
                input: Waiting {
                    stream: rt.reader(),
                    clock: &rt,
                },
                output: Waiting {
                    stream: io::writer(&rt),
                    clock: &rt,
                },
            },
            &mut rt.stderr(),
        ),
        Ok(Err(status)) => Ok(status),
        Err(error) => Err(error),
    };
    match ended {
        Ok(status) => ExitCode::from(status),
        Err(error) => {
            // If standard error fails too, only the status is left to tell of the fault.
            let _ = eprintln!(&rt; "error: {error}");
            ExitCode::from(1)
        }
    }
}

/// Reads the options from the command line, and draws a seed for packets if it has none. Returns the program's status
/// if the command line was refused, or asked for help. Then its text was printed.
fn read_options<R: AllocGlobal + Env + Eprint + Print + RandomSource>(
    rt: &R,
    alloc: Global,
) -> io::Result<Result<Options, u8>> {
    let words = match env::args(rt) {
        Ok(words) => words,
        Err(error) if error.kind() == io::ErrorKind::InvalidData => {
            eprintln!(rt; "error: the command line is not UTF-8")?;
            return Ok(Err(2));
        }
        Err(error) => return Err(error),
    };
    let words: Vec<String> = words.collect(alloc)?;
    match parse_options(alloc, words.as_slice()) {
        Ok(options) => Ok(Ok(with_seed(rt, options)?)),
        Err(error) => Ok(Err(refuse(rt, &error)?)),
    }
}

/// Returns the options with a seed from the system, if packets are answered and the options have no seed.
fn with_seed<R: RandomSource>(rt: &R, mut options: Options) -> io::Result<Options> {
    if options.external && options.seed == 0 {
        let mut bytes = [0; 8];
        rt.fill_bytes(&mut bytes)?;
        // The seed 0 would be no seed.
        options.seed = u64::from_be_bytes(bytes).max(1);
    }
    Ok(options)
}

/// Makes glibc's allocator keep freed memory for later blocks: after a block of `KEPT_BLOCK` bytes was freed, it
/// returns only larger blocks to the system. Nothing else changes, even if there is no memory for the block.
fn keep_freed_memory(alloc: Global) {
    if let Ok(block) = Vec::<u8>::with_capacity(alloc, KEPT_BLOCK) {
        drop(block);
    }
}
