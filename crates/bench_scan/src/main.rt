//! A timing program: counts the groups of eight bytes that hold a byte which needs an escape in a JSON
//! string, by the scan of `oxc_estree` or byte by byte. Without words it does nothing.
#![tactic(auto)]

use oxc_estree::get_escapes_mask;
use std::alloc::{AllocError, Global};
use std::process::ExitCode;
use std::{env, io};

// How the bytes are looked at.
#[derive(Clone, Copy, PartialEq, Eq)]
enum Way {
    Scan,
    Loop,
}

// How often all bytes are looked at.
const ROUNDS: usize = 400;

const BYTES: usize = 1 << 20;

fn way_named(word: &str) -> Option<Way> {
    match word {
        "scan" => Some(Way::Scan),
        "loop" => Some(Way::Loop),
        _ => None,
    }
}

fn needs_escape(byte: u8) -> bool {
    byte < 32 || byte == b'"' || byte == b'\\'
}

fn has_escape(group: &[u8; 8]) -> bool {
    for byte in group {
        if needs_escape(*byte) {
            return true;
        }
    }
    false
}

fn is_marked(way: Way, group: &[u8; 8]) -> bool {
    match way {
        Way::Scan => get_escapes_mask(*group) != 0,
        Way::Loop => has_escape(group),
    }
}

fn count(way: Way, bytes: &[u8]) -> usize {
    let mut found: usize = 0;
    for bytes in bytes.chunks_exact(8) {
        if let Some(group) = bytes.first_chunk::<8>() {
            if is_marked(way, group) {
                found = found.saturating_add(1);
            }
        }
    }
    found
}

fn count_often(alloc: Global, way: Way) -> Result<usize, AllocError> {
    let mut bytes = Vec::with_capacity(alloc, BYTES)?;
    for _ in 0..BYTES {
        bytes.push(b'a')?;
    }
    let mut found: usize = 0;
    for _ in 0..ROUNDS {
        found = found.saturating_add(count(way, bytes.as_slice()));
    }
    Ok(found)
}

// The way that the first word names, if there is one.
fn asked(rt: &HostRuntime) -> io::Result<Option<Way>> {
    let mut words = env::args(rt)?;
    let _program = words.next();
    Ok(match words.next() {
        Some(word) => way_named(word.as_str()),
        None => None,
    })
}

fn main(rt: HostRuntime) -> ExitCode {
    let Ok(Some(way)) = asked(&rt) else {
        return ExitCode::SUCCESS;
    };
    match count_often(rt.alloc(), way) {
        Ok(0) => ExitCode::SUCCESS,
        _ => ExitCode::FAILURE,
    }
}
