//! Bytes, as a table has them: what stands between two ` is an end of a line, a tab, a byte in hexadecimal
//! digits, or a part again and again.

use cbl_base::NoMemory;
use std::alloc::Global;
use table_file::Stop;

/// The bytes that a line of a table stands for.
pub(crate) fn bytes_of(alloc: Global, line: &str) -> Result<Vec<u8>, Stop> {
    let mut bytes = Vec::new(alloc);
    for (index, piece) in line.split('`').enumerate() {
        if index % 2 == 0 {
            push_text(&mut bytes, piece)?;
        } else {
            push_meant(&mut bytes, piece)?;
        }
    }
    Ok(bytes)
}

fn push_text(bytes: &mut Vec<u8>, text: &str) -> Result<(), NoMemory> {
    bytes.extend_from_slice(text.as_bytes())?;
    Ok(())
}

/// Adds what a piece between two ` stands for.
fn push_meant(bytes: &mut Vec<u8>, piece: &str) -> Result<(), Stop> {
    match piece.split_once(':') {
        Some((count, part)) => {
            let count = count.parse::<u32>().map_err(|_| Stop::Form)?;
            for _turn in 0..count {
                push_text(bytes, part)?;
            }
        }
        None => bytes.push(byte_of(piece)?)?,
    }
    Ok(())
}

fn byte_of(piece: &str) -> Result<u8, Stop> {
    match piece {
        "n" => Ok(b'\n'),
        "r" => Ok(b'\r'),
        "t" => Ok(b'\t'),
        _ => u8::from_str_radix(piece, 16).map_err(|_| Stop::Form),
    }
}
