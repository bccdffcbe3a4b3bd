//! Files of many cells, made by counting.

use std::alloc::{AllocError, Global};

/// What a mark in a pattern stands for at a number below a count: `$` the number, `+` the next one round, `^` the number past the count.
fn number_at(mark: u8, count: u32, k: u32) -> Option<u32> {
    match mark {
        b'$' => Some(k),
        b'+' => Some(if k.wrapping_add(1) < count {
            k.wrapping_add(1)
        } else {
            0
        }),
        b'^' => Some(k.wrapping_add(count)),
        _ => None,
    }
}

/// Puts the pattern with a number in place of each mark.
fn push_item(file: &mut Vec<u8>, pattern: &str, count: u32, k: u32) -> Result<(), AllocError> {
    let mut digits = itoa::Buffer::new();
    for byte in pattern.as_bytes() {
        match number_at(*byte, count, k) {
            Some(number) => file.extend_from_slice(digits.format(number).as_bytes())?,
            None => file.push(*byte)?,
        }
    }
    Ok(())
}

/// Puts the pattern for each number below a count, with commas between.
fn push_items(file: &mut Vec<u8>, pattern: &str, count: u32) -> Result<(), AllocError> {
    for k in 0..count {
        if k > 0 {
            file.push(b',')?;
        }
        push_item(file, pattern, count, k)?;
    }
    Ok(())
}

/// Texts and patterns, by turns, that make the file of vertices without parts.
const POINTS: [(&str, &str); 1] = [(
    r#"{"version":1,"scalars":2,"field":{"kind":"whole","parts":[]},"complex":{"kind":"lefschetz","incidences":[],"cells":["#,
    r#"["c$",0]"#,
)];

/// Texts and patterns, by turns, that make the file of a ring of vertices and edges, each vertex in a part with the edge after it.
const RING: [(&str, &str); 4] = [
    (
        r#"{"version":1,"scalars":2,"complex":{"kind":"lefschetz","cells":["#,
        r#"["v$",0]"#,
    ),
    (",", r#"["e$",1]"#),
    (r#"],"incidences":["#, "[^,$,1],[^,+,1]"),
    (r#"]},"field":{"kind":"whole","parts":["#, r#"["v$","e$"]"#),
];

/// The file that texts and patterns make for the numbers below a count.
fn made(alloc: Global, pieces: &[(&str, &str)], count: u32) -> Result<Vec<u8>, AllocError> {
    let mut file = Vec::new(alloc);
    for (text, pattern) in pieces {
        file.extend_from_slice(text.as_bytes())?;
        push_items(&mut file, pattern, count)?;
    }
    file.extend_from_slice(b"]}}")?;
    Ok(file)
}

/// The file of this many vertices without parts.
pub(crate) fn points(alloc: Global, count: u32) -> Result<Vec<u8>, AllocError> {
    made(alloc, &POINTS, count)
}

/// The file of a ring of this many vertices and edges. Each vertex is in one part with the edge after it.
pub(crate) fn ring(alloc: Global, count: u32) -> Result<Vec<u8>, AllocError> {
    made(alloc, &RING, count)
}
