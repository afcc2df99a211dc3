// Heads as rows write them.
use http_heads::{Fields, HeadError, RequestHead, ResponseHead, read_request, read_response};
use std::alloc::{AllocError, Global};
use units::{Text, quoted};

// The quoted texts of a row, with bars between, each so many times as the number before it says.
fn bytes_of(alloc: Global, row: &str) -> Result<Vec<u8>, AllocError> {
    let mut bytes = Vec::new(alloc);
    for part in row.split('|') {
        let (number, _) = part.split_once('"').unwrap_or(("", ""));
        if let Some((piece, _)) = quoted(alloc, part.as_bytes(), number.len())? {
            for _ in 0..number.parse::<u32>().unwrap_or(1) {
                bytes.extend_from_slice(piece.bytes())?;
            }
        }
    }
    Ok(bytes)
}

/// How the bytes are read as a request's head.
pub fn request_shown(alloc: Global, row: &str) -> Result<String, AllocError> {
    let bytes = bytes_of(alloc, row)?;
    let found = read_request(alloc, bytes.as_slice());
    let read = found.map(|head| head.map(|(_, count)| count));
    shown(alloc, read, bytes.len())
}

/// How the bytes are read as a response's head.
pub fn response_shown(alloc: Global, row: &str) -> Result<String, AllocError> {
    let bytes = bytes_of(alloc, row)?;
    let found = read_response(alloc, bytes.as_slice());
    let read = found.map(|head| head.map(|(_, count)| count));
    shown(alloc, read, bytes.len())
}

fn shown(
    alloc: Global,
    read: Result<Option<usize>, HeadError>,
    all: usize,
) -> Result<String, AllocError> {
    match read {
        Ok(Some(count)) if count == all => format!(in alloc; "whole"),
        Ok(Some(count)) => format!(in alloc; "{count} of {all} bytes"),
        Ok(None) => format!(in alloc; "unfinished"),
        Err(error) => format!(in alloc; "{error:?}"),
    }
}

/// The request. An error where the row has none.
pub fn request_of(alloc: Global, row: &str) -> Result<RequestHead, AllocError> {
    let bytes = bytes_of(alloc, row)?;
    match read_request(alloc, bytes.as_slice()) {
        Ok(Some((head, _))) => Ok(head),
        _ => Err(AllocError),
    }
}

/// The response's head, and the body behind it. An error where the row has none.
pub fn response_of(alloc: Global, row: &str) -> Result<(ResponseHead, Text), AllocError> {
    let bytes = bytes_of(alloc, row)?;
    let Ok(Some((head, count))) = read_response(alloc, bytes.as_slice()) else {
        return Err(AllocError);
    };
    let body = bytes.as_slice().get(count..).unwrap_or(&[]);
    Ok((head, Text::of(alloc, body)?))
}

/// The fields of these lines, between which semicolons stand. An error where no head can have them.
pub fn lines_of(alloc: Global, lines: &str) -> Result<Fields, AllocError> {
    let mut head = b"HTTP/1.1 200 OK\r\n".to_vec(alloc)?;
    for line in lines.split(';') {
        if !line.is_empty() {
            head.extend_from_slice(line.as_bytes())?;
            head.extend_from_slice(b"\r\n")?;
        }
    }
    head.extend_from_slice(b"\r\n")?;
    match read_response(alloc, head.as_slice()) {
        Ok(Some((response, _))) => Ok(response.fields),
        _ => Err(AllocError),
    }
}
