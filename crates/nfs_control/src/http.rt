//! Requests for metrics by HTTP/1.1 (RFC 9112), and the responses to them.
ghost use Rattle.std.specs.Prelude.{◌≤◌, length};

use httparse::Status;
use httparse::spans::{EMPTY_HEADER_SPAN, parse_request};
use std::alloc::{AllocError, Global};

// How many fields the head of a request may have.
const MOST_FIELDS: usize = 64;

// Where the metrics are.
const PATH: &[u8] = b"/metrics";

/// What a request asks for.
#[derive(Clone, Copy, Debug, PartialEq, Eq)]
pub(crate) enum Request {
    /// The metrics.
    Metrics,
    /// Something that isn't there.
    NotFound,
    /// Something else than to get it.
    NotAllowed,
    /// Nothing that can be read.
    Malformed,
    /// More than the head of a request may have.
    TooLong,
}

/// What the head of a request asks for; `None` where it has not all come.
pub(crate) fn read_request(bytes: &[u8]) -> Option<Request> {
    let mut fields = [EMPTY_HEADER_SPAN; MOST_FIELDS];
    match parse_request(bytes, &mut fields) {
        Ok(Status::Complete(head)) => { Some(asked_by(head.method.of(bytes), head.path.of(bytes))) }
        Ok(Status::Partial) => None,
        Err(_) => Some(Request::Malformed),
    }
}

// What a method asks for of a target, whose query says nothing.
fn asked_by(method: &[u8], target: &[u8]) -> Request {
    if method != b"GET".as_slice() {
        return Request::NotAllowed;
    }
    match target.split(|byte| *byte == b'?').next() {
        Some(path) if path == PATH => Request::Metrics,
        _ => Request::NotFound,
    }
}

/// A response with the metrics.
pub(crate) fn metrics_response(alloc: Global, metrics: &[u8]) -> Result<Vec<u8>, AllocError> {
    let len = metrics.len();
    let head = format!(in alloc;
        "HTTP/1.1 200 OK\r\nContent-Type: text/plain; version=0.0.4; charset=utf-8\r\nContent-Length: {len}\r\nConnection: close\r\n\r\n"
    )?;
    let mut response = head.into_bytes();
    response.extend_from_slice(metrics)?;
    Ok(response)
}

/// The response to a request that doesn't get the metrics.
pub(crate) fn refusal(alloc: Global, request: Request) -> Result<Vec<u8>, AllocError> {
    let (status, field) = match request {
        Request::Metrics | Request::Malformed => ("400 Bad Request", ""),
        Request::NotFound => ("404 Not Found", ""),
        Request::NotAllowed => ("405 Method Not Allowed", "Allow: GET\r\n"),
        Request::TooLong => ("431 Request Header Fields Too Large", ""),
    };
    let response = format!(in alloc;
        "HTTP/1.1 {status}\r\n{field}Content-Length: 0\r\nConnection: close\r\n\r\n"
    )?;
    Ok(response.into_bytes())
}
