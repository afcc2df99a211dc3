// What VCL sees of requests.
use crate::heads::request_of;
use http_heads::print_request;
use seen_request::{is_of_one_site, see};
use std::alloc::{AllocError, Global};

/// The request as VCL sees it.
pub fn seen_shown(alloc: Global, row: &str) -> Result<String, AllocError> {
    let asked = request_of(alloc, row)?;
    let text = print_request(alloc, &see(alloc, &asked)?)?;
    format!(in alloc; "{text:?}")
}

/// Whether the request says one site at most.
pub fn one_site_shown(alloc: Global, row: &str) -> Result<String, AllocError> {
    let is_readable = is_of_one_site(&request_of(alloc, row)?);
    format!(in alloc; "{is_readable}")
}
