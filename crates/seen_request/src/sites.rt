// For which site a request is.
ghost use Rattle.std.specs.Prelude.{◌≡◌};
ghost use Rattle.seen_request.specs.Sites.{is_of_one_site as of_one_site};

use crate::targets::lacks_authority;
use http_heads::RequestHead;

/// Whether the request says one site at most: it has one Host field at most, and where its target is absolute, that has an
/// authority. Another request can't be read.
pub fn is_of_one_site(head: &RequestHead) -> bool
    ensures { result ≡ of_one_site head.now }
{
    head.fields.count(b"host") < 2 && !lacks_authority(head.url.bytes())
}
