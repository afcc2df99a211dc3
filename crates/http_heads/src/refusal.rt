// The answer to what is no request.
ghost use Rattle.std.specs.Prelude.{◌≡◌};
ghost use Rattle.http_heads.specs.Refusal.{bad_request as due};

/// What is answered where no request can be read.
pub fn bad_request() -> &'static [u8]
    ensures { result.now ≡ due }
{
    b"HTTP/1.1 400 Bad Request\r\nContent-Length: 0\r\nConnection: close\r\n\r\n"
}
