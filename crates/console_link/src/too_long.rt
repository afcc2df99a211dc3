// The answer to a line over its limit.
ghost use Rattle.std.specs.Prelude.{◌≡◌};
ghost use Rattle.console_link.specs.Talks.{too_long};

/// What is answered to a line over its limit. It takes no memory.
pub fn too_long() -> &'static [u8]
    ensures { result.now ≡ too_long }
{
    b"100 12      \nSyntax error\n"
}
