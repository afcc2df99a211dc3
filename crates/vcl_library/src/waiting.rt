// How long backends are waited for, and how many connections they are given.
ghost use Rattle.std.specs.Prelude.{◌≡◌};
ghost use Rattle.vcl_library.specs.Waiting.{waiting_at, waiting_in, waiting_with};

use units::Text;
use vcl_attributes::Limits;
use vcl_runner::Executable;
use wire::DialLimits;

fn waiting_with(limits: &Limits) -> DialLimits
    ensures { result ≡ waiting_with limits.now }
{
    DialLimits {
        connecting: limits.connect_timeout.unsigned_abs(),
        first_byte: limits.first_byte_timeout.unsigned_abs(),
        between_bytes: limits.between_bytes_timeout.unsigned_abs(),
        whole: None,
        most_open: limits.max_connections,
    }
}

// As the first limits of this name say it.
fn waiting_in(wanted: &[u8], limits: &[Limits]) -> DialLimits
    ensures { result ≡ waiting_in wanted.now limits.entry.now }
{
    for one in limits {
        if one.backend.bytes() == wanted {
            return waiting_with(one);
        }
    }
    DialLimits {
        connecting: 3500,
        first_byte: 60_000,
        between_bytes: 60_000,
        whole: None,
        most_open: None,
    }
}

/// How long the backend of this name of the program is waited for, by its `.connect_timeout`, `.first_byte_timeout` and
/// `.between_bytes_timeout`, and how many connections it is given, by its `.max_connections`. A reply as a whole has no limit.
pub fn waiting_at(program: &Executable, name: &Text) -> DialLimits
    ensures { result ≡ waiting_at program.now.compiled.program.tree.items name.now }
{
    waiting_in(name.bytes(), program.compiled.program.limits())
}
