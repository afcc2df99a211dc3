// What the stored functions that the program has answer.
ghost use Rattle.std.specs.Prelude.{map, IfOk};
ghost use Rattle.vcl_values.specs.Values.{kind_of};
ghost use Rattle.vcl_library.specs.Functions.{IsAnswer, IsPassed};

use std::alloc::{AllocError, Global};
use vcl_values::Value;
use vmod_cookie::{clean, delete, filter, get, get_string, isset, keep, parse, set};
use vmod_host::{
    CLEAN, DELETE, FILTER, GET, GET_STRING, INTEGER, ISSET, KEEP, PARSE, SET, STRLEN, TOLOWER,
    TOUPPER, integer, strlen, tolower, toupper,
};

/// What the function of this tag answers on arguments of the types that it takes.
pub fn std_answer(tag: u32, alloc: Global, arguments: &[Value]) -> Result<Value, AllocError>
    requires { IsPassed tag (map kind_of arguments.now) }
    ensures { IfOk result (IsAnswer tag arguments.now) }
{
    match tag {
        TOLOWER => tolower(alloc, arguments),
        TOUPPER => toupper(alloc, arguments),
        INTEGER => integer(alloc, arguments),
        STRLEN => strlen(alloc, arguments),
        PARSE => parse(alloc, arguments),
        SET => set(alloc, arguments),
        GET => get(alloc, arguments),
        ISSET => isset(alloc, arguments),
        DELETE => delete(alloc, arguments),
        KEEP => keep(alloc, arguments),
        FILTER => filter(alloc, arguments),
        CLEAN => clean(alloc, arguments),
        GET_STRING => get_string(alloc, arguments),
        _ => unreachable!(),
    }
}
