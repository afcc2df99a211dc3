// A law of the built-in text, as the contract of a function that does nothing.
ghost use Rattle.vcl_store.specs.BuiltIn.{BuiltInIsRead};

/// The built-in text has a tree, which is that of its subroutines in `specs/BuiltIn.antt`.
pub fn built_in_is_read()
    ensures { BuiltInIsRead }
{}
