// The commands (varnish-cli(7)).
ghost use Rattle.std.specs.Prelude.{◌≡◌};
ghost use Rattle.cli_console.specs.Commands.{command_named, parameters_of};

/// What a command does.
#[derive(Clone, Copy, Debug, PartialEq, Eq)]
pub enum CommandKind {
    Ping,
    VclInline,
    VclLoad,
    VclUse,
    VclDiscard,
    VclList,
    Ban,
    BanList,
    SetHealth,
    Quit,
}

/// What stands behind a command's name.
#[derive(Clone, Copy, Debug, PartialEq, Eq)]
pub struct Parameters {
    /// The least number of words.
    pub least: usize,
    /// The greatest number of words; None where there may be any number.
    pub most: Option<usize>,
    /// Whether the first word is a VCL's name.
    pub begins_with_vcl: bool,
}

// the command's name and kind, the least and the greatest number of words behind it, and whether the first of them is a
// VCL's name
macro_rules! commands {
    ($column:ident $given:ident) => {
        $column! {
            $given;
            b"ping" Ping 0, Some(1), false;
            b"vcl.inline" VclInline 2, Some(2), true;
            b"vcl.load" VclLoad 2, Some(2), true;
            b"vcl.use" VclUse 1, Some(1), true;
            b"vcl.discard" VclDiscard 1, Some(1), true;
            b"vcl.list" VclList 0, Some(0), false;
            b"ban" Ban 3, None, false;
            b"ban.list" BanList 0, Some(0), false;
            b"backend.set_health" SetHealth 2, Some(2), false;
            b"quit" Quit 0, Some(0), false;
        }
    };
}

macro_rules! kind_by {
    ($given:ident; $($name:literal $kind:ident $least:literal, $most:expr, $begins:literal;)*) => {
        $(if $given == $name.as_slice() { Some(CommandKind::$kind) } else)* { None }
    };
}

macro_rules! parameters_by {
    ($given:ident; $($name:literal $kind:ident $least:literal, $most:expr, $begins:literal;)*) => {
        match $given {
            $(CommandKind::$kind => Parameters { least: $least, most: $most, begins_with_vcl: $begins },)*
        }
    };
}

/// The command of this name.
#[tactic(auto, unfolding(crate::specs::Commands::command_named))]
pub fn command_named(name: &[u8]) -> Option<CommandKind>
    ensures { result ≡ command_named name.now }
{
    commands!(kind_by name)
}

/// What stands behind the name of such a command.
pub fn parameters_of(kind: CommandKind) -> Parameters
    ensures { result ≡ parameters_of kind }
{
    commands!(parameters_by kind)
}
