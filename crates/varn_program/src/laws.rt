// Laws of replays, as contracts of functions that do nothing.
ghost use Rattle.std.specs.Prelude.{List};
ghost use Rattle.cache_law.specs.declared.setting.Params.{Params as Limits};
ghost use Rattle.vmod_host.specs.declared.signature.Stored.{Stored as StoredFunction};
ghost use Rattle.varn_program.specs.Laws.{OneReplay};

/// What a replay ends with, its history and its text are one.
pub fn one_replay()
    ensures { (stored : List StoredFunction) (params : Limits) → OneReplay stored params }
{}
