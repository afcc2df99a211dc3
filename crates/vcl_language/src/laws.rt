// That the tables that names are looked up in are those of the language, as contracts of functions that do nothing.
ghost use Rattle.std.specs.Prelude.{◌≡◌, map};
ghost use Rattle.vcl_language.specs.Tables as table;
ghost use Rattle.vcl_language.specs.Tables.{names, entries};
ghost use Rattle.vcl_language.specs.declared.attributes.TheConstants.{BACKEND_NAMES, BACKEND_KINDS, PROBE_NAMES, PROBE_KINDS};
ghost use Rattle.vcl_language.specs.declared.functions.TheConstants.{FUNCTION_NAMES, FUNCTIONS};
ghost use Rattle.vcl_language.specs.declared.modules.TheConstants.{MAKER_NAMES, MAKERS, MODULE_NAMES};
ghost use Rattle.vcl_language.specs.declared.subroutines.TheConstants.{SUBROUTINE_NAMES, SUBROUTINES};
ghost use Rattle.vcl_language.specs.declared.variables.TheConstants.{VARIABLE_NAMES, VARIABLES, FIELD_NAMES, FIELDS};
ghost use Rattle.vcl_language.specs.declared.words.TheConstants.{WORD_NAMES, WORDS};

/// The words of return, what each takes and where it stands.
pub fn words_are_those()
    ensures names { map (λ name. name.now) WORD_NAMES ≡ names table.words }
    ensures entries { WORDS ≡ entries table.words }
{}

/// The variables, their types and where each is used.
pub fn variables_are_those()
    ensures names { map (λ name. name.now) VARIABLE_NAMES ≡ names table.variables }
    ensures entries { VARIABLES ≡ entries table.variables }
{}

/// The same of fields.
pub fn fields_are_those()
    ensures names { map (λ name. name.now) FIELD_NAMES ≡ names table.fields }
    ensures entries { FIELDS ≡ entries table.fields }
{}

/// The functions, what each takes and gives and where it stands.
pub fn functions_are_those()
    ensures names { map (λ name. name.now) FUNCTION_NAMES ≡ names table.functions }
    ensures entries { FUNCTIONS ≡ entries table.functions }
{}

/// The attributes of a backend.
pub fn backend_attributes_are_those()
    ensures names { map (λ name. name.now) BACKEND_NAMES ≡ names table.backend_attributes }
    ensures entries { BACKEND_KINDS ≡ entries table.backend_attributes }
{}

/// The attributes of a probe.
pub fn probe_attributes_are_those()
    ensures names { map (λ name. name.now) PROBE_NAMES ≡ names table.probe_attributes }
    ensures entries { PROBE_KINDS ≡ entries table.probe_attributes }
{}

/// What makes directors.
pub fn makers_are_those()
    ensures names { map (λ name. name.now) MAKER_NAMES ≡ names table.makers }
    ensures entries { MAKERS ≡ entries table.makers }
{}

/// The built-in subroutines.
pub fn subroutines_are_those()
    ensures names { map (λ name. name.now) SUBROUTINE_NAMES ≡ names table.subroutines }
    ensures entries { SUBROUTINES ≡ entries table.subroutines }
{}

/// The modules that are the language's own.
pub fn modules_are_those()
    ensures { map (λ name. name.now) MODULE_NAMES ≡ table.modules }
{}
