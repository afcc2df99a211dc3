// Laws of the lines in a console's bytes, as contracts of functions that do nothing.
ghost use Rattle.std.specs.Prelude.{◌≡◌, ◌++◌, ℕ, List};
ghost use Rattle.std.specs.declared.option.Option.{Option as Perhaps};
ghost use Rattle.world.specs.declared.file.File.{File};
ghost use Rattle.vmod_host.specs.declared.signature.Stored.{Stored};
ghost use Rattle.cli_console.specs.Lines.{IsCommand};
ghost use Rattle.cli_console.specs.declared.command.Command.TheVariants.{Quit};
ghost use Rattle.console_link.specs.Talks.{Stand, IsAnswered};
ghost use Rattle.console_link.specs.declared.talk.ConsoleLine.{ConsoleLine};
ghost use Rattle.console_link.specs.Lines.{BeginsLine, BeginsLines, IsBegun, IsTooLong};

/// Bytes have one reading as lines. They begin with one line at most; lines at their front stand there too where more bytes follow,
/// wherever the bytes were cut; what is over a line's limit stays so; and of a whole line, what is over the limit and what is at most
/// the beginning of a line only one stands there.
pub fn one_line()
    ensures one { (input line other rest left : List ℕ) → BeginsLine input line rest → BeginsLine input other left → (line ≡ other) × (rest ≡ left) }
    ensures longer { (input more : List ℕ) (lines : List (List ℕ)) (rest : List ℕ) → BeginsLines input lines rest → BeginsLines (input ++ more) lines (rest ++ more) }
    ensures joined { (input : List ℕ) (lines others : List (List ℕ)) (mid rest : List ℕ) → BeginsLines input lines mid → BeginsLines mid others rest
        → BeginsLines input (lines ++ others) rest }
    ensures too_long { (input more : List ℕ) → IsTooLong input → IsTooLong (input ++ more) }
    ensures not_long { (input line rest : List ℕ) → BeginsLine input line rest → IsTooLong input → ⊥ }
    ensures not_begun { (input line rest : List ℕ) → BeginsLine input line rest → IsBegun input → ⊥ }
{}

/// A line that was answered and after which a talk goes on isn't `quit`. So a talk ends at the first line that is.
pub fn quit_ends()
    ensures { (stored : List Stored) (files : Perhaps (List File)) (x y : Stand) (line : ConsoleLine) (text : List ℕ) → IsAnswered stored files x y line
        → IsCommand stored line.line (Quit text) → ⊥ }
{}
