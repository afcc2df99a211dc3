// Where expressions and statements begin, by the grammar.
ghost use Rattle.std.specs.Prelude.{◌≡◌, List};
ghost use Rattle.vcl_tree.specs.Phrase.{Phrase};
ghost use Rattle.vcl_tree.specs.declared.token.Token.{Token};
ghost use Rattle.vcl_tree.specs.ExpressionGrammar.{IsExpression};
ghost use Rattle.vcl_tree.specs.StatementGrammar.{IsStatement};
ghost use Rattle.vcl_tree.specs.Places.{place_of, first_place};

/// The place of an expression, and of a statement, is that of the first token that is read as it.
pub fn first_tokens()
    ensures expressions { (e : Phrase) (tokens rest : List Token) → IsExpression e tokens rest → place_of e ≡ first_place tokens }
    ensures statements { (s : Phrase) (tokens rest : List Token) → IsStatement s tokens rest → place_of s ≡ first_place tokens }
{}
