// Laws of the answers of readers, as contracts of functions that do nothing.
ghost use Rattle.std.specs.Prelude.{◌≡◌, ◌≢◌, ◌⊎◌, ◌+◌, ◌<◌, ◌^◌, ◌↔◌, ◌++◌, ℕ, List, [], length, codes};
ghost use Rattle.http_bodies.specs.Bodies.{IsBody, BeginsWith};
ghost use Rattle.http_bodies.specs.Framings.{Frames};
ghost use Rattle.http_bodies.specs.declared.framing.Kind.{Kind};
ghost use Rattle.http_heads.specs.declared.fields.Field.{Field};
ghost use Rattle.http_bodies.specs.Reading.{ReaderState, Follows};
ghost use Rattle.http_bodies.specs.Answers.{HasEndWithin, Takes, Refuses};
ghost use Rattle.http_bodies.specs.declared.framing.BodyError.{BodyError as RefusalKind};
ghost use Rattle.http_bodies.specs.declared.framing.Framing.{Framing};
ghost use Rattle.http_bodies.specs.declared.framing.Framing.TheVariants.{Nothing, Length, UntilEnd};
ghost use Rattle.http_bodies.specs.declared.framing.Kind.TheVariants.{Request, Reply};
ghost use Rattle.http_bodies.specs.Framings.{Says};
ghost use Rattle.http_bodies.specs.Framed.{unframed, of_length};
ghost use Rattle.http_heads.specs.Fields.{replaced};

/// A piece has one answer at most: so many bytes are taken, or it is refused in one way.
pub fn one_answer()
    ensures one_count { (s : ReaderState) (piece : List ℕ) (m n : ℕ) → Takes s piece m → Takes s piece n → m ≡ n }
    ensures one_refusal { (s : ReaderState) (piece : List ℕ) (d e : RefusalKind) → Refuses s piece d → Refuses s piece e → d ≡ e }
    ensures not_both { (s : ReaderState) (piece : List ℕ) (n : ℕ) (e : RefusalKind) → Takes s piece n → ¬ (Refuses s piece e) }
{}

/// Behind a piece that was taken the next has the answer that both have as one, and leaves what both
/// leave.
pub fn any_cut()
    ensures joined { (first_state second_state third_state : ReaderState) (first second : List ℕ) → Follows first_state second_state first
        → Follows second_state third_state second → Follows first_state third_state (first ++ second) }
    ensures taken { (old new : ReaderState) (first second : List ℕ) (n : ℕ) → Follows old new first
        → Takes new second n ↔ Takes old (first ++ second) (length first + n) }
    ensures refused { (old new : ReaderState) (first second : List ℕ) (e : RefusalKind) → Follows old new first → HasEndWithin new []
        → Refuses new second e ↔ Refuses old (first ++ second) e }
{}

/// A body goes on to no longer body, unless it goes on to the end of the connection.
pub fn one_end()
    ensures { (framing : Framing) (text more body other : List ℕ) → IsBody framing text body → IsBody framing (text ++ more) other
        → (more ≡ []) ⊎ (framing ≡ UntilEnd) }
{}

/// A text begins with one body at most, with one rest behind it; and it begins with it too where more stands behind it, unless
/// the body goes on to the end of the connection.
pub fn one_body()
    ensures same { (framing : Framing) (text body rest other rests : List ℕ) → BeginsWith framing text body rest
        → BeginsWith framing text other rests → (body ≡ other) × (rest ≡ rests) }
    ensures longer { (framing : Framing) (text body rest more : List ℕ) → framing ≢ UntilEnd → BeginsWith framing text body rest
        → BeginsWith framing (text ++ more) body (rest ++ more) }
{}

/// The fields of a message frame its body in one way at most.
pub fn one_framing()
    ensures { (kind : Kind) (fields : List Field) (a b : Framing) → Frames kind fields a → Frames kind fields b → a ≡ b }
{}

/// Fields say where a body ends as they were made to: nowhere else than at once, or behind the length that was put in, also
/// where Connection is set then.
pub fn framed_as_said()
    ensures nothing { (fields : List Field) → Says Request (unframed fields) Nothing }
    ensures request { (fields : List Field) (len : ℕ) → len < 2 ^ 64 → Says Request (of_length len fields) (Length len) }
    ensures reply { (fields : List Field) (len : ℕ) → len < 2 ^ 64 → Says Reply (of_length len fields) (Length len) }
    ensures closing { (fields : List Field) (len : ℕ) → len < 2 ^ 64
        → Says Reply (replaced (codes "Connection") (codes "close") (of_length len fields)) (Length len) }
{}
