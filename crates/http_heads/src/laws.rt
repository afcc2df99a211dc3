// Laws of heads, as contracts of functions that do nothing.
ghost use Rattle.std.specs.Prelude.{◌≡◌, ◌++◌, ℕ, List, length, All};
ghost use Rattle.http_heads.specs.Heads.{HasRequest, HasResponse};
ghost use Rattle.http_heads.specs.Printed.{IsWithinLimits, request_text, response_text};
ghost use Rattle.http_heads.specs.Sent.{Change, IsPlainChange, with_fields, with_response_fields};
ghost use Rattle.http_heads.specs.declared.message.RequestHead.{RequestHead as Request};
ghost use Rattle.http_heads.specs.declared.message.ResponseHead.{ResponseHead as Response};

/// Bytes begin with one head of each kind at most, and they begin with it too where more bytes follow.
pub fn one_head()
    ensures request { (bytes : List ℕ) (message other : Request) (count number : ℕ) → HasRequest bytes message count → HasRequest bytes other number
        → (message ≡ other) × (count ≡ number) }
    ensures response { (bytes : List ℕ) (message other : Response) (count number : ℕ) → HasResponse bytes message count → HasResponse bytes other number
        → (message ≡ other) × (count ≡ number) }
    ensures longer_request { (bytes more : List ℕ) (message : Request) (count : ℕ) → HasRequest bytes message count → HasRequest (bytes ++ more) message count }
    ensures longer_response { (bytes more : List ℕ) (message : Response) (count : ℕ) → HasResponse bytes message count → HasResponse (bytes ++ more) message count }
{}

/// A head that was read may be sent on: with its fields changed by `set`, `append` and `unset`, where each name and value
/// that was put in reads as it is printed, its text reads as the changed head, if it is within the limits of a head.
pub fn sent_on()
    ensures request { (bytes : List ℕ) (message : Request) (count : ℕ) (changes : List Change) (more : List ℕ) → HasRequest bytes message count
        → All IsPlainChange changes → IsWithinLimits (with_fields changes message).fields (request_text (with_fields changes message))
        → HasRequest (request_text (with_fields changes message) ++ more) (with_fields changes message) (length (request_text (with_fields changes message))) }
    ensures response { (bytes : List ℕ) (message : Response) (count : ℕ) (changes : List Change) (more : List ℕ) → HasResponse bytes message count
        → All IsPlainChange changes → IsWithinLimits (with_response_fields changes message).fields (response_text (with_response_fields changes message))
        → HasResponse (response_text (with_response_fields changes message) ++ more) (with_response_fields changes message)
        (length (response_text (with_response_fields changes message))) }
{}
