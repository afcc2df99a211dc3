// Laws of requests to backends, as contracts of functions that do nothing.
ghost use Rattle.std.specs.Prelude.{◌≡◌, ◌<◌, ◌^◌, ℕ, List, [], Option, length, All, IfSome, codes, unwrap_or};
ghost use Rattle.http_heads.specs.declared.fields.Field.{Field as One};
ghost use Rattle.http_heads.specs.declared.message.RequestHead.{RequestHead as Request};
ghost use Rattle.http_heads.specs.declared.message.ResponseHead.{ResponseHead as Response};
ghost use Rattle.http_heads.specs.Printed.{IsPlainField, IsRequestShape, IsResponseShape};
ghost use Rattle.freshness.specs.Directives.{values_of};
ghost use Rattle.cache_law.specs.declared.object.Content.{Content as Kept};
ghost use Rattle.backend_request.specs.declared.purpose.Purpose.{Purpose as Aim};
ghost use Rattle.backend_request.specs.Asked.{opened_request, finished_request};
ghost use Rattle.backend_request.specs.Passed.{passed_request};
ghost use Rattle.backend_request.specs.Received.{received};
ghost use Rattle.backend_request.specs.Sent.{IsFramedAsSent, IsOfClass};

/// What a backend is asked reads as it was meant. Where each part of the client's request is of its class, and each field of
/// the stale object, so is each part of the request that vcl_backend_fetch gets; where each part of what that left is, so is
/// each part of what is sent. The head that is sent says that the body ends where the one that is sent does. And the
/// request is for the same site as the client's, whatever its Connection says.
pub fn asked_as_meant()
    ensures opened { (purpose : Aim) (number : ℕ) (stale : Option (List One)) (asked : Request) → number < 2 ^ 64 → IsRequestShape asked
        → All IsPlainField (unwrap_or stale []) → IsRequestShape (opened_request purpose number stale asked) }
    ensures finished { (purpose : Aim) (body : List ℕ) (head : Request) → length body < 2 ^ 64 → IsRequestShape head
        → IsRequestShape (finished_request purpose body head).head }
    ensures frames { (purpose : Aim) (body : List ℕ) (head : Request) → length body < 2 ^ 64 → IsFramedAsSent (finished_request purpose body head) }
    ensures host { (purpose : Aim) (fields : List One) → values_of (codes "host") (passed_request purpose fields) ≡ values_of (codes "host") fields }
{}

/// What is received may be sent on: where each part of the reply is of its class, and what is sent of the stale object, so is
/// each part of the response.
pub fn received_as_read()
    ensures { (asked : Request) (purpose : Aim) (stale : Option Kept) (head : Response) (body : List ℕ) → IfSome stale IsOfClass → IsResponseShape head
        → IfSome (received asked purpose stale head body) (λ response. IsResponseShape response.head) }
{}
