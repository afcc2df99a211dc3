// Laws of responses, as contracts of functions that do nothing.
ghost use Rattle.std.specs.Prelude.{◌≡◌, ◌<◌, ◌^◌, ℕ, List, length, All, IfSome};
ghost use Rattle.httparse.specs.Grammar.{AllPass, is_value_byte};
ghost use Rattle.http_heads.specs.declared.fields.Field.{Field as One};
ghost use Rattle.http_heads.specs.declared.message.RequestHead.{RequestHead as Request};
ghost use Rattle.http_heads.specs.declared.message.ResponseHead.{ResponseHead as Response};
ghost use Rattle.http_heads.specs.Printed.{IsPlainField, IsResponseShape};
ghost use Rattle.delivery.specs.declared.finishing.ResponseBody.{ResponseBody as Left};
ghost use Rattle.delivery.specs.declared.opening.Numbers.{Numbers as Carried};
ghost use Rattle.delivery.specs.Opened.{opened, opened_synthetic};
ghost use Rattle.delivery.specs.Finished.{finished};
ghost use Rattle.delivery.specs.Sent.{IsFramedAsSent};

/// What VCL begins with may be sent: where the status, the reason and the fields are of their classes, so is each part of it.
pub fn opened_as_read()
    ensures delivery { (status : ℕ) (reason : List ℕ) (fields : List One) (numbers : Carried) (age : ℕ) → status < 1000 → AllPass is_value_byte reason
        → All IsPlainField fields → numbers.round < 2 ^ 64 → IfSome numbers.object (λ n. n < 2 ^ 64) → age < 2 ^ 64
        → IsResponseShape (opened status reason fields numbers age) }
    ensures synthetic { (status : ℕ) (reason : List ℕ) (round : ℕ) → status < 1000 → AllPass is_value_byte reason → round < 2 ^ 64
        → IsResponseShape (opened_synthetic status reason round) }
{}

/// What `finish` gives reads as it was meant. Where each part of the response that VCL left is of its class, so is each part
/// of what is sent: `print_delivery` says that the client reads that head then. Where the status is one of a final
/// response, the head and the client's own request say that the body ends where the one that was sent does.
pub fn sent_as_meant()
    ensures shape { (asked : Request) (conditions : List One) (head : Response) (body : Left) → length body.text < 2 ^ 64 → IsResponseShape head
        → IsResponseShape (finished asked conditions head body).head }
    ensures frames { (asked : Request) (conditions : List One) (head : Response) (body : Left) → length body.text < 2 ^ 64 → 199 < head.status
        → IsFramedAsSent asked (finished asked conditions head body) }
{}
