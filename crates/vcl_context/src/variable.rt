// The variables, by what they belong to.

/// A variable, other than a field of a message.
#[derive(Clone, Copy, Debug, PartialEq, Eq)]
pub enum Variable {
    ClientIp,
    ServerIp,
    ClientIdentity,
    Request(RequestVariable),
    Object(ObjectVariable),
    FetchRequest(FetchRequestVariable),
    FetchResponse(FetchResponseVariable),
    Response(ResponseVariable),
    /// The body that is made: `beresp.body`, and `resp.body`.
    Body,
    /// The text of the jar of cookies, which no name stands for.
    Jar,
}

/// What is behind `req.`.
#[derive(Clone, Copy, Debug, PartialEq, Eq)]
pub enum RequestVariable {
    Method,
    Url,
    Proto,
    Restarts,
    Ttl,
    Grace,
    BackendHint,
    HashAlwaysMiss,
    HashIgnoreBusy,
    HashIgnoreVary,
    IsHitmiss,
    IsHitpass,
}

/// What is behind `obj.`.
#[derive(Clone, Copy, Debug, PartialEq, Eq)]
pub enum ObjectVariable {
    Status,
    Reason,
    Hits,
    Uncacheable,
    Ttl,
    Age,
    Grace,
    Keep,
}

/// What is behind `bereq.`.
#[derive(Clone, Copy, Debug, PartialEq, Eq)]
pub enum FetchRequestVariable {
    Method,
    Url,
    Proto,
    Backend,
    Retries,
    Uncacheable,
    IsBgfetch,
}

/// What is behind `beresp.`.
#[derive(Clone, Copy, Debug, PartialEq, Eq)]
pub enum FetchResponseVariable {
    Status,
    Reason,
    Proto,
    Ttl,
    Grace,
    Keep,
    Uncacheable,
    Age,
    Was304,
    Backend,
}

/// What is behind `resp.`.
#[derive(Clone, Copy, Debug, PartialEq, Eq)]
pub enum ResponseVariable {
    Status,
    Reason,
    Proto,
}

/// A message whose fields are variables.
#[derive(Clone, Copy, Debug, PartialEq, Eq)]
pub enum Message {
    Request,
    Object,
    FetchRequest,
    FetchResponse,
    Response,
}
