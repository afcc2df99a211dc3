// The built-in subroutines, and sets of them in which something may stand.
ghost use Rattle.std.specs.Prelude.{◌≡◌};
ghost use Rattle.vcl_language.specs.Scopes.{has};

use self::Subroutine::{
    BackendError, BackendFetch, BackendResponse, Deliver, Fini, Hash, Hit, Init, Miss, Pass, Purge,
    Recv, Synth,
};

/// The built-in subroutines (the Varnish Reference Manual, "VCL-steps").
#[derive(Clone, Copy, Debug, PartialEq, Eq)]
pub enum Subroutine {
    Recv,
    Hash,
    Purge,
    Hit,
    Miss,
    Pass,
    Deliver,
    Synth,
    BackendFetch,
    BackendResponse,
    BackendError,
    Init,
    Fini,
}

/// Subroutines in which something may stand.
#[derive(Clone, Copy, Debug, PartialEq, Eq)]
pub enum Scope {
    Nowhere,
    Everywhere,
    /// Those of a client's request, from vcl_recv to vcl_synth.
    Client,
    /// Those of a backend's exchange.
    Backend,
    /// Those of a client and those of a backend: all but vcl_init and vcl_fini.
    Traffic,
    Recv,
    RecvHash,
    RecvHitMiss,
    Hash,
    Hit,
    HitDeliver,
    MissPassFetch,
    /// vcl_hit, vcl_deliver, vcl_synth, and those behind a backend's answer.
    Delivering,
    DeliverSynth,
    /// vcl_recv, vcl_purge, vcl_hit, vcl_miss, vcl_pass and vcl_deliver.
    Synthesizing,
    /// These and vcl_synth.
    Restarting,
    Synth,
    SynthBackendError,
    FetchResponse,
    /// vcl_backend_response and vcl_backend_error.
    Response,
    BackendResponse,
    BackendError,
    Init,
    InitFini,
    /// All but vcl_fini.
    AllButFini,
}

/// Whether the subroutine is one of the set.
pub fn has(scope: Scope, subroutine: Subroutine) -> bool
    ensures { result ≡ has scope subroutine }
{
    match scope {
        Scope::Nowhere => false,
        Scope::Everywhere => true,
        Scope::Client => is_client(subroutine),
        Scope::Backend => is_backend(subroutine),
        Scope::Traffic => is_client(subroutine) || is_backend(subroutine),
        Scope::Recv => matches!(subroutine, Recv),
        Scope::RecvHash => matches!(subroutine, Recv | Hash),
        Scope::RecvHitMiss => matches!(subroutine, Recv | Hit | Miss),
        Scope::Hash => matches!(subroutine, Hash),
        Scope::Hit => matches!(subroutine, Hit),
        Scope::HitDeliver => matches!(subroutine, Hit | Deliver),
        Scope::MissPassFetch => matches!(subroutine, Miss | Pass | BackendFetch),
        Scope::Delivering => matches!(
            subroutine,
            Hit | Deliver | Synth | BackendResponse | BackendError
        ),
        Scope::DeliverSynth => matches!(subroutine, Deliver | Synth),
        Scope::Synthesizing => is_synthesizing(subroutine),
        Scope::Restarting => is_synthesizing(subroutine) || matches!(subroutine, Synth),
        Scope::Synth => matches!(subroutine, Synth),
        Scope::SynthBackendError => matches!(subroutine, Synth | BackendError),
        Scope::FetchResponse => matches!(subroutine, BackendFetch | BackendResponse),
        Scope::Response => matches!(subroutine, BackendResponse | BackendError),
        Scope::BackendResponse => matches!(subroutine, BackendResponse),
        Scope::BackendError => matches!(subroutine, BackendError),
        Scope::Init => matches!(subroutine, Init),
        Scope::InitFini => matches!(subroutine, Init | Fini),
        Scope::AllButFini => !matches!(subroutine, Fini),
    }
}

fn is_client(subroutine: Subroutine) -> bool
    ensures { result ≡ has Scope.Client subroutine }
{
    matches!(
        subroutine,
        Recv | Hash | Purge | Hit | Miss | Pass | Deliver | Synth
    )
}

fn is_backend(subroutine: Subroutine) -> bool
    ensures { result ≡ has Scope.Backend subroutine }
{
    matches!(subroutine, BackendFetch | BackendResponse | BackendError)
}

fn is_synthesizing(subroutine: Subroutine) -> bool
    ensures { result ≡ has Scope.Synthesizing subroutine }
{
    matches!(subroutine, Recv | Purge | Hit | Miss | Pass | Deliver)
}
