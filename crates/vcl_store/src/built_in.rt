// The built-in text.

/// What each built-in subroutine does behind the statements of a text.
pub static BUILT_IN: &[u8] = b"vcl 4.1;

# A request without a host or with another method is answered here; one that may change something, or is a person's
# own, isn't looked up.
sub vcl_recv {
  if (!req.http.Host && req.proto == \"HTTP/1.1\") {
    return (synth(400));
  }
  if (req.method != \"GET\" && req.method != \"HEAD\" && req.method != \"PUT\" && req.method != \"POST\"
      && req.method != \"TRACE\" && req.method != \"OPTIONS\" && req.method != \"DELETE\" && req.method != \"PATCH\") {
    return (synth(501));
  }
  if (req.method != \"GET\" && req.method != \"HEAD\") {
    return (pass);
  }
  if (req.http.Authorization || req.http.Cookie) {
    return (pass);
  }
  return (hash);
}

# The key is the URL and the host that was asked for, or the address that took the request.
sub vcl_hash {
  hash_data(req.url);
  if (req.http.Host) {
    hash_data(req.http.Host);
  } else {
    hash_data(server.ip);
  }
  return (lookup);
}

sub vcl_purge {
  return (synth(200, \"Purged\"));
}

sub vcl_hit {
  return (deliver);
}

sub vcl_miss {
  return (fetch);
}

sub vcl_pass {
  return (fetch);
}

sub vcl_deliver {
  return (deliver);
}

# The body of a made response is its status line's number and reason.
sub vcl_synth {
  set resp.http.Content-Type = \"text/plain\";
  set resp.body = resp.status + \" \" + resp.reason;
  return (deliver);
}

sub vcl_backend_fetch {
  return (fetch);
}

# A response that may not be shared is not: for two minutes requests for it pass.
sub vcl_backend_response {
  if (bereq.uncacheable) {
    return (deliver);
  }
  if (beresp.ttl <= 0s
      || beresp.http.Set-Cookie
      || beresp.http.Surrogate-Control ~ \"(?i)no-store\"
      || (!beresp.http.Surrogate-Control && beresp.http.Cache-Control ~ \"(?i)no-cache|no-store|private\")
      || beresp.http.Vary == \"*\") {
    set beresp.ttl = 120s;
    set beresp.uncacheable = true;
  }
  return (deliver);
}

sub vcl_backend_error {
  set beresp.http.Content-Type = \"text/plain\";
  set beresp.body = beresp.status + \" \" + beresp.reason;
  return (deliver);
}

sub vcl_init {
  return (ok);
}

sub vcl_fini {
  return (ok);
}
";
