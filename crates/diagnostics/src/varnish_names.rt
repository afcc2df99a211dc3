// What to write in place of names that Varnish 7 has and that aren't here.

// Names, each of which may end in `*` for all that begin so, and what to write: the rows of docs/VCL.md, which
// tools/vcl_advice.py writes here.
const ADVICE: &str = "local.ip local.endpoint local.socket: server.ip, which is 127.0.0.1
remote.ip: client.ip: both are the address of whoever made the connection
server.hostname server.identity: the name as a string in the text
now req.time req_top.time bereq.time beresp.time obj.time resp.time: ages and lifetimes: obj.age, obj.ttl, beresp.age
req.xid bereq.xid sess.xid: resp.http.X-Varnish in vcl_deliver and vcl_synth, bereq.http.X-Varnish
req.hash bereq.hash: a field that vcl_recv sets and vcl_hash reads
req.esi req.esi_level req_top.method req_top.url req_top.proto req_top.http.* beresp.do_esi resp.do_esi obj.can_esi: pages that are whole; parts that the browser fetches
req.can_gzip beresp.do_gzip beresp.do_gunzip req.filters bereq.filters beresp.filters resp.filters: bodies are kept and sent as the backend made them; let it compress, with Vary: Accept-Encoding
beresp.do_stream beresp.transit_buffer resp.is_streaming: nothing: a reply is sent once it is there as a whole
req.storage beresp.storage beresp.storage_hint obj.storage storage.*: nothing: there is one store, of the size of --room
bereq.body: nothing: a body goes to the backend with pass alone, and has at most 1,048,576 bytes
bereq.is_hitmiss bereq.is_hitpass: a field that vcl_miss or vcl_pass sets by req.is_hitmiss, req.is_hitpass
bereq.connect_timeout bereq.first_byte_timeout bereq.between_bytes_timeout bereq.task_deadline: nothing: the times are those of docs/OPERATING.md
beresp.backend.name beresp.backend.ip: beresp.backend, whose text is its name
obj.proto: resp.proto, beresp.proto
sess.timeout_idle sess.timeout_linger sess.send_timeout sess.idle_send_timeout: nothing: the times are those of docs/OPERATING.md
req.trace bereq.trace req.transport: nothing
vcl_pipe: return (pass), and no vcl_pipe; what needs a pipe, as WebSocket, goes round the cache (contrib/nginx.conf)
vcl_req_host vcl_req_method vcl_req_authorization vcl_req_cookie vcl_builtin_recv vcl_beresp_stale vcl_beresp_cookie vcl_beresp_control vcl_beresp_vary vcl_beresp_hitmiss: the statement in vcl_recv or vcl_backend_response, and return (hash) or return (deliver) where the built-in text should not go on
std.healthy: a restart where a fetch failed, as in examples/vcl/grace.vcl
std.ban std.ban_error: ban(STRING); a text that is no ban bans nothing, and nobody is told
std.log std.syslog std.timestamp: a field of the response
std.strstr: S ~ \"T\" with a pattern
std.querysort: regsuball that takes out the arguments that don't matter
std.cache_req_body std.late_100_continue: nothing: a request's body is read whole before vcl_recv
std.collect: nothing: req.http.NAME is the first field of that name, and all go on to the backend
std.duration std.bytes std.real std.real2integer std.real2time std.time std.time2integer std.time2real std.round std.random std.ip std.port std.fnmatch std.fileread std.file_exists std.blobread std.getenv std.set_ip_tos std.rollback std.strftime std: nothing: std has tolower, toupper, strlen and integer
directors.shard directors.shard_param directors.lookup .remove_backend .set_backend: a director of kind hash or fallback; another VCL with other members
purge.hard purge.soft: return (purge); for a soft one set beresp.http.xkey = bereq.url; and xkey.softpurge(req.url)
cookie.filter_re cookie.keep_re cookie.get_re cookie.format_date: cookie.filter and cookie.keep with the names; regsub and regsuball on cookie.get_string()
header header.*: regsub and regsuball; of several fields of one name only the first is read
blob unix proxy vtc h2 var str vsthrottle saintmode bodyaccess dynamic goto digest geoip2 querystring re2: nothing: the modules are std, cookie, directors and xkey
.path .proxy_header .via .preamble .authority .wait_limit .wait_timeout .ssl: .host and .port, or both as .host = \"ADDRESS:PORT\"; a backend is reached by TCP, without TLS
.request .expect_close: .url";

// Whether this word of a row stands for the name.
fn stands_for(word: &str, name: &str) -> bool {
    match word.strip_suffix('*') {
        Some(front) => name.starts_with(front),
        None => word == name,
    }
}

// What to write in place of the name, if the row has it.
fn advice_of(row: &'static str, name: &str) -> Option<&'static str> {
    let (words, advice) = row.split_once(": ")?;
    if words.split(' ').any(|word| stands_for(word, name)) {
        Some(advice)
    } else {
        None
    }
}

/// What to write in place of a name of Varnish 7's, if docs/VCL.md has it. A backend's and a probe's attribute has its dot.
pub(crate) fn advice_on(name: &str) -> Option<&'static str> {
    ADVICE.lines().find_map(|row| advice_of(row, name))
}
