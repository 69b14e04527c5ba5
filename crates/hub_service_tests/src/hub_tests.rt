//! A hub before anything happened to it, and a hub with two connections.

/// An empty log of updates, and a feed whose database another connection removes.
pub(crate) const HUBS: &str = r#"
# the log of updates of a hub to which nothing happened
> GET /_db_updates
HTTP/1.1 200 OK, JSON in chunks:
d
{"results":[\n
16
\n],\n"last_seq":"0-0"}\n
last chunk
# a feed that is open where another connection removes its database comes to its end at its place
> PUT /d
HTTP/1.1 201 Created, JSON of 12:
{"ok":true}\n
> PUT /d/a {}
HTTP/1.1 201 Created, JSON of 64:
{"ok":true,"id":"a","rev":"1-dfddbf319adb018d1e5ac3465b83542c"}\n
> remove GET /d/_changes?feed=continuous
50|{"seq":"1-0","id":"a","changes":[{"rev":"1-dfddbf319adb018d1e5ac3465b83542c"}]}\n|
HTTP/1.1 200 OK, JSON of 12:
{"ok":true}\n
1f|{"last_seq":"1-0","pending":0}\n|
"#;
