//! Texts that need no memory.

ghost use Rattle.std.specs.Prelude.{◌≡◌};
ghost use Rattle.hub_http.specs.Texts.{head_text, chunked_line};

/// The head of a feed's reply, which is sent in chunks (RFC 9112, section 7.1). It costs nothing.
pub fn stream_head_text(close: bool) -> &'static str
    ensures { result.now ≡ head_text 200 chunked_line close }
{
    if close {
        "HTTP/1.1 200 OK\r\nContent-Type: application/json\r\n\
        Transfer-Encoding: chunked\r\nConnection: close\r\n\r\n"
    } else {
        "HTTP/1.1 200 OK\r\nContent-Type: application/json\r\nTransfer-Encoding: chunked\r\n\r\n"
    }
}
