//! Bytes that are offered as they come, and the requests that they spell.
ghost use Rattle.std.specs.Prelude.{◌≡◌, ◌++◌, [], true, false, OnOk, OnErr};
ghost use Rattle.httparse.specs.Grammar.{RequestHead};
ghost use Rattle.hub_http.specs.Boxes.{arrived_bytes, is_over};
ghost use Rattle.hub_http.specs.Looking.{IsHeadAt};
ghost use Rattle.hub_http.specs.Offers.{LeavesSoFar};

use crate::fault::HttpFault;
use crate::head::{HEAD_LIMIT, Head, look};
use crate::next::Next;
use crate::pending::Pending;
use std::alloc::{AllocError, Global};

/// The bytes of a connection that came and that no request took yet. They are offered as they come, in any
/// cut. They give requests one after the other, as on a persistent connection (RFC 9112, section 9.3.2). No
/// call waits: a request that is not whole has the outcome `NotYet`.
#[derive(Drop)]
pub struct Inbox {
    alloc: Global,
    pending: Pending,
    /// Whether no more bytes come.
    is_over: bool,
}

/// The request of a head that stands at the front of the bytes, if all of its body came.
fn take_request(
    alloc: Global,
    pending: &mut Pending,
    head: Head,
    is_over: bool,
) -> Result<Next, HttpFault>
    requires { (h : RequestHead) × IsHeadAt pending.old head h }
    ensures { LeavesSoFar is_over pending.old result pending.new }
{
    let body_len = head.length.unwrap_or(0) as usize;
    let wanted = head.len + body_len;
    if pending.len() < wanted {
        if is_over {
            return Err(HttpFault::Ended);
        }
        pending.make_room(wanted)?;
        return Ok(Next::NotYet);
    }
    let body = pending.take_body(alloc, head.len, body_len)?;
    pending.release(alloc, 0);
    Ok(Next::Whole(head.with_body(body)))
}

impl Inbox {
    /// An inbox to which no byte came.
    pub fn new(alloc: Global) -> Inbox
        ensures empty { arrived_bytes result ≡ [] }
        ensures open { is_over result ≡ false }
    {
        Inbox {
            alloc,
            pending: Pending::new(Vec::new(alloc)),
            is_over: false,
        }
    }

    /// Whether no more bytes come.
    pub fn is_over(&self) -> bool
        ensures { result ≡ is_over self.now }
    {
        self.is_over
    }

    /// Offers the bytes that came next. An error changes nothing: the same bytes may be offered again.
    pub fn offer(&mut self, bytes: &[u8]) -> Result<(), AllocError>
        requires { is_over self.old ≡ false }
        ensures ok { OnOk result (arrived_bytes self.new ≡ arrived_bytes self.old ++ bytes.now) }
        ensures err { OnErr result (arrived_bytes self.new ≡ arrived_bytes self.old) }
        ensures open { is_over self.new ≡ false }
    {
        self.pending.put(bytes)
    }

    /// Says that no more bytes come.
    pub fn end(&mut self)
        ensures over { is_over self.new ≡ true }
        ensures same { arrived_bytes self.new ≡ arrived_bytes self.old }
    {
        self.is_over = true;
    }

    /// The next request, if all of its bytes came. An error changes nothing. The same call made again has the
    /// same answer, or goes on after it was out of memory.
    ///
    /// Cost: each call parses the head from its front, over at most all bytes that came. A body of more than
    /// 4,096 bytes is moved and not copied. Room for a body is made as its bytes come, whatever
    /// `Content-Length` says. At first it is made for 65,536 bytes, then for as many again as came, and never
    /// for more than the request has.
    pub fn next(&mut self) -> Result<Next, HttpFault>
        ensures told { LeavesSoFar (is_over self.old) (arrived_bytes self.old) result (arrived_bytes self.new) }
        ensures over { is_over self.new ≡ is_over self.old }
    {
        if self.pending.is_empty() {
            return if self.is_over {
                Ok(Next::End)
            } else {
                Ok(Next::NotYet)
            };
        }
        if let Some(head) = look(self.alloc, self.pending.as_slice())? {
            return take_request(self.alloc, &mut self.pending, head, self.is_over);
        }
        if self.pending.len() >= HEAD_LIMIT {
            Err(HttpFault::HeadTooLong)
        } else if self.is_over {
            Err(HttpFault::Ended)
        } else {
            Ok(Next::NotYet)
        }
    }
}
