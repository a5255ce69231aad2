ghost use Rattle.std.specs.Prelude.{◌≡◌, IfOk, OnErr};
ghost use Rattle.http_front.specs.Reply.{Reply, printed};
ghost use Rattle.http_front.specs.Request.{Request, seen};

use http_front as front;
use snap_core::Bytes;
use std::alloc::AllocError;

/// What answers requests, with a state that goes from one request to the next.
pub trait Handler {
    /// What a request may get in a state: a reply, and the state after it.
    ghost replies: { Self → Request → Reply → Self → Type 0 };

    /// Answers a request by the bytes of a reply, which says that the link closes where the request
    /// does. An error is want of memory.
    fn answer(&mut self, request: &front::Request<'_>) -> Result<Bytes, AllocError>
        ensures ok { IfOk result (λ bytes. (reply : Reply)
            × replies self.old (seen request.now) reply self.new × (bytes ≡ printed request.now.close reply)) }
        ensures err { OnErr result (self.new ≡ self.old) };
}
