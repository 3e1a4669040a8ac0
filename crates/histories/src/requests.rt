//! What a request names.

ghost use Rattle.std.specs.Prelude.{◌≡◌};
ghost use Rattle.histories.specs.Happenings.{queue_of};

use nfqa_msgs::Request;

/// The queue that a request names.
pub fn queue_of(request: &Request) -> u16
    ensures { result ≡ queue_of request.now }
{
    match request {
        Request::Config { queue, .. }
        | Request::Verdict { queue, .. }
        | Request::Batch { queue, .. } => *queue,
    }
}
