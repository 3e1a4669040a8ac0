//! The types of numbers are as wide as their fields, in a request and in what a notice tells. The
//! functions here have no effect: each only reads its argument, so that its type's range is known.

ghost use Rattle.std.specs.Prelude.{◌<◌, ◌^◌, IfSome};
ghost use Rattle.nfqa_msgs.specs.RequestReading.{PayloadFits};
ghost use Rattle.nfqa_msgs.specs.RequestWriting.{FitsRequest, FitsHead, FitsParams};

use crate::{Head, Params, Request};
use packet_entry::Card;

/// Each number of a request fits its field, and its payload does.
pub fn numbers_fit(request: &Request)
    requires { PayloadFits request.now }
    ensures { FitsRequest request.now }
{
    match request {
        Request::Config {
            queue,
            command,
            params,
            maxlen,
            flags,
            mask,
        } => {
            fits_queue(*queue);
            fits_byte(*command);
            fits_params(*params);
            fits_value(*maxlen);
            fits_value(*flags);
            fits_value(*mask);
        }
        Request::Verdict {
            queue,
            head,
            mark,
            priority,
            ..
        } => {
            fits_queue(*queue);
            fits_head(*head);
            fits_value(*mark);
            fits_value(*priority);
        }
        Request::Batch {
            queue,
            head,
            mark,
            priority,
        } => {
            fits_queue(*queue);
            fits_head(*head);
            fits_value(*mark);
            fits_value(*priority);
        }
    }
}

/// Each number of a packet that a notice tells is one of 32 bits.
pub(crate) fn card_fits(card: &Card)
    ensures mark { card.now.mark < 2 ^ 32 }
    ensures priority { card.now.priority < 2 ^ 32 }
    ensures seconds { card.now.seconds < 2 ^ 32 }
    ensures micros { card.now.micros < 2 ^ 32 }
{
    fits_value(Some(card.mark));
    fits_value(Some(card.priority));
    fits_value(Some(card.seconds));
    fits_value(Some(card.micros));
}

fn fits_queue(queue: u16)
    ensures { queue < 2 ^ 16 }
{
    let _queue = queue;
}

fn fits_byte(byte: Option<u8>)
    ensures { IfSome byte (λ n. n < 2 ^ 8) }
{
    if let Some(_byte) = byte {}
}

fn fits_value(value: Option<u32>)
    ensures { IfSome value (λ n. n < 2 ^ 32) }
{
    if let Some(_value) = value {}
}

fn fits_params(params: Option<Params>)
    ensures { IfSome params FitsParams }
{
    if let Some(params) = params {
        let _range = params.range;
        let _mode = params.mode;
    }
}

fn fits_head(head: Option<Head>)
    ensures { IfSome head FitsHead }
{
    if let Some(head) = head {
        let _verdict = head.verdict;
        let _id = head.id;
    }
}
