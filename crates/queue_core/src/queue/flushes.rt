//! What destroys all that waits.

ghost use Rattle.std.specs.Prelude.{◌≡◌, ℕ, [], length, Some, None};
ghost use Rattle.nfqa_msgs.specs.Numbers.{command_unbind, input_device};
ghost use Rattle.nfqa_msgs.specs.declared.request.Request.TheVariants.{Config};
ghost use Rattle.queue_core.specs.declared.event.Event.TheVariants.{Ask, PortClosed, DeviceDown};
ghost use Rattle.queue_core.specs.declared.event.Reply.TheVariants.{Answer, Flushed};
ghost use Rattle.queue_core.specs.State.{emptied};
ghost use Rattle.queue_core.specs.Step.{all_gone, step};

use super::Queue;
use crate::waiting::Waiting;

/// The indexes of the two devices by which every packet comes in and goes out.
const INPUT_DEVICE: u32 = 1;

const OUTPUT_DEVICE: u32 = 2;

impl Queue {
    /// A device goes down. Where it is one of the two by which every packet comes in and goes out,
    /// all that waits is destroyed. Answers how much that was. Takes no memory.
    pub fn device_down(&mut self, device: u32) -> u32
        requires no_offer { self.old.offer ≡ None }
        ensures count { (step (Some self.old.state) (DeviceDown device)).reply ≡ Flushed result }
        ensures state { (step (Some self.old.state) (DeviceDown device)).state
            ≡ Some self.new.state }
        ensures no_offer { self.new.offer ≡ None }
    {
        if device == INPUT_DEVICE || device == OUTPUT_DEVICE {
            self.flush()
        } else {
            0
        }
    }

    /// Destroys all that waits, and answers how much that was. Takes no memory.
    pub fn flush(&mut self) -> u32
        requires no_offer { self.old.offer ≡ None }
        ensures count { result ≡ length self.old.state.waiting }
        ensures state { self.new.state ≡ emptied self.old.state }
        ensures no_offer { self.new.offer ≡ None }
        // This is the step of its input device that goes down.
        ensures step { step (Some self.old.state) (DeviceDown input_device) ≡ record {
          state = Some self.new.state;
          reply = Flushed result;
          left = all_gone self.old.state;
        } }
        // This is what leaves in the step of its port that is closed, after which it is absent.
        ensures closed { step (Some self.old.state) (PortClosed self.old.state.port) ≡ record {
          state = None;
          reply = Flushed result;
          left = all_gone self.old.state;
        } }
        // And so it is in the step of its port's request to unbind it.
        ensures unbound { (queue call : ℕ) → step (Some self.old.state)
            (Ask self.old.state.port call
            (Config queue (Some command_unbind) None None None None)) ≡ record {
              state = None;
              reply = Answer 0 result;
              left = all_gone self.old.state;
            } }
    {
        let count = self.waiting.len() as u32;
        destroy_all(&mut self.waiting);
        count
    }
}

/// Destroys all that waits.
fn destroy_all(waiting: &mut Waiting)
    ensures { waiting.new ≡ [] }
{
    while let Some((_, packet)) = waiting.take_oldest() {
        packet.destroy();
    }
}
