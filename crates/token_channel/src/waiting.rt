//! What waits on a channel.

ghost use Rattle.std.specs.Prelude.{◌≡◌, ◌≤◌, ℕ, Some, IfSome, IfNone, slice_get};
ghost use Rattle.bottle_values.specs.declared.Value as bottle;
ghost use Rattle.frame_codec.specs.declared.message.Msg.TheVariants as msg;
ghost use Rattle.token_channel.specs.declared.thing.Thing.TheVariants as things;
ghost use Rattle.token_channel.specs.Things.{count_carrying};
ghost use Rattle.token_channel.specs.WaitingBottle.{TellsBottle};

use crate::channel::Channel;
use bottle_values::Value;
use frame_codec::Msg;
use office_map::RecordId;
use window_link::Waiting;

/// The number and the value of the message that waits with that bottle.
pub fn waiting_bottle(channel: &Channel, r: RecordId) -> Option<(u64, Value)>
    ensures told { TellsBottle channel.now.link r result }
    ensures once { count_carrying (things.Bottle r) channel.now.link.sending.waiting ≤ 1 }
{
    let (i, value) = bottle_among(channel.waiting(), r)?;
    Some((channel.acked() + 1 + i as u64, value))
}

/// The place and the value of the message with that bottle.
fn bottle_among(messages: &Waiting, r: RecordId) -> Option<(usize, Value)>
    ensures some { IfSome result (λ a. slice_get messages.now a.0 ≡ Some (msg.Bottle r a.1)) }
    ensures none { IfNone result ((i : ℕ) (x : bottle.Value) → slice_get messages.now i ≡ Some (msg.Bottle r x) → ⊥) }
{
    for i in 0..messages.len() {
        if let Some(value) = value_in(&messages.message(i), r) {
            return Some((i, value));
        }
    }
    None
}

/// The value of that bottle, if the message brings it.
fn value_in(message: &Msg, r: RecordId) -> Option<Value>
    ensures some { IfSome result (λ x. message.now ≡ msg.Bottle r x) }
    ensures none { IfNone result ((x : bottle.Value) → message.now ≡ msg.Bottle r x → ⊥) }
{
    match message {
        Msg::Bottle(q, value) if *q == r.number() => Some(*value),
        _ => None,
    }
}
