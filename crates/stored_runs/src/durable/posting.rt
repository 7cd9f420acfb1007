//! What comes is fetched from a wire into the mail, and what is to be posted goes out on it.

ghost use Rattle.std.specs.Prelude.{◌≡◌, ◌<◌, ◌++◌, ◌∷◌, [], true, length, IfErr, IfOk, OnOk, OnErr};
ghost use Rattle.stored_runs.specs.declared.durable.fault.TurnFault.TheVariants as faults;
ghost use Rattle.stored_runs.specs.durable.Letting.{SendsNothing, Posts};
ghost use Rattle.stored_runs.specs.durable.refinement.Mailed.{fresh, FetchesOne, Fetches};

use crate::durable::fault::TurnFault;
use crate::durable::mail::{Addressed, MOST_IN, Mail};
use socket_pump::{Wire, WireFailed};

/// Datagrams that came, as many as a turn hears at most.
pub(crate) fn fetch<W: Wire>(wire: &mut W, mail: &mut Mail) -> Result<(), TurnFault>
    ensures nothing { SendsNothing W.tells (W.account wire.old) (W.account wire.new) }
    ensures fetches { OnOk result (Fetches W.tells (W.account wire.old) (W.account wire.new) mail.new.came) }
    ensures fresh { OnOk result (mail.new ≡ fresh mail.new.came) }
    ensures fault { IfErr result (λ f. f ≡ faults.WireFailed) }
{
    mail.clear();
    for i in 0..MOST_IN {
        match fetch_one(wire, mail) {
            Ok(true) => {}
            Ok(false) => return Ok(()),
            Err(fault) => return Err(fault),
        }
    }
    Ok(())
}

/// One datagram, and whether one came.
fn fetch_one<W: Wire>(wire: &mut W, mail: &mut Mail) -> Result<bool, TurnFault>
    requires fresh { mail.old ≡ fresh mail.old.came }
    requires room { length mail.old.came < 32 }
    ensures nothing { SendsNothing W.tells (W.account wire.old) (W.account wire.new) }
    ensures one { IfOk result (λ more. FetchesOne W.tells (W.account wire.old) mail.old.came more (W.account wire.new) mail.new) }
    ensures fault { IfErr result (λ f. f ≡ faults.WireFailed) }
{
    let mut buffer = [0; 128];
    match wire.receive(&mut buffer) {
        Ok(Some(count)) => {
            mail.comes(&buffer[..count]);
            Ok(true)
        }
        Ok(None) => Ok(false),
        Err(WireFailed) => Err(TurnFault::WireFailed),
    }
}

/// These datagrams go out, in order, up to one at which the wire fails.
pub(crate) fn post<W: Wire>(wire: &mut W, out: &[Addressed]) -> Result<(), TurnFault>
    ensures posts { Posts W.tells (W.account wire.old) out.now (W.account wire.new) }
    ensures all { OnOk result (W.tells ≡ true → W.account wire.new ≡ record (W.account wire.old) { accepted = (W.account wire.old).accepted ++ out.now }) }
    ensures failures { OnOk result ((W.account wire.new).failures ≡ (W.account wire.old).failures) }
    ensures fault { IfErr result (λ f. f ≡ faults.WireFailed) }
{
    for item in out {
        match post_one(wire, item) {
            Ok(()) => {}
            Err(fault) => return Err(fault),
        }
    }
    Ok(())
}

fn post_one<W: Wire>(wire: &mut W, item: &Addressed) -> Result<(), TurnFault>
    ensures sent { OnOk result (W.tells ≡ true → W.account wire.new ≡ record (W.account wire.old) { accepted = (W.account wire.old).accepted ++ item.now ∷ [] }) }
    ensures failures { OnOk result ((W.account wire.new).failures ≡ (W.account wire.old).failures) }
    ensures nothing { OnErr result (SendsNothing W.tells (W.account wire.old) (W.account wire.new)) }
    ensures fault { IfErr result (λ f. f ≡ faults.WireFailed) }
{
    match wire.send(item.to(), item.bytes()) {
        Ok(()) => Ok(()),
        Err(WireFailed) => Err(TurnFault::WireFailed),
    }
}
