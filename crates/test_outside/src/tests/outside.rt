//! One run through all five traits, and bytes and bodies that grow.

ghost use Rattle.std.specs.Prelude.{◌≡◌, ◌≢◌, ◌<◌, length, IfSome, OnOk, IsErrOf};
ghost use Rattle.std.specs.Io.KnownBytes.{Appends, Keeps};
ghost use Rattle.fare_ports.specs.Cause.{Rose};
ghost use Rattle.fare_ports.specs.Sink.{AppendsPrefix};
ghost use Rattle.fare_ports.specs.Keeper.{WhereTold, BodyAppended};

mod doors;
mod keepers;
mod streams;

use fare_outside::*;
use std::alloc::Global;
use std::test::Fail;

/// How a run through all five traits ended.
#[derive(Clone, Copy, Debug, PartialEq, Eq)]
enum Ending {
    Done,
    ReadFault,
    TooLong,
    WriteFault,
    KeeperFault,
    DoorFault,
    Memory,
}

/// Reads at most nine bytes, keeps them, and writes them out.
fn run_once<S: Source, K: Sink, P: Keeper, D: Door, G: Gate>(
    alloc: Global,
    src: &mut S,
    out: &mut K,
    store: &mut P,
    door: &mut D,
    gate: &G,
) -> Ending
    ensures read_fault { result ≡ Ending.ReadFault → Rose (S.faults src.old) (S.faults src.new) }
    ensures write_fault { result ≡ Ending.WriteFault → Rose (K.faults out.old) (K.faults out.new) }
    ensures keeper_fault { result ≡ Ending.KeeperFault →
        Rose (P.faults store.old) (P.faults store.new) }
    ensures door_fault { result ≡ Ending.DoorFault → Rose (D.faults door.old) (D.faults door.new) }
    ensures too_long { result ≡ Ending.TooLong → IfSome (S.left src.old) (λ left. 9 < length left) }

    ensures written { result ≡ Ending.Done → IfSome (S.left src.old)
        (Appends (K.taken out.old) (K.taken out.new)) }
    ensures kept { result ≡ Ending.Done → IfSome (S.left src.old) (λ left.
        WhereTold (P.bodies store.old) (P.bodies store.new) (BodyAppended left)) }
    ensures prefix { result ≡ Ending.WriteFault → IfSome (S.left src.old)
        (AppendsPrefix (K.taken out.old) (K.taken out.new)) }
    ensures silent { result ≢ Ending.Done → result ≢ Ending.WriteFault →
        Keeps (K.taken out.old) (K.taken out.new) }
{
    let bytes = match read_all(alloc, src, 9) {
        Ok(bytes) => bytes,
        Err(ReadEnd::Memory) => return Ending::Memory,
        Err(ReadEnd::ReadFault) => return Ending::ReadFault,
        Err(ReadEnd::TooLong) => return Ending::TooLong,
    };
    match keep(alloc, store, &bytes) {
        Ok(()) => {}
        Err(KeepFault::Memory) => return Ending::Memory,
        Err(KeepFault::Failed) => return Ending::KeeperFault,
    }
    gate.begin(1);
    if door.listen(80).is_err() {
        return Ending::DoorFault;
    }
    match write_all(out, &bytes) {
        Ok(()) => Ending::Done,
        Err(Failed) => Ending::WriteFault,
    }
}

fn keep<P: Keeper>(alloc: Global, store: &mut P, body: &[u8]) -> Result<(), KeepFault>
    ensures ok { OnOk result
        (WhereTold (P.bodies store.old) (P.bodies store.new) (BodyAppended body.now)) }
    ensures cause { IsErrOf result KeepFault.Failed →
        Rose (P.faults store.old) (P.faults store.new) }
{
    store.open(alloc, "run")?;
    store.append(alloc, body)
}

fn some_bytes(alloc: Global, bytes: &[u8]) -> Result<Vec<u8>, Fail> {
    Ok(Vec::from_slice(alloc, bytes)?)
}

/// Whether that body stands there.
fn is_kept(bodies: &Bodies, i: usize, body: &[u8]) -> bool {
    match bodies.get(i) {
        Some(kept) => kept == body,
        None => false,
    }
}

/// What a run of eight bytes leaves in its sink and in its keeper.
fn run_of_eight(alloc: Global) -> Result<(Ending, PlainSink, PlainKeeper), Fail> {
    let mut src = PlainSource::new(some_bytes(alloc, b"one body")?);
    let mut out = PlainSink::new(alloc, 8)?;
    let mut store = PlainKeeper::new(Bodies::new(alloc));
    let mut door = PlainDoor::new();
    let end = run_once(alloc, &mut src, &mut out, &mut store, &mut door, &OpenGate);
    Ok((end, out, store))
}

#[test]
fn five_traits_serve_one_run(rt: HostRuntime) -> Result<(), Fail> {
    let (end, out, store) = run_of_eight(rt.alloc())?;
    assert!(rt; end == Ending::Done);
    assert!(rt; out.bytes() == b"one body".as_slice());
    assert!(rt; is_kept(store.kept(), 0, b"one body"));
    Ok(())
}

/// A body in two pieces, and an empty one.
fn two_bodies(alloc: Global) -> Result<Bodies, Fail> {
    let mut bytes = Bytes::from(some_bytes(alloc, b"OK")?);
    bytes.extend(b" 1")?;
    let mut bodies = Bodies::new(alloc);
    bodies.push(bytes.as_slice())?;
    bodies.push(Bytes::new(alloc).as_slice())?;
    Ok(bodies)
}

#[test]
fn bytes_and_bodies_grow(rt: HostRuntime) -> Result<(), Fail> {
    let bodies = two_bodies(rt.alloc())?;
    assert!(rt; !bodies.is_empty());
    assert!(rt; bodies.len() == 2);
    assert!(rt; is_kept(&bodies, 0, b"OK 1"));
    assert!(rt; is_kept(&bodies, 1, b""));
    assert!(rt; bodies.get(2).is_none());
    Ok(())
}

fn go_to_other_threads<A: Send + Sync, B: Send + Sync, C: Send + Sync>() {}

#[test]
fn what_workers_hand_over_may_cross_threads() {
    go_to_other_threads::<Bytes, Bodies, OpenGate>();
}
