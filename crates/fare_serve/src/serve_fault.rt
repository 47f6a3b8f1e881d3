use fare_ports::NoMemory;

/// Why connections aren't served to the end.
#[derive(Clone, Copy, Debug, PartialEq, Eq)]
pub enum ServeFault {
    /// Memory was wanting before the door was asked to listen, so nobody was served.
    Memory,
    /// The door failed, and its count of faults rose; the connections taken before were served.
    Door,
}

impl From<NoMemory> for ServeFault {
    ghost use Rattle.std.specs.Prelude.{◌≡◌};
    ghost use Rattle.fare_serve.specs.declared.serve_fault.ServeFault.TheVariants.{Memory};

    ghost from_gives = { λ _ fault. fault ≡ Memory };

    fn from(_: NoMemory) -> ServeFault {
        ServeFault::Memory
    }
}
