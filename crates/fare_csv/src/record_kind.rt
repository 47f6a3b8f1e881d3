ghost use Rattle.std.specs.Prelude.{◌≡◌};
ghost use Rattle.fare_csv.specs.RecordKind.{kind_named};

/// The kinds of records between HEAD and END.
#[derive(Clone, Copy, Debug, PartialEq, Eq)]
pub enum RecordKind {
    City,
    Cur,
    Rule,
    Fare,
    Mpm,
    Tpm,
    Ema,
}

impl RecordKind {
    /// The kind that a record's first field names.
    #[tactic(auto, unfolding(crate::specs::RecordKind::kind_named))]
    pub fn named(name: &[u8]) -> Option<RecordKind>
        ensures { result ≡ kind_named name.now }
    {
        match name {
            b"CITY" => Some(RecordKind::City),
            b"CUR" => Some(RecordKind::Cur),
            b"RULE" => Some(RecordKind::Rule),
            b"FARE" => Some(RecordKind::Fare),
            b"MPM" => Some(RecordKind::Mpm),
            b"TPM" => Some(RecordKind::Tpm),
            b"EMA" => Some(RecordKind::Ema),
            _ => None,
        }
    }
}
