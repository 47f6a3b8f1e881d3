ghost use Rattle.std.specs.Prelude.{◌≡◌, ◌↔◌, ◌≤◌, true, [], ◌∷◌, IsTrue, length, bytes_eq};
ghost use Rattle.std.specs.Int.{to_be_bytes, w64};
ghost use Rattle.std.specs.Cmp.Rules.{comparing, hashing};
ghost use Rattle.std.proofs.Common.{rules};
ghost use Rattle.std.specs.List.{position, position_or_len};
ghost use Rattle.fare_codes.specs.Codes.{is_rule_id, is_zero, read_rule_id, padded};

use crate::texts::{all_code_characters, ascii_text};
use arrayvec::ArrayString;
use std::hash::{Hash, Hasher};
use std::marker::Model;

/// A rule's id: one to eight characters, each a letter A to Z or a digit. Zeros stand behind them, and no length: each
/// fare of an edition has one.
#[derive(Clone, Copy, Debug, PartialEq, Eq, PartialOrd, Ord)]
pub struct RuleId {
    characters: [u8; 8],
}

impl Model for RuleId {
    ghost use Rattle.std.specs.Prelude.{◌≡◌, true, List, ℕ, length};
    ghost use Rattle.std.specs.List.{before_first};
    ghost use Rattle.fare_codes.specs.Codes.{is_rule_id, is_zero, padded};

    ghost Value = { List ℕ };

    ghost view = { λ r. before_first is_zero r.characters };

    ghost invariant = { λ r. (length r.characters ≡ 8) × (is_rule_id (before_first is_zero r.characters) ≡ true)
        × (padded (before_first is_zero r.characters) ≡ r.characters) };

    ghost inverse = { λ bytes. record { characters = padded bytes } };

    ghost inverse_ok = { λ r h i. record { characters = h.2 i } };
}

impl RuleId {
    /// The rule's id that these bytes spell; nothing exactly where they are not its form.
    #[tactic(auto, using(crate::proofs::RuleIdLemmas::before_zeros))]
    pub fn read(bytes: &[u8]) -> Option<RuleId>
        ensures { result ≡ read_rule_id bytes.now }
    {
        if bytes.is_empty() || bytes.len() > 8 || !all_code_characters(bytes) {
            return None;
        }
        Some(RuleId {
            characters: with_zeros(bytes),
        })
    }

    /// Its characters; read back they are the rule's id.
    #[tactic(auto, using(crate::proofs::TextLemmas::code_characters_are_ascii))]
    pub fn text(self) -> ArrayString<16>
        ensures text { result.bytes ≡ self }
        ensures form { is_rule_id self ≡ true }
        ensures read_back { read_rule_id self ≡ Some self }
    {
        ascii_text(&self.characters[..up_to_zeros(&self.characters)])
    }

    /// Whether both are the same rule's id.
    #[tactic(auto, using(crate::proofs::SameLemmas::same_text))]
    pub fn is(self, other: RuleId) -> bool
        ensures same { IsTrue result ↔ (self ≡ other) }
        ensures test { result ≡ bytes_eq self other }
    {
        have_same_characters(self, other)
    }
}

/// Its eight bytes are hashed as one write, since an edition's index hashes a rule for each fare.
impl Hash for RuleId {
    ghost hash_input = { λ bytes. padded bytes ∷ [] };

    ghost respects_eq = { Prim.search (hashing, rules) };

    fn hash<H: Hasher>(&self, state: &mut H) {
        state.write(&self.characters);
    }
}

/// Whether both are the same rule's id, by eight bytes each.
fn have_same_characters(one: RuleId, other: RuleId) -> bool
    ensures { IsTrue result ↔ (one ≡ other) }
{
    as_one(one.characters) == as_one(other.characters)
}

/// The place of the first zero.
fn first_zero(characters: &[u8; 8]) -> Option<usize>
    ensures { result ≡ position is_zero characters.now }
{
    characters.iter().position(|byte| *byte == 0)
}

/// How many bytes stand before the first zero.
#[tactic(auto, using(crate::proofs::RuleIdLemmas::before_first_zero, crate::proofs::RuleIdLemmas::before_no_zero))]
fn up_to_zeros(characters: &[u8; 8]) -> usize
    ensures { result ≡ position_or_len is_zero characters.now }
{
    match first_zero(characters) {
        None => 8,
        Some(at) => at,
    }
}

/// Eight bytes as one number, which is compared at once: a search asks for the same rule again and again.
fn as_one(characters: [u8; 8]) -> u64
    ensures { to_be_bytes w64 result ≡ characters }
{
    u64::from_be_bytes(characters)
}

/// These bytes with zeros behind them.
fn with_zeros(bytes: &[u8]) -> [u8; 8]
    requires { length bytes.now ≤ 8 }
    ensures { result ≡ padded bytes.now }
{
    let mut characters = [0; 8];
    characters[..bytes.len()].copy_from_slice(bytes);
    characters
}
