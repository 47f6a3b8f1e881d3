ghost use Rattle.std.specs.Prelude.{◌≡◌, ◌<◌, List, ℕ, length};
ghost use Rattle.fare_words.specs.Values.{store_name_of};

use std::marker::Model;

/// The name of a store: any text that isn't empty.
#[derive(Debug, Drop)]
pub struct StoreName<'a> {
    text: &'a str,
}

impl<'a> Model for StoreName<'a> {
    ghost Value = { List ℕ };

    ghost view = { λ name. name.text.now };

    ghost invariant = { λ name. 0 < length name.text.now };
}

impl<'a> StoreName<'a> {
    /// The text as a name; nothing where it is empty.
    pub fn read(text: &'a str) -> Option<StoreName<'a>>
        ensures { result ≡ store_name_of text.entry.now }
    {
        if text.is_empty() {
            return None;
        }
        Some(StoreName { text })
    }

    /// The name's text.
    pub fn as_str(&self) -> &'a str
        ensures text { result.now ≡ self.now }
        ensures not_empty { 0 < length result.now }
    {
        self.text
    }
}
