//! A text that is compared as a list of bytes.
ghost use Rattle.std.specs.Prelude.{◌≡◌};
ghost use Rattle.std.proofs.Common.{◌∙◌, ap, sym};
ghost use Rattle.std.specs.Cmp.{partial_equiv_from_equiv};
ghost use Rattle.std.specs.Cmp.Lexicographic.{bytes_decides, nat_list_eq_equiv};
ghost use Rattle.std.specs.Hash as fed;
ghost use Rattle.std.specs.Str.{bytes_eq};
ghost use Rattle.std.specs.String.{string_bytes};

use indexmap::Equivalent;
use std::hash::{Hash, Hasher};
use std::marker::Model;

/// A text, which contracts see as the list of its bytes.
#[derive(Drop)]
pub struct NameText {
    text: String,
}

impl Model for NameText {
    ghost use Rattle.std.specs.Prelude.{ℕ, List};
    ghost use Rattle.std.specs.String.{string_bytes};

    ghost Value = { List ℕ };

    ghost view = { λ t. string_bytes t.text };
}

impl NameText {
    /// This text.
    pub fn of(text: String) -> NameText
        ensures { result ≡ string_bytes text }
    {
        NameText { text }
    }

    /// The text.
    pub fn as_str(&self) -> &str
        ensures { result.now ≡ self.now }
    {
        self.text.as_str()
    }
}

impl PartialEq for NameText {
    ghost eq = { bytes_eq };

    ghost laws = { partial_equiv_from_equiv nat_list_eq_equiv };

    fn eq(&self, other: &NameText) -> bool {
        self.as_str() == other.as_str()
    }
}

impl Eq for NameText {
    ghost laws = { nat_list_eq_equiv };
}

impl Hash for NameText {
    ghost hash_input = { fed.str };

    ghost respects_eq = { λ x y same. ap fed.str ((bytes_decides x y).0 same) };

    fn hash<H: Hasher>(&self, state: &mut H) {
        self.as_str().hash(state);
    }
}

// A `NameText` is looked up by a `&str`.
impl Equivalent<NameText> for &str {
    ghost equivalent = { λ name text. bytes_eq text name.now };

    ghost respects_hash = { λ name text same. ap fed.str (sym ((bytes_decides text name.now).0 same)) };

    ghost respects_eq = { λ name x y same. nat_list_eq_equiv.symm y name.now ∙ nat_list_eq_equiv.congr name.now x y (nat_list_eq_equiv.symm name.now x ∙ same) };

    fn equivalent(&self, text: &NameText) -> bool {
        text.as_str() == *self
    }
}
